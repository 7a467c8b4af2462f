// Why a command ends without its text, and how that is told.
ghost use Rattle.std.specs.Prelude.{◌≡◌, ◌++◌, OnOk, OnErr, Some, None, Option};
ghost use Rattle.std.specs.Option.{option_map};
ghost use Rattle.ak_outside.specs.Causes.{Counts};
ghost use Rattle.ak_outside.specs.Taken.{with_more, TakesFront};
ghost use Rattle.ak_words.specs.Asked.{Run as RunCommand};
ghost use Rattle.ak_words.specs.Lent.{asked_of, run_texts};
ghost use Rattle.ak_top.specs.Refusals.{image_refusal, signers_refusal, script_refusal, page_of as the_page};
ghost use Rattle.ak_top.specs.Seen.{sink_at};
ghost use Rattle.ak_top.specs.Told.{Told};
ghost use Rattle.ak_top.specs.declared.trouble.Trouble.TheVariants.{WriteFailed, OutOfMemory as NoMemory};
ghost use Rattle.ak_top.specs.Trouble.{trouble_of_read, trouble_of_image, trouble_of_signers, trouble_of_script, trouble_of_build, status_of, name_at, head_of, place_of, tail_of, line_of};

use ak_core::{BuildFault, OutOfMemory, Page};
use ak_image::ImageFault;
use ak_measure::SignersFault;
use ak_outside::{FilesFault, Sink, SinkFault, write_three, write_two};
use ak_script::{Refusal, ScriptFault};
use ak_words::{Asked, RunAsked};
use itoa::Buffer;

const USAGE: &str =
    "usage: autarky run IMAGE SIGNERS SCRIPT [--frames N] [--processors N] or measure IMAGE or demo NUMBER";

/// One of a command's files.
#[derive(Clone, Copy, PartialEq, Eq, Debug)]
pub enum Place {
    /// The image.
    Image,
    /// The signers.
    Signers,
    /// The script.
    Script,
}

/// Why a command ends without its text.
#[derive(Clone, Copy, PartialEq, Eq, Debug)]
pub enum Trouble {
    /// The words give no command.
    Usage,
    /// A file could not be read.
    ReadFailed(Place),
    /// A file has more bytes than a file may have.
    TooLong(Place),
    /// The image is refused.
    ImageRefused(ImageFault),
    /// The signers are refused.
    SignersRefused(SignersFault),
    /// The script is refused at this line, the first that is.
    ScriptRefused(u32, Refusal),
    /// The signers have no name that is the image's signer.
    UnknownSigner,
    /// The image's signer did not sign its measurement.
    NotSigned,
    /// The text could not be written.
    WriteFailed,
    /// Memory ran out.
    OutOfMemory,
}

impl Trouble {
    /// The trouble of a fault at the reading of a file.
    pub fn of_read(fault: FilesFault, place: Place) -> Trouble
        ensures { result ≡ trouble_of_read fault place }
    {
        match fault {
            FilesFault::Failed => Trouble::ReadFailed(place),
            FilesFault::TooLong => Trouble::TooLong(place),
            FilesFault::OutOfMemory => Trouble::OutOfMemory,
        }
    }

    /// The status with which the program ends.
    pub fn status(self) -> u8
        ensures { result ≡ status_of self }
    {
        match self {
            Trouble::Usage => 2,
            Trouble::ImageRefused(_) => 3,
            Trouble::SignersRefused(_) => 3,
            Trouble::UnknownSigner => 3,
            Trouble::NotSigned => 3,
            Trouble::ScriptRefused(_, _) => 4,
            Trouble::ReadFailed(_) => 5,
            Trouble::WriteFailed => 6,
            Trouble::OutOfMemory => 7,
            Trouble::TooLong(_) => 8,
        }
    }

    fn head(self) -> &'static str
        ensures { result.now ≡ head_of self }
    {
        match self {
            Trouble::Usage => USAGE,
            Trouble::ReadFailed(_) => "read failed: ",
            Trouble::TooLong(_) => "file too long: ",
            Trouble::ImageRefused(fault) => image_refused(fault),
            Trouble::SignersRefused(fault) => signers_refused(fault),
            Trouble::ScriptRefused(_, _) => "script refused: line ",
            Trouble::UnknownSigner => "image refused: 12 unknownsigner",
            Trouble::NotSigned => "image refused: 13 notsigned",
            Trouble::WriteFailed => "write failed",
            Trouble::OutOfMemory => "out of memory",
        }
    }
}

/// Bytes that are no image.
impl From<ImageFault> for Trouble {
    ghost from_gives = { λ fault trouble. trouble ≡ trouble_of_image fault };

    fn from(fault: ImageFault) -> Trouble {
        match fault {
            ImageFault::OutOfMemory => Trouble::OutOfMemory,
            _ => Trouble::ImageRefused(fault),
        }
    }
}

/// Bytes that are no signers.
impl From<SignersFault> for Trouble {
    ghost from_gives = { λ fault trouble. trouble ≡ trouble_of_signers fault };

    fn from(fault: SignersFault) -> Trouble {
        match fault {
            SignersFault::OutOfMemory => Trouble::OutOfMemory,
            _ => Trouble::SignersRefused(fault),
        }
    }
}

/// Bytes that are no script.
impl From<ScriptFault> for Trouble {
    ghost from_gives = { λ fault trouble. trouble ≡ trouble_of_script fault };

    fn from(fault: ScriptFault) -> Trouble {
        match fault {
            ScriptFault::OutOfMemory => Trouble::OutOfMemory,
            ScriptFault::Refused { line, why } => Trouble::ScriptRefused(line, why),
        }
    }
}

/// An image that is not built.
impl From<BuildFault> for Trouble {
    ghost from_gives = { λ fault trouble. trouble ≡ trouble_of_build fault };

    fn from(fault: BuildFault) -> Trouble {
        match fault {
            BuildFault::UnknownSigner => Trouble::UnknownSigner,
            BuildFault::MeasurementNotSigned => Trouble::NotSigned,
            BuildFault::OutOfMemory => Trouble::OutOfMemory,
        }
    }
}

/// A piece that a sink did not take.
impl From<SinkFault> for Trouble {
    ghost from_gives = { λ _ trouble. trouble ≡ WriteFailed };

    fn from(_: SinkFault) -> Trouble {
        Trouble::WriteFailed
    }
}

/// Words, or a move, for which there is no memory.
impl From<OutOfMemory> for Trouble {
    ghost from_gives = { λ _ trouble. trouble ≡ NoMemory };

    fn from(_: OutOfMemory) -> Trouble {
        Trouble::OutOfMemory
    }
}

// What is told of an image that is refused; of a page, its number follows.
fn image_refused(fault: ImageFault) -> &'static str
    ensures { result.now ≡ image_refusal fault }
{
    match fault {
        ImageFault::NotToml => "image refused: 1 nottoml",
        ImageFault::UnknownKey => "image refused: 2 unknownkey",
        ImageFault::MissingKey => "image refused: 3 missingkey",
        ImageFault::WrongType => "image refused: 4 wrongtype",
        ImageFault::Version => "image refused: 5 version",
        ImageFault::BaseAlign => "image refused: 6 basealign",
        ImageFault::PageCount => "image refused: 7 pagecount",
        ImageFault::PagePerm(_) => "image refused: 8 pageperm page ",
        ImageFault::PageBytes(_) => "image refused: 9 pagebytes page ",
        ImageFault::Entry => "image refused: 10 entry",
        ImageFault::Budget => "image refused: 11 budget",
        ImageFault::OutOfMemory => "image refused: out of memory",
    }
}

// What is told of signers that are refused.
fn signers_refused(fault: SignersFault) -> &'static str
    ensures { result.now ≡ signers_refusal fault }
{
    match fault {
        SignersFault::NotToml => "signers refused: 1 nottoml",
        SignersFault::BadKey => "signers refused: 2 badkey",
        SignersFault::BadDigest => "signers refused: 3 baddigest",
        SignersFault::Repeated => "signers refused: 4 repeated",
        SignersFault::OutOfMemory => "signers refused: out of memory",
    }
}

// The page that a refusal names.
fn page_of(fault: ImageFault) -> Option<Page>
    ensures { result ≡ the_page fault }
{
    match fault {
        ImageFault::PagePerm(page) => Some(page),
        ImageFault::PageBytes(page) => Some(page),
        _ => None,
    }
}

fn name_of_run<'a>(place: Place, run: RunAsked<'a>) -> &'a str
    ensures { result.now ≡ name_at place (Some (RunCommand (run_texts run.entry))) }
{
    match place {
        Place::Image => run.image,
        Place::Signers => run.signers,
        Place::Script => run.script,
    }
}

fn name_of<'a>(place: Place, command: Option<Asked<'a>>) -> &'a str
    ensures { result.now ≡ name_at place (option_map asked_of command.entry) }
{
    match command {
        None => "",
        Some(Asked::Run(run)) => name_of_run(place, run),
        Some(Asked::Measure(image)) => image,
        Some(Asked::Demo(_)) => "",
    }
}

fn place_text<'a>(buffer: &'a mut Buffer, trouble: Trouble, command: Option<Asked<'a>>) -> &'a str
    ensures { result.now ≡ place_of trouble (option_map asked_of command.entry) }
{
    match trouble {
        Trouble::ScriptRefused(line, _) => buffer.format(line),
        Trouble::ImageRefused(fault) => match page_of(fault) {
            Some(page) => buffer.format(page.0),
            None => "",
        },
        Trouble::ReadFailed(place) => name_of(place, command),
        Trouble::TooLong(place) => name_of(place, command),
        _ => "",
    }
}

// Why a line of a script is refused, after its number.
fn write_reason<E: Sink>(err: &mut E, why: Refusal) -> Result<(), SinkFault>
    ensures ok { OnOk result (E.taken err.new ≡ with_more (E.taken err.old) (script_refusal why)) }
    ensures err { OnErr result (TakesFront (E.taken err.old) (E.taken err.new) (script_refusal why)) }
    ensures count { Counts (E.faults err.old) (E.faults err.new) result }
{
    let mut buffer = Buffer::new();
    let number = buffer.format(why.number());
    write_three(err, b": ", number.as_bytes(), b" ")?;
    write_two(err, why.word().as_bytes(), b"\n")?;
    Ok(())
}

// The rest of a line, after the place.
fn write_tail<E: Sink>(err: &mut E, trouble: Trouble) -> Result<(), SinkFault>
    ensures ok { OnOk result (E.taken err.new ≡ with_more (E.taken err.old) (tail_of trouble)) }
    ensures err { OnErr result (TakesFront (E.taken err.old) (E.taken err.new) (tail_of trouble)) }
    ensures count { Counts (E.faults err.old) (E.faults err.new) result }
{
    match trouble {
        Trouble::ScriptRefused(_, why) => write_reason(err, why),
        _ => err.write(b"\n"),
    }
}

#[tactic(auto, unfolding(crate::specs::Trouble::line_of))]
fn write_line<E: Sink>(
    err: &mut E,
    trouble: Trouble,
    command: Option<Asked<'_>>,
) -> Result<(), SinkFault>
    ensures ok { OnOk result (E.taken err.new ≡ with_more (E.taken err.old) (line_of trouble (option_map asked_of command.entry))) }
    ensures err { OnErr result (TakesFront (E.taken err.old) (E.taken err.new) (line_of trouble (option_map asked_of command.entry))) }
    ensures count { Counts (E.faults err.old) (E.faults err.new) result }
{
    let mut buffer = Buffer::new();
    let place = place_text(&mut buffer, trouble, command);
    write_two(err, trouble.head().as_bytes(), place.as_bytes())?;
    write_tail(err, trouble)?;
    Ok(())
}

/// Tells a trouble by its line, as far as the sink takes it, and gives its status.
pub fn tell<E: Sink>(err: &mut E, trouble: Trouble, command: Option<Asked<'_>>) -> u8
    ensures line { Told (sink_at E.Sink err.old) (sink_at E.Sink err.new) (line_of trouble (option_map asked_of command.entry)) }
    ensures status { result ≡ status_of trouble }
{
    let _ = write_line(err, trouble, command);
    trouble.status()
}
