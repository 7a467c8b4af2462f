// The whole program, over the files and sinks that are handed in.
ghost use Rattle.std.specs.Prelude.{map, string_bytes};
ghost use Rattle.ak_top.specs.Ends.{Does};
ghost use Rattle.ak_top.specs.Seen.{files_at, sink_at};
ghost use Rattle.ak_top.specs.TopCall.{Serves};
ghost use Rattle.ak_words.specs.Asked.{words_of};
ghost use Rattle.ak_words.specs.Lent.{asked_of, AskedInRanges};

use crate::demo::demo_command;
use crate::left::Left;
use crate::measure::measure_command;
use crate::run::run_command;
use crate::trouble::{Trouble, tell};
use ak_outside::{Files, Sink};
use ak_words::{Asked, read_words};
use std::alloc::Global;

/// Does what a command asks for.
fn do_command<F: Files, O: Sink>(
    alloc: Global,
    command: Asked<'_>,
    files: &mut F,
    out: &mut O,
) -> Result<Left, Trouble>
    requires { AskedInRanges command }
    ensures { Does (asked_of command.entry)
        (files_at F.Files files.old) (files_at F.Files files.new)
        (sink_at O.Sink out.old) (sink_at O.Sink out.new) result }
{
    match command {
        Asked::Run(asked) => run_command(alloc, asked, files, out),
        Asked::Measure(image) => measure_command(alloc, image, files, out),
        Asked::Demo(number) => demo_command(alloc, number, out),
    }
}

/// The whole program: the words after its name, the files, and the two sinks; it gives the status, and what it leaves.
///
/// `run IMAGE SIGNERS SCRIPT [--frames N] [--processors N]` applies the script's moves to the image's enclave and writes the report
/// to `out`, and `measure IMAGE` writes the image's measurement. `demo NUMBER` reads no file: it applies up to 20,000 moves of the honest
/// kernel to the enclave of the number's image, on 136 frames and one processor, and writes the summary of that. Status 0: the text was written. 10: the report was written, and the enclave stopped, which no demo does. 2: the words give no
/// command. 3: the image or the signers are refused, or the image is not signed. 4: the script is refused. 5: a file could not be read.
/// 6: the text could not be written. 7: memory ran out. 8: a file is too long. At each but 0 and 10, `err` gets its line. Where a report
/// or a summary was written, its run is left, and else nothing.
pub fn autarky<F: Files, O: Sink, E: Sink>(
    alloc: Global,
    words: &[String],
    files: &mut F,
    out: &mut O,
    err: &mut E,
    left: &mut Left,
) -> u8
    ensures { Serves result (words_of (map string_bytes words.now))
        (files_at F.Files files.old) (files_at F.Files files.new)
        (sink_at O.Sink out.old) (sink_at O.Sink out.new)
        (sink_at E.Sink err.old) (sink_at E.Sink err.new) left.new }
{
    *left = Left::Nothing;
    let command = match read_words(alloc, words) {
        Ok(Some(command)) => command,
        Ok(None) => return tell(err, Trouble::Usage, None),
        Err(fault) => return tell(err, Trouble::from(fault), None),
    };
    match do_command(alloc, command, files, out) {
        Ok(done) => {
            let status = done.status();
            *left = done;
            status
        }
        Err(trouble) => tell(err, trouble, Some(command)),
    }
}
