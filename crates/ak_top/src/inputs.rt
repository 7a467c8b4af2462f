// What the files of a command say.
ghost use Rattle.std.specs.Prelude.{◌≡◌, ◌≤◌, ℕ, List, IfOk, length};
ghost use Rattle.std.specs.Result.{result_map_both};
ghost use Rattle.ak_words.specs.Asked.{Run};
ghost use Rattle.ak_words.specs.Lent.{run_texts};
ghost use Rattle.ak_top.specs.Inputs.{bytes_in, image_in, signers_in, script_in, inputs_in};
ghost use Rattle.ak_top.specs.Reads.{ReadsFile, Reads};
ghost use Rattle.ak_top.specs.Seen.{files_at};

use crate::trouble::{Place, Trouble};
use ak_image::Image;
use ak_measure::Signers;
use ak_outside::Files;
use ak_script::Script;
use ak_words::RunAsked;
use std::alloc::Global;

/// What a run needs, as its files say it.
#[derive(Drop)]
pub struct Inputs {
    /// The image.
    pub image: Image,
    /// The signers.
    pub signers: Signers,
    /// The script.
    pub script: Script,
}

/// The most bytes that a file may have.
const LIMIT: usize = 8_388_608;

/// The bytes of a file.
fn read_file<F: Files>(
    alloc: Global,
    place: Place,
    name: &str,
    files: &mut F,
) -> Result<Vec<u8>, Trouble>
    ensures short { IfOk result (λ bytes. length bytes.items ≤ LIMIT) }
    ensures reads { ReadsFile (bytes_in place) name.now
        (files_at F.Files files.old) (files_at F.Files files.new)
        (result_map_both (λ bytes. bytes.items) (λ trouble. trouble) result) }
{
    files
        .read(alloc, name, LIMIT)
        .map_err(|fault| Trouble::of_read(fault, place))
}

/// The image of a file.
pub fn read_image<F: Files>(alloc: Global, name: &str, files: &mut F) -> Result<Image, Trouble>
    ensures { ReadsFile image_in name.now
        (files_at F.Files files.old) (files_at F.Files files.new) result }
{
    let bytes = read_file(alloc, Place::Image, name, files)?;
    Ok(Image::read(alloc, &bytes)?)
}

/// The signers of a file.
fn read_signers<F: Files>(alloc: Global, name: &str, files: &mut F) -> Result<Signers, Trouble>
    ensures { ReadsFile signers_in name.now
        (files_at F.Files files.old) (files_at F.Files files.new) result }
{
    let bytes = read_file(alloc, Place::Signers, name, files)?;
    Ok(Signers::read(alloc, &bytes)?)
}

/// The script of a file.
fn read_script<F: Files>(alloc: Global, name: &str, files: &mut F) -> Result<Script, Trouble>
    ensures { ReadsFile script_in name.now
        (files_at F.Files files.old) (files_at F.Files files.new) result }
{
    let bytes = read_file(alloc, Place::Script, name, files)?;
    Ok(Script::read(alloc, &bytes)?)
}

/// The inputs of a run's files: the first trouble ends the reading.
pub fn read_inputs<F: Files>(
    alloc: Global,
    asked: RunAsked<'_>,
    files: &mut F,
) -> Result<Inputs, Trouble>
    ensures { Reads inputs_in (Run (run_texts asked.entry))
        (files_at F.Files files.old) (files_at F.Files files.new) result }
{
    let image = read_image(alloc, asked.image, files)?;
    let signers = read_signers(alloc, asked.signers, files)?;
    let script = read_script(alloc, asked.script, files)?;
    Ok(Inputs {
        image,
        signers,
        script,
    })
}
