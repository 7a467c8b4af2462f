// The measurement of an image.
ghost use Rattle.std.specs.Prelude.{◌≡◌};
ghost use Rattle.ak_top.specs.Ends.{digest_text, WritesText, Does};
ghost use Rattle.ak_top.specs.Seen.{files_at, sink_at};
ghost use Rattle.ak_words.specs.Asked.{Measure};

use crate::inputs::read_image;
use crate::left::Left;
use crate::trouble::Trouble;
use ak_outside::{Files, Sink, write_two};
use std::alloc::Global;

/// Writes a digest in lower-case hexadecimal digits, and a newline.
fn write_digest<O: Sink>(digest: &[u8; 32], out: &mut O) -> Result<(), Trouble>
    ensures { WritesText result (digest_text digest.now) (sink_at O.Sink out.old) (sink_at O.Sink out.new) }
{
    let mut digits = [0u8; 64];
    let _ = hex::encode_to_slice(digest.as_slice(), &mut digits);
    write_two(out, &digits, b"\n")?;
    Ok(())
}

/// Reads an image, and writes its measurement. It leaves nothing.
pub fn measure_command<F: Files, O: Sink>(
    alloc: Global,
    name: &str,
    files: &mut F,
    out: &mut O,
) -> Result<Left, Trouble>
    ensures { Does (Measure name.now)
        (files_at F.Files files.old) (files_at F.Files files.new)
        (sink_at O.Sink out.old) (sink_at O.Sink out.new) result }
{
    let image = read_image(alloc, name, files)?;
    write_digest(&image.digest(), out)?;
    Ok(Left::Nothing)
}
