// Texts that are written in several pieces.
ghost use Rattle.std.specs.Prelude.{◌≡◌, ◌≢◌, ◌<◌, ◌≤◌, ◌+◌, ◌-◌, ◌++◌, ℕ, length, slice_index, OnOk, OnErr};
ghost use Rattle.ak_outside.specs.Causes.{Counts};
ghost use Rattle.ak_outside.specs.Taken.{with_more, TakesFront};

use crate::{Sink, SinkFault};

const NEWLINE: u8 = b'\n';

/// Where the line that begins at `start` ends, its newline included.
fn end_of_line(text: &[u8], start: usize) -> usize
    requires { start < length text.now }
    ensures later { start < result }
    ensures within { result ≤ length text.now }
    ensures newline { result < length text.now → slice_index text.now (result - 1) ≡ NEWLINE }
    ensures before { (k : ℕ) → start ≤ k → k + 1 < result → slice_index text.now k ≢ NEWLINE }
{
    for i in start..text.len() {
        if text[i] == NEWLINE {
            return i + 1;
        }
    }
    text.len()
}

/// Writes the text, each line in one write. The last line may lack its newline.
pub fn write_lines<O: Sink>(out: &mut O, text: &[u8]) -> Result<(), SinkFault>
    ensures ok { OnOk result (O.taken out.new ≡ with_more (O.taken out.old) text.now) }
    ensures err { OnErr result (TakesFront (O.taken out.old) (O.taken out.new) text.now) }
    ensures count { Counts (O.faults out.old) (O.faults out.new) result }
{
    let mut start = 0;
    while start < text.len() {
        let end = end_of_line(text, start);
        if let Err(fault) = out.write(&text[start..end]) {
            return Err(fault);
        }
        start = end;
    }
    Ok(())
}

/// Writes two pieces, one after the other.
pub fn write_two<O: Sink>(out: &mut O, first: &[u8], second: &[u8]) -> Result<(), SinkFault>
    ensures ok { OnOk result (O.taken out.new ≡ with_more (O.taken out.old) (first.now ++ second.now)) }
    ensures err { OnErr result (TakesFront (O.taken out.old) (O.taken out.new) (first.now ++ second.now)) }
    ensures count { Counts (O.faults out.old) (O.faults out.new) result }
{
    if let Err(fault) = out.write(first) {
        return Err(fault);
    }
    if let Err(fault) = out.write(second) {
        return Err(fault);
    }
    Ok(())
}

/// Writes three pieces, one after the other.
pub fn write_three<O: Sink>(
    out: &mut O,
    first: &[u8],
    second: &[u8],
    third: &[u8],
) -> Result<(), SinkFault>
    ensures ok { OnOk result (O.taken out.new ≡ with_more (O.taken out.old) (first.now ++ second.now ++ third.now)) }
    ensures err { OnErr result (TakesFront (O.taken out.old) (O.taken out.new) (first.now ++ second.now ++ third.now)) }
    ensures count { Counts (O.faults out.old) (O.faults out.new) result }
{
    if let Err(fault) = write_two(out, first, second) {
        return Err(fault);
    }
    if let Err(fault) = out.write(third) {
        return Err(fault);
    }
    Ok(())
}
