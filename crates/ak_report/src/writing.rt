// Lines that go out, each in one write.
ghost use Rattle.std.specs.Prelude.{◌≡◌, ◌≤◌, ◌++◌, codes, length, OnOk, OnErr};
ghost use Rattle.ak_outside.specs.Causes.{Counts};
ghost use Rattle.ak_outside.specs.Taken.{with_more, TakesFront};
ghost use Rattle.ak_script.specs.Text.{in_lines};
ghost use Rattle.ak_report.specs.Report.{output_line as output_line_text};

use crate::line::{LongLine, output_line};
use ak_outside::{Sink, SinkFault};

/// A line, with its newline.
pub fn write_line<O: Sink>(out: &mut O, text: &str) -> Result<(), SinkFault>
    requires room { length text.now ≤ 255 }
    ensures ok { OnOk result (O.taken out.new ≡ with_more (O.taken out.old) (text.now ++ codes "\n")) }
    ensures err { OnErr result (TakesFront (O.taken out.old) (O.taken out.new) (text.now ++ codes "\n")) }
    ensures count { Counts (O.faults out.old) (O.faults out.new) result }
{
    let mut line = LongLine::new();
    line.push_str(text);
    line.push_str("\n");
    out.write(line.as_str().as_bytes())
}

/// A line for each output.
pub fn write_outputs<O: Sink>(out: &mut O, outputs: &[u64]) -> Result<(), SinkFault>
    ensures ok { OnOk result (O.taken out.new ≡ with_more (O.taken out.old) (in_lines output_line_text outputs.now)) }
    ensures err { OnErr result (TakesFront (O.taken out.old) (O.taken out.new) (in_lines output_line_text outputs.now)) }
    ensures count { Counts (O.faults out.old) (O.faults out.new) result }
{
    for output in outputs {
        write_line(out, output_line(*output).as_str())?;
    }
    Ok(())
}
