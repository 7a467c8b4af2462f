// Scripts in their canonical form.
ghost use Rattle.std.specs.Prelude.{◌≡◌, ◌≤◌, ◌++◌, codes, OnOk, OnErr};
ghost use Rattle.arrayvec.specs.ArrayString.{array_string_len};
ghost use Rattle.ak_outside.specs.Causes.{Counts};
ghost use Rattle.ak_outside.specs.Taken.{with_more, TakesFront};
ghost use Rattle.ak_script.specs.Text.{in_lines, input_text, item_text, printed};

use crate::items::Item;
use crate::script::Script;
use crate::text::{LineText, input_line, item_line};
use ak_outside::{Sink, SinkFault};

impl Script {
    /// Writes the canonical text of the script, each line in one write: the inputs, then the items. It takes no memory.
    #[tactic(auto, unfolding(crate::specs::Text::printed))]
    pub fn print<O: Sink>(&self, out: &mut O) -> Result<(), SinkFault>
        ensures ok { OnOk result (O.taken out.new ≡ with_more (O.taken out.old) (printed self.now)) }
        ensures err { OnErr result (TakesFront (O.taken out.old) (O.taken out.new) (printed self.now)) }
        ensures count { Counts (O.faults out.old) (O.faults out.new) result }
    {
        if let Err(fault) = print_inputs(out, self.inputs()) {
            return Err(fault);
        }
        if let Err(fault) = print_items(out, self.items()) {
            return Err(fault);
        }
        Ok(())
    }
}

// A line for each input.
fn print_inputs<O: Sink>(out: &mut O, inputs: &[u64]) -> Result<(), SinkFault>
    ensures ok { OnOk result (O.taken out.new ≡ with_more (O.taken out.old) (in_lines input_text inputs.now)) }
    ensures err { OnErr result (TakesFront (O.taken out.old) (O.taken out.new) (in_lines input_text inputs.now)) }
    ensures count { Counts (O.faults out.old) (O.faults out.new) result }
{
    for input in inputs {
        if let Err(fault) = print_line(out, input_line(*input)) {
            return Err(fault);
        }
    }
    Ok(())
}

// A line for each item.
fn print_items<O: Sink>(out: &mut O, items: &[Item]) -> Result<(), SinkFault>
    ensures ok { OnOk result (O.taken out.new ≡ with_more (O.taken out.old) (in_lines item_text items.now)) }
    ensures err { OnErr result (TakesFront (O.taken out.old) (O.taken out.new) (in_lines item_text items.now)) }
    ensures count { Counts (O.faults out.old) (O.faults out.new) result }
{
    for item in items {
        if let Err(fault) = print_line(out, item_line(*item)) {
            return Err(fault);
        }
    }
    Ok(())
}

// A line, with its newline.
fn print_line<O: Sink>(out: &mut O, mut line: LineText) -> Result<(), SinkFault>
    requires room { array_string_len line ≤ 120 }
    ensures ok { OnOk result (O.taken out.new ≡ with_more (O.taken out.old) (line.bytes ++ codes "\n")) }
    ensures err { OnErr result (TakesFront (O.taken out.old) (O.taken out.new) (line.bytes ++ codes "\n")) }
    ensures count { Counts (O.faults out.old) (O.faults out.new) result }
{
    line.push_str("\n");
    match out.write(line.as_str().as_bytes()) {
        Ok(()) => Ok(()),
        Err(fault) => Err(fault),
    }
}
