// The report of a journal.
ghost use Rattle.std.specs.Prelude.{◌≡◌, length, OnOk, OnErr};
ghost use Rattle.ak_outside.specs.Causes.{Counts};
ghost use Rattle.ak_outside.specs.Taken.{with_more, TakesFront};
ghost use Rattle.ak_script.specs.Text.{in_lines};
ghost use Rattle.ak_report.specs.Report.{answered_moves, event_line as event_line_text, move_line as move_line_text, report};

use crate::line::{answered_line, event_line, stop_line};
use crate::writing::{write_line, write_outputs};
use ak_core::{Answer, Event, Journal, Move};
use ak_outside::{Sink, SinkFault};

/// Writes the report of a journal, each line in one write. It takes no memory.
///
/// The first line names the format, and then come a line for each move with its answer, each output and each event, and one that says
/// why the enclave stopped, if it did. At a fault some front of the report went out.
#[tactic(auto, unfolding(crate::specs::Report::report))]
pub fn write_report<O: Sink>(journal: &Journal, out: &mut O) -> Result<(), SinkFault>
    ensures ok { OnOk result (O.taken out.new ≡ with_more (O.taken out.old) (report journal.now)) }
    ensures err { OnErr result (TakesFront (O.taken out.old) (O.taken out.new) (report journal.now)) }
    ensures count { Counts (O.faults out.old) (O.faults out.new) result }
{
    write_line(out, "autarky 1")?;
    write_moves(out, journal.moves(), journal.answers())?;
    write_outputs(out, journal.outputs())?;
    write_events(out, journal.events())?;
    write_line(out, stop_line(journal.stop()).as_str())?;
    Ok(())
}

// A line for each move with its answer.
fn write_moves<O: Sink>(out: &mut O, moves: &[Move], answers: &[Answer]) -> Result<(), SinkFault>
    requires { length moves.now ≡ length answers.now }
    ensures ok { OnOk result (O.taken out.new ≡ with_more (O.taken out.old) (in_lines move_line_text (answered_moves 1 moves.now answers.now))) }
    ensures err { OnErr result (TakesFront (O.taken out.old) (O.taken out.new) (in_lines move_line_text (answered_moves 1 moves.now answers.now))) }
    ensures count { Counts (O.faults out.old) (O.faults out.new) result }
{
    for (i, m) in moves.iter().enumerate() {
        let number = (i + 1) as u64;
        write_line(out, answered_line(number, *m, answers[i]).as_str())?;
    }
    Ok(())
}

// A line for each event.
fn write_events<O: Sink>(out: &mut O, events: &[Event]) -> Result<(), SinkFault>
    ensures ok { OnOk result (O.taken out.new ≡ with_more (O.taken out.old) (in_lines event_line_text events.now)) }
    ensures err { OnErr result (TakesFront (O.taken out.old) (O.taken out.new) (in_lines event_line_text events.now)) }
    ensures count { Counts (O.faults out.old) (O.faults out.new) result }
{
    for event in events {
        write_line(out, event_line(*event).as_str())?;
    }
    Ok(())
}
