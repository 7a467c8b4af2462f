// The summary of a run that was asked for by a number.
ghost use Rattle.std.specs.Prelude.{◌≡◌, ◌≤◌, OnOk, OnErr};
ghost use Rattle.std.specs.List.{find};
ghost use Rattle.arrayvec.specs.ArrayString.{array_string_len};
ghost use Rattle.ak_outside.specs.Causes.{Counts};
ghost use Rattle.ak_outside.specs.Taken.{with_more, TakesFront};
ghost use Rattle.ak_report.specs.Summary.{end_line as end_line_text, first_lines, is_end as tells_end, is_miss as tells_miss, layout_line as layout_line_text, misses_line as misses_line_text, moves_line as moves_line_text, number_line as number_line_text, summary};

use crate::line::answer_line;
use crate::writing::{write_line, write_outputs};
use ak_core::{Answer, Event, Exit, Journal, Layout};
use ak_outside::{Sink, SinkFault};
use ak_script::{LineText, words_line};

/// Writes the summary of a journal, each line in one write: the number that the run was asked for by, the size of the layout, how many
/// moves and misses there were, the outputs, and how it ended. It takes no memory. At a fault some front of the summary went out.
#[tactic(auto, unfolding(crate::specs::Summary::summary))]
pub fn write_summary<O: Sink>(
    number: u64,
    layout: &Layout,
    journal: &Journal,
    out: &mut O,
) -> Result<(), SinkFault>
    ensures ok { OnOk result (O.taken out.new ≡ with_more (O.taken out.old) (summary number layout.now journal.now)) }
    ensures err { OnErr result (TakesFront (O.taken out.old) (O.taken out.new) (summary number layout.now journal.now)) }
    ensures count { Counts (O.faults out.old) (O.faults out.new) result }
{
    write_first_lines(out, number, layout, journal)?;
    write_outputs(out, journal.outputs())?;
    write_line(out, end_line(journal).as_str())?;
    Ok(())
}

// The lines before the outputs.
fn write_first_lines<O: Sink>(
    out: &mut O,
    number: u64,
    layout: &Layout,
    journal: &Journal,
) -> Result<(), SinkFault>
    ensures ok { OnOk result (O.taken out.new ≡ with_more (O.taken out.old) (first_lines number layout.now journal.now)) }
    ensures err { OnErr result (TakesFront (O.taken out.old) (O.taken out.new) (first_lines number layout.now journal.now)) }
    ensures count { Counts (O.faults out.old) (O.faults out.new) result }
{
    write_line(out, number_line(number).as_str())?;
    write_line(out, layout_line(layout).as_str())?;
    write_line(out, moves_line(journal).as_str())?;
    write_line(out, misses_line(journal).as_str())?;
    Ok(())
}

// The number that the run was asked for by.
fn number_line(number: u64) -> LineText
    ensures text { result.bytes ≡ number_line_text number }
    ensures short { array_string_len result ≤ 120 }
{
    words_line("demo", &[number])
}

// The number of pages, clusters, and pages that may be in at once.
fn layout_line(layout: &Layout) -> LineText
    ensures text { result.bytes ≡ layout_line_text layout.now }
    ensures short { array_string_len result ≤ 120 }
{
    let mut line = words_line("pages", &[layout.perms().len() as u64]);
    line.push_str(words_line(" clusters", &[u64::from(layout.clusters())]).as_str());
    line.push_str(words_line(" budget", &[u64::from(layout.budget())]).as_str());
    line
}

// The number of moves.
fn moves_line(journal: &Journal) -> LineText
    ensures text { result.bytes ≡ moves_line_text journal.now }
    ensures short { array_string_len result ≤ 120 }
{
    words_line("moves", &[journal.moves().len() as u64])
}

// The number of misses.
fn misses_line(journal: &Journal) -> LineText
    ensures text { result.bytes ≡ misses_line_text journal.now }
    ensures short { array_string_len result ≤ 120 }
{
    let misses = journal
        .events()
        .iter()
        .filter(|event| is_miss(**event))
        .count();
    words_line("misses", &[misses as u64])
}

// How the run ended.
fn end_line(journal: &Journal) -> LineText
    ensures text { result.bytes ≡ end_line_text journal.now }
    ensures short { array_string_len result ≤ 120 }
{
    match (journal.stop(), first_end(journal.answers())) {
        (Some(_), _) => words_line("end stopped", &[]),
        (None, Some(answer)) => {
            let mut line = words_line("end ", &[]);
            line.push_str(answer_line(answer).as_str());
            line
        }
        (None, None) => words_line("end unfinished", &[]),
    }
}

// The first answer that tells the program's end.
fn first_end(answers: &[Answer]) -> Option<Answer>
    ensures { result ≡ find tells_end answers.now }
{
    for answer in answers {
        if is_end(*answer) {
            return Some(*answer);
        }
    }
    None
}

fn is_miss(event: Event) -> bool
    ensures { result ≡ tells_miss event }
{
    match event {
        Event::Miss(_, _) => true,
        Event::Call(_, _, _) | Event::Trap(_, _) | Event::Break(_) => false,
    }
}

// Whether an answer tells the program's end.
fn is_end(answer: Answer) -> bool
    ensures { result ≡ tells_end answer }
{
    matches!(answer, Answer::Exit(Exit::Ended(_) | Exit::Trapped(_)))
}
