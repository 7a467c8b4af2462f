// The summary of the run of a number's image.
ghost use Rattle.std.specs.Prelude.{◌≡◌};
ghost use Rattle.ak_report.specs.Summary.{summary};
ghost use Rattle.ak_top.specs.Ends.{WritesText, Does, RunsDemo};
ghost use Rattle.ak_top.specs.Seen.{FilesState, sink_at};
ghost use Rattle.ak_words.specs.Asked.{Demo};

use crate::left::Left;
use crate::session::run_honest;
use crate::trouble::Trouble;
use ak_gen::{generate, own_signers};
use ak_machine::Machine;
use ak_outside::Sink;
use ak_report::write_summary;
use ak_run::Run;
use std::alloc::Global;

/// How many frames there are: the first eight, and one for each page that may be in.
const FRAMES: u32 = 136;

/// How many processors there are.
const PROCESSORS: u8 = 1;

/// The most moves that are made.
const MOST: u32 = 20_000;

/// Writes the summary of a run, and tells a fault of the sink as a trouble.
fn put_summary<O: Sink>(number: u64, run: &Run, out: &mut O) -> Result<(), Trouble>
    ensures { WritesText result (summary number run.now.machine.layout run.now.journal)
        (sink_at O.Sink out.old) (sink_at O.Sink out.new) }
{
    write_summary(number, run.machine().layout(), run.journal(), out)?;
    Ok(())
}

/// The run of a number: the enclave is built of its image, and the honest kernel's moves are applied to it.
fn run_demo(alloc: Global, number: u64) -> Result<Run, Trouble>
    ensures { RunsDemo result number }
{
    let image = generate(alloc, number)?;
    let signers = own_signers(alloc, &image)?;
    let machine = Machine::build(alloc, &image, &signers, FRAMES, PROCESSORS)?;
    Ok(run_honest(alloc, machine, MOST)?)
}

/// Applies the honest kernel's moves to the enclave of a number's image, and writes the summary of that. It reads no file, and
/// leaves the run.
pub fn demo_command<O: Sink>(alloc: Global, number: u64, out: &mut O) -> Result<Left, Trouble>
    ensures { (files : FilesState) → Does (Demo number) files files (sink_at O.Sink out.old) (sink_at O.Sink out.new) result }
{
    let run = run_demo(alloc, number)?;
    put_summary(number, &run, out)?;
    Ok(Left::Run(run))
}
