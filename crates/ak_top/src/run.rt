// The report of a run.
ghost use Rattle.std.specs.Prelude.{◌≡◌, ◌≤◌, IfSome};
ghost use Rattle.ak_image.specs.Image.{IsWhole};
ghost use Rattle.ak_report.specs.Report.{report};
ghost use Rattle.ak_top.specs.Ends.{WritesText, Does, Runs};
ghost use Rattle.ak_top.specs.Layouts.{frames_for, layout_for};
ghost use Rattle.ak_top.specs.Seen.{files_at, sink_at};
ghost use Rattle.ak_words.specs.Asked.{Run as RunCommand};
ghost use Rattle.ak_words.specs.Lent.{AreInRanges, run_texts};

use crate::inputs::{Inputs, read_inputs};
use crate::left::Left;
use crate::session::run_script;
use crate::trouble::Trouble;
use ak_core::{Journal, PROGRAM_FRAME};
use ak_image::Image;
use ak_machine::Machine;
use ak_outside::{Files, Sink};
use ak_report::write_report;
use ak_run::Run;
use ak_words::RunAsked;
use std::alloc::Global;

/// Writes the report of a journal, and tells a fault of the sink as a trouble.
fn put_report<O: Sink>(journal: &Journal, out: &mut O) -> Result<(), Trouble>
    ensures { WritesText result (report journal.now) (sink_at O.Sink out.old) (sink_at O.Sink out.new) }
{
    write_report(journal, out)?;
    Ok(())
}

/// How many frames are made: as many as are asked for, or one for each page that may be in, beside the first eight.
fn frames_of(image: &Image, asked: Option<u32>) -> u32
    requires { IfSome asked (λ frames. (9 ≤ frames) × (frames ≤ 8192)) }
    ensures value { result ≡ frames_for image.now asked }
    ensures some { 9 ≤ result }
    ensures few { result ≤ 8192 }
    ensures whole { IsWhole image.now }
{
    // The image is whole: its budget is within its limits.
    let _pages = image.pages();
    match asked {
        Some(frames) => frames,
        None => PROGRAM_FRAME + image.budget(),
    }
}

/// The run of a script: the enclave is built of the image, where its signer allows that, and the script's moves are applied to it.
fn run_inputs(alloc: Global, inputs: &Inputs, asked: RunAsked<'_>) -> Result<Run, Trouble>
    requires { AreInRanges asked }
    ensures { Runs result (layout_for inputs.now.image (run_texts asked.entry)) inputs.now }
{
    let frames = frames_of(&inputs.image, asked.frames);
    let machine = Machine::build(
        alloc,
        &inputs.image,
        &inputs.signers,
        frames,
        asked.processors,
    )?;
    Ok(run_script(alloc, machine, &inputs.script)?)
}

/// Reads a run's files, applies the script's moves to the image's enclave, and writes the report. It leaves the run.
pub fn run_command<F: Files, O: Sink>(
    alloc: Global,
    asked: RunAsked<'_>,
    files: &mut F,
    out: &mut O,
) -> Result<Left, Trouble>
    requires { AreInRanges asked }
    ensures { Does (RunCommand (run_texts asked.entry))
        (files_at F.Files files.old) (files_at F.Files files.new)
        (sink_at O.Sink out.old) (sink_at O.Sink out.new) result }
{
    let inputs = read_inputs(alloc, asked, files)?;
    let run = run_inputs(alloc, &inputs, asked)?;
    put_report(run.journal(), out)?;
    Ok(Left::Run(run))
}
