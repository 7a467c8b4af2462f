// The words of the command line.
ghost use Rattle.std.specs.Prelude.{◌≡◌, IfOk, IfSome, codes, drop, map, string_bytes};
ghost use Rattle.std.specs.Option.{option_and_then, option_map};
ghost use Rattle.clap.specs.Words.{first_of, found_of, rows_of};
ghost use Rattle.ak_words.specs.Asked.{demo_given, demo_of, measure_given, run_given, words_of, Measure, Run};
ghost use Rattle.ak_words.specs.Clap.{found_in};
ghost use Rattle.ak_words.specs.Lent.{asked_of, run_texts, AreInRanges, AskedInRanges};
ghost use Rattle.ak_words.specs.Scan.{given_by};

use crate::asked::{Asked, RunAsked};
use crate::commands::{demo_command, matches_of, measure_command, run_command};
use crate::numbers::{frames_of, number_between, processors_of};
use ak_core::OutOfMemory;
use clap::ArgMatches;
use std::alloc::Global;

/// What the words ask for, the first of which is the command: `run IMAGE SIGNERS SCRIPT [--frames N] [--processors N]`,
/// `measure IMAGE` or `demo NUMBER`; none where they give no command. In `run` each option may stand once, anywhere after
/// the command, and as `--frames=N` too; after the word `--` every word is a value. The error is want of memory.
pub fn read_words<'a>(alloc: Global, words: &'a [String]) -> Result<Option<Asked<'a>>, OutOfMemory>
    ensures asked { IfOk result (λ asked. option_map asked_of asked ≡ words_of (map string_bytes words.entry.now)) }
    ensures ranges { IfOk result (λ asked. IfSome asked AskedInRanges) }
{
    let Some(command) = words.first() else {
        return Ok(None);
    };
    match command.as_str() {
        "run" => read_run(alloc, words),
        "measure" => read_measure(alloc, words),
        "demo" => read_demo(alloc, words),
        _ => Ok(None),
    }
}

/// What the words after `run` ask for.
fn read_run<'a>(alloc: Global, words: &'a [String]) -> Result<Option<Asked<'a>>, OutOfMemory>
    ensures asked { IfOk result (λ asked. option_map asked_of asked
        ≡ option_and_then run_given (given_by (drop 1 (map string_bytes words.entry.now)))) }
    ensures ranges { IfOk result (λ asked. IfSome asked AskedInRanges) }
{
    let Ok(command) = run_command(alloc) else {
        return Err(OutOfMemory);
    };
    let Some(matches) = matches_of(command, words)? else {
        return Ok(None);
    };
    let Some(run) = run_in(&matches) else {
        return Ok(None);
    };
    Ok(Some(Asked::Run(run)))
}

/// The run that clap found.
fn run_in<'a>(matches: &ArgMatches<'a>) -> Option<RunAsked<'a>>
    ensures run { option_map (λ run. Run (run_texts run)) result ≡ run_given (found_in (rows_of (found_of matches.now))) }
    ensures ranges { IfSome result AreInRanges }
{
    let Some(image) = matches.get_str("IMAGE") else {
        return None;
    };
    let Some(signers) = matches.get_str("SIGNERS") else {
        return None;
    };
    let Some(script) = matches.get_str("SCRIPT") else {
        return None;
    };
    let Some(frames) = frames_of(matches.get_str("frames")) else {
        return None;
    };
    let Some(processors) = processors_of(matches.get_str("processors")) else {
        return None;
    };
    Some(RunAsked {
        image,
        signers,
        script,
        frames,
        processors,
    })
}

/// What the words after `measure` ask for.
fn read_measure<'a>(alloc: Global, words: &'a [String]) -> Result<Option<Asked<'a>>, OutOfMemory>
    ensures asked { IfOk result (λ asked. option_map asked_of asked
        ≡ option_and_then measure_given (given_by (drop 1 (map string_bytes words.entry.now)))) }
    ensures ranges { IfOk result (λ asked. IfSome asked AskedInRanges) }
{
    let Ok(command) = measure_command(alloc) else {
        return Err(OutOfMemory);
    };
    let Some(matches) = matches_of(command, words)? else {
        return Ok(None);
    };
    Ok(image_in(&matches))
}

/// The measurement that clap found.
fn image_in<'a>(matches: &ArgMatches<'a>) -> Option<Asked<'a>>
    ensures image { option_map asked_of result ≡ option_map Measure (first_of (codes "IMAGE") (rows_of (found_of matches.now))) }
    ensures ranges { IfSome result AskedInRanges }
{
    let Some(image) = matches.get_str("IMAGE") else {
        return None;
    };
    Some(Asked::Measure(image))
}

/// What the words after `demo` ask for.
fn read_demo<'a>(alloc: Global, words: &'a [String]) -> Result<Option<Asked<'a>>, OutOfMemory>
    ensures asked { IfOk result (λ asked. option_map asked_of asked
        ≡ option_and_then demo_given (given_by (drop 1 (map string_bytes words.entry.now)))) }
    ensures ranges { IfOk result (λ asked. IfSome asked AskedInRanges) }
{
    let Ok(command) = demo_command(alloc) else {
        return Err(OutOfMemory);
    };
    let Some(matches) = matches_of(command, words)? else {
        return Ok(None);
    };
    Ok(number_in(&matches))
}

/// The number that clap found.
fn number_in<'a>(matches: &ArgMatches<'a>) -> Option<Asked<'a>>
    ensures number { option_map asked_of result
        ≡ option_and_then demo_of (first_of (codes "NUMBER") (rows_of (found_of matches.now))) }
    ensures ranges { IfSome result AskedInRanges }
{
    let Some(text) = matches.get_str("NUMBER") else {
        return None;
    };
    let Some(number) = number_between(text, 0, u64::MAX) else {
        return None;
    };
    Some(Asked::Demo(number))
}
