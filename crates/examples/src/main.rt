//! Runs each example through the top call over the files of the system: it prints the words, what the call writes to either
//! sink, and the status.
#![tactic(auto)]

use ak_outside::{RealFiles, RealSink};
use ak_top::{Left, autarky};
use std::io;
use std::process::ExitCode;

/// The words of each call.
const CALLS: [&str; 32] = [
    "run calls.toml signers.toml nothing.script",
    "run calls.toml signers.toml auto.script",
    "run calls.toml signers.toml by_hand.script",
    "run straddling_store.toml signers.toml auto.script",
    "run lookup_3.toml signers.toml auto.script",
    "run lookup_200.toml signers.toml auto.script",
    "run split_3.toml signers.toml auto.script",
    "run split_200.toml signers.toml auto.script",
    "run five_pages.toml signers.toml auto.script",
    "run five_pages.toml signers.toml auto.script --frames 11",
    "run straddling_data.toml signers.toml auto.script",
    "run denied_store.toml signers.toml auto.script",
    "run echo.toml signers.toml input.script",
    "run division.toml signers.toml auto.script",
    "run calls.toml signers.toml unmapped.script",
    "run calls.toml signers.toml accessed.script",
    "run loop.toml signers.toml cached.script",
    "run loop.toml signers.toml tracking.script",
    "run calls.toml signers.toml replay.script",
    "run calls.toml signers.toml lost_slots.script",
    "run two_page_loop.toml signers.toml early_resume.script",
    "run calls.toml signers.toml not_given.script",
    "run calls.toml signers.toml stuck.script",
    "run calls.toml signers.toml not_entered.script",
    "run calls.toml signers.toml two_processors.script --processors=2",
    "run calls.toml signers.toml auto.script --frames 8",
    "run small_budget.toml signers.toml auto.script",
    "run calls.toml nobody.toml nothing.script",
    "run calls.toml zeros.toml nothing.script",
    "run calls.toml nobody.toml bad.script",
    "measure calls.toml",
    "measure lookup_3.toml",
];

/// Runs the program with these words.
fn show(rt: &HostRuntime, line: &str) -> io::Result<()> {
    let mut words = Vec::new(rt.alloc());
    for word in line.split(' ') {
        words.push(String::from_str(rt.alloc(), word)?)?;
    }
    println!(rt; "\n$ autarky {line}")?;
    let mut files = RealFiles::new(rt);
    let mut out = RealSink::new(rt.stdout());
    let mut err = RealSink::new(rt.stdout());
    let mut left = Left::Nothing;
    let status = autarky(
        rt.alloc(),
        &words,
        &mut files,
        &mut out,
        &mut err,
        &mut left,
    );
    println!(rt; "status {status}")
}

fn main(rt: HostRuntime) -> io::Result<()> {
    for line in CALLS {
        show(&rt, line)?;
    }
    Ok(())
}
