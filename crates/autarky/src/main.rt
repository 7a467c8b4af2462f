//! The program: it hands the words, the files and the standard streams to the top call, and ends with its status.
#![tactic(auto)]

use ak_outside::{RealFiles, RealSink};
use ak_top::{Left, autarky};
use std::process::ExitCode;
use std::{env, io};

/// The status where the runtime gives no words.
const NO_WORDS: u8 = 9;

/// The words after the program's name.
fn words(rt: &HostRuntime) -> io::Result<Vec<String>> {
    let mut words = Vec::new(rt.alloc());
    for word in env::args(rt)?.skip(1) {
        words.push(word)?;
    }
    Ok(words)
}

fn main(rt: HostRuntime) -> ExitCode {
    let Ok(words) = words(&rt) else {
        return ExitCode::from(NO_WORDS);
    };
    let mut files = RealFiles::new(&rt);
    let mut out = RealSink::new(rt.stdout());
    let mut err = RealSink::new(rt.stderr());
    let mut left = Left::Nothing;
    ExitCode::from(autarky(
        rt.alloc(),
        &words,
        &mut files,
        &mut out,
        &mut err,
        &mut left,
    ))
}
