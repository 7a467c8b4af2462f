//! Plays each case of the tables in `data/` through the top call, over files and sinks in memory, and prints how many of each table
//! come out as they must; of any other it prints what came of it. The cases of `contexts.txt` are an image and moves, and then what
//! each move changes in the TCS, the saved-state areas and STATE. Those of `left.txt` are calls, each after an earlier one that left a run,
//! and what they leave: nothing, or the run that was reported, with the bytes of the pages that are asked for.
//!
//! A table begins with a remark and an empty line. An empty line stands between its cases. A case is what is given, and then what comes
//! of it:
//!
//! ```text
//! # Words                a remark
//! $ run A lab s          the words
//! | eenter 0 0           a line of the script `s`; `| ..` stands for the moves of the report that is wanted
//! read 2                 the second read fails; so `write 2` of `out`, and `tell 2` of `err`
//! long s                 the file `s` has one byte too many; `longest s`: it has as many as it may
//! times 20 etrack        a line of the script, so many times
//! > autarky 1            what `out` took, up to the mark of the next line
//! ! write failed         what `err` took, up to that of the next
//! = 6                    the status
//! ```
#![tactic(auto)]

mod contexts;
mod files;
mod given;
mod left;

use crate::contexts::changes;
use crate::files::{Documents, read_text};
use crate::given::Given;
use crate::left::leavings;
use ak_outside::RealFiles;
use anyhow::{Result, bail};
use std::alloc::Global;

/// The tables.
const TABLES: [&str; 16] = [
    "words.txt",
    "script_lines.txt",
    "writes.txt",
    "programs.txt",
    "misses.txt",
    "entries.txt",
    "resumes.txt",
    "handles.txt",
    "runtime_pages.txt",
    "asked_pages.txt",
    "stops.txt",
    "blame.txt",
    "honest.txt",
    "demo.txt",
    CONTEXTS,
    LEFT,
];

/// The table of what moves change.
const CONTEXTS: &str = "contexts.txt";

/// The table of what calls leave.
const LEFT: &str = "left.txt";

/// What comes of a case of this table.
fn outcome(
    alloc: Global,
    documents: &Documents,
    table: &str,
    lines: &str,
    wanted: &str,
) -> Result<String> {
    match table {
        CONTEXTS => changes(alloc, documents, lines),
        LEFT => leavings(alloc, documents, lines),
        _ => Given::new(alloc, documents, lines, wanted)?.play(alloc),
    }
}

/// Plays the cases of a table.
fn play(rt: &HostRuntime, documents: &Documents, name: &str) -> Result<()> {
    let table = read_text(rt, name)?;
    let (mut right, mut count) = (0u64, 0u64);
    for case in table.trim_end().split("\n\n").skip(1) {
        let Some((lines, wanted)) = case.split_once("\n> ") else {
            bail!("{name}: a case without an outcome");
        };
        let text = outcome(rt.alloc(), documents, name, lines, wanted)?;
        if text.as_str() == wanted {
            right = right.saturating_add(1);
        } else {
            println!(rt; "{name}:\n{lines}\n> {text}")?;
        }
        count = count.saturating_add(1);
    }
    println!(rt; "{name}: {right} of {count} cases")?;
    Ok(())
}

fn main(rt: HostRuntime) -> Result<()> {
    let documents = Documents::read(&rt)?;
    for name in TABLES {
        play(&rt, &documents, name)?;
    }
    Ok(())
}
