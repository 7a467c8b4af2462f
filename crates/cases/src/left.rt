// What a call leaves: the run that it reported, with its machine.
use crate::files::{Documents, held};
use crate::given::Given;
use ak_core::{Frame, Page};
use ak_outside::MemSink;
use ak_report::write_report;
use ak_run::Run;
use ak_top::Left;
use anyhow::{Result, bail};
use std::alloc::Global;

/// The most bytes of a report.
const ROOM: usize = 1_000_000;

/// The bytes of a word.
const WORD: usize = 8;

/// A call before that of a case.
const EARLIER: &str = "$ run A lab s\n| eenter 0 0";

/// What the earlier call leaves: its run.
fn earlier(alloc: Global, documents: &Documents) -> Result<Left> {
    let mut left = Left::Nothing;
    let _ = Given::new(alloc, documents, EARLIER, "")?.call(alloc, &mut left);
    match left {
        Left::Nothing => bail!("no run is left"),
        Left::Run(run) => Ok(Left::Run(run)),
    }
}

/// Whether this is the report of a run.
fn is_reported(alloc: Global, run: &Run, report: &[u8]) -> Result<bool> {
    let mut sink = MemSink::new(alloc);
    held(sink.room(ROOM))?;
    if write_report(run.journal(), &mut sink).is_err() {
        bail!("a report is too long");
    }
    Ok(sink.taken() == report)
}

/// Tells the frame that holds a page, and each word of eight bytes of it that is not zero, after its place.
fn write_page(run: &Run, number: u32, text: &mut String) -> Result<()> {
    let machine = run.machine();
    let page = Page(number);
    let Some(Frame(frame)) = machine.leaves().epcm().frame_of(page) else {
        writeln!(text, "page {number} in no frame")?;
        return Ok(());
    };
    let Some(bytes) = machine.bytes(page) else {
        bail!("no bytes");
    };
    writeln!(text, "page {number} in frame {frame}")?;
    let mut place = 0usize;
    for word in bytes.chunks(WORD) {
        if word.iter().any(|byte| *byte != 0) {
            write!(text, "{place} ")?;
            for byte in word {
                write!(text, "{byte:02x}")?;
            }
            text.push_str("\n")?;
        }
        place = place.saturating_add(WORD);
    }
    Ok(())
}

/// Tells a run that is left: whether it is the one that was reported, how many contexts are saved, and the pages that are asked for.
fn write_run(
    alloc: Global,
    run: &Run,
    report: &[u8],
    pages: &[u32],
    text: &mut String,
) -> Result<()> {
    if !is_reported(alloc, run, report)? {
        bail!("another run is left");
    }
    match run.machine().cssa() {
        Some(saved) => writeln!(text, "the run, {saved} saved")?,
        None => writeln!(text, "the run, its TCS in no frame")?,
    }
    for page in pages {
        write_page(run, *page, text)?;
    }
    Ok(())
}

/// The lines of a call, and the pages that are asked for.
fn asked(alloc: Global, lines: &str) -> Result<(String, Vec<u32>)> {
    let mut call = String::new(alloc);
    let mut pages = Vec::new(alloc);
    for line in lines.lines() {
        match line.split_once(' ') {
            Some(("page", number)) => pages.push(number.parse::<u32>()?)?,
            _ => {
                call.push_str(line)?;
                call.push_str("\n")?;
            }
        }
    }
    Ok((call, pages))
}

/// Tells what is left, and the status.
fn told(alloc: Global, left: &Left, report: &[u8], pages: &[u32], status: u8) -> Result<String> {
    let mut text = String::new(alloc);
    match left {
        Left::Nothing => text.push_str("nothing\n")?,
        Left::Run(run) => write_run(alloc, run, report, pages, &mut text)?,
    }
    write!(text, "= {status}")?;
    Ok(text)
}

/// What the call of a case leaves, after an earlier call that left a run.
pub fn leavings(alloc: Global, documents: &Documents, lines: &str) -> Result<String> {
    let (call, pages) = asked(alloc, lines)?;
    let mut given = Given::new(alloc, documents, &call, "")?;
    let mut left = earlier(alloc, documents)?;
    let status = given.call(alloc, &mut left);
    told(alloc, &left, given.taken(), &pages, status)
}
