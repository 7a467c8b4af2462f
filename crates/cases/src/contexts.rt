// What moves change in the pages where the processor and the runtime keep contexts: the TCS, the saved-state areas and STATE.
use crate::files::{Documents, held, read_held};
use ak_core::{OutOfMemory, Page};
use ak_image::Image;
use ak_machine::Machine;
use ak_measure::Signers;
use ak_outside::MemFiles;
use ak_run::Run;
use ak_script::{Item, Script};
use anyhow::{Result, bail};
use std::alloc::Global;

/// The frames of the page cache.
const FRAMES: u32 = 16;

/// The processors.
const PROCESSORS: u8 = 2;

/// The most moves of a case.
const MOST_MOVES: usize = 1000;

/// The most bytes of a case's script.
const SCRIPT_LIMIT: usize = 1_000_000;

/// The bytes of a word.
const WORD: usize = 8;

/// A page, by its name, and its bytes after the last move.
#[derive(Drop)]
struct Watched {
    name: &'static str,
    page: Page,
    bytes: Vec<u8>,
}

/// The five pages, which come after those of the program.
fn pages_of(alloc: Global, run: &Run) -> Result<Vec<Watched>> {
    let mut all = Vec::new(alloc);
    let machine = run.machine();
    let mut number = machine.layout().perms().len() as u32;
    for name in ["tcs", "ssa0", "ssa1", "ssa2", "state"] {
        let page = Page(number);
        let Some(bytes) = machine.bytes(page) else {
            bail!("a page is in no frame");
        };
        let bytes = Vec::from_slice(alloc, bytes)?;
        all.push(Watched { name, page, bytes })?;
        number = number.saturating_add(1);
    }
    Ok(all)
}

impl Watched {
    /// Writes each word of eight bytes that is another after the move of this number: the move, the page, the place and the bytes.
    fn write_changes(&mut self, run: &Run, number: usize, text: &mut String) -> Result<()> {
        let Some(now) = run.machine().bytes(self.page) else {
            return Ok(());
        };
        let mut place = 0usize;
        for (before, after) in self.bytes.chunks(WORD).zip(now.chunks(WORD)) {
            if before != after {
                let name = self.name;
                write!(text, "{number} {name} {place} ")?;
                for byte in after {
                    write!(text, "{byte:02x}")?;
                }
                text.push_str("\n")?;
            }
            place = place.saturating_add(WORD);
        }
        self.bytes.clear();
        self.bytes.extend_from_slice(now)?;
        Ok(())
    }
}

/// The enclave of an image of the tables, before any move.
fn run_of(alloc: Global, documents: &Documents, name: &str) -> Result<Run> {
    let mut files = MemFiles::new(alloc);
    documents.put(alloc, &mut files, name)?;
    documents.put(alloc, &mut files, "lab")?;
    let image = read_held(alloc, &mut files, name)?;
    let signers = read_held(alloc, &mut files, "lab")?;
    let (Ok(image), Ok(signers)) = (Image::read(alloc, &image), Signers::read(alloc, &signers))
    else {
        bail!("{name} is refused");
    };
    let Ok(machine) = Machine::build(alloc, &image, &signers, FRAMES, PROCESSORS) else {
        bail!("{name} is not built");
    };
    let Ok(run) = Run::new(alloc, machine) else {
        bail!("out of memory");
    };
    Ok(run)
}

/// The script of this text.
fn script_of(alloc: Global, text: &[u8]) -> Result<Script> {
    if text.len() > SCRIPT_LIMIT {
        bail!("a script is too long");
    }
    match Script::read(alloc, text) {
        Ok(script) => Ok(script),
        Err(_) => bail!("no script"),
    }
}

/// The name of a case's image.
fn image_of<'a>(lines: &'a str) -> Result<&'a str> {
    for line in lines.lines() {
        if let Some(("$", name)) = line.split_once(' ') {
            return Ok(name);
        }
    }
    bail!("a case without an image")
}

/// The moves of a case.
fn moves_of(alloc: Global, lines: &str) -> Result<Script> {
    let mut text = String::new(alloc);
    for line in lines.lines() {
        if let Some(("|", line)) = line.split_once(' ') {
            text.push_str(line)?;
            text.push_str("\n")?;
        }
    }
    script_of(alloc, text.as_bytes())
}

/// Applies a move of a case.
fn make_move(run: &mut Run, item: Item) -> Result<()> {
    let Item::Move(m) = item else {
        bail!("no move");
    };
    if run.journal().moves().len() >= MOST_MOVES {
        bail!("too many moves");
    }
    match run.apply(&m) {
        Ok(_) => Ok(()),
        Err(OutOfMemory) => bail!("out of memory"),
    }
}

/// Writes what the move of this number changes in each page.
fn write_all(pages: &mut Vec<Watched>, run: &Run, number: usize, text: &mut String) -> Result<()> {
    for page in pages.iter_mut() {
        page.write_changes(run, number, text)?;
    }
    Ok(())
}

/// What these moves change.
fn changes_of(alloc: Global, run: &mut Run, script: &Script) -> Result<String> {
    let mut pages = pages_of(alloc, run)?;
    let mut text = String::new(alloc);
    for item in script.items() {
        make_move(run, *item)?;
        let number = run.journal().moves().len();
        write_all(&mut pages, run, number, &mut text)?;
    }
    let lines = String::from_str(alloc, text.trim_end())?;
    Ok(lines)
}

/// What the moves of a case change.
pub fn changes(alloc: Global, documents: &Documents, lines: &str) -> Result<String> {
    let script = moves_of(alloc, lines)?;
    let mut run = run_of(alloc, documents, image_of(lines)?)?;
    changes_of(alloc, &mut run, &script)
}
