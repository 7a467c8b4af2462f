// An enclave on which lines of a script are played, each with what comes of it:
//
//     build 3 11 2                a new enclave: pages of the program, frames, processors
//     eblock 8 -> ok              a leaf, spelled as in scripts, and its answer as reports tell it
//     enter 0                     processor 0 enters; so `leave 0`
//     frame 8 -> reg 0 rx         what the EPCM says of a frame; `blocked` stands at the end where it is
//     bytes 8 -> 1                the byte that fills the frame, or `mixed`
ghost use Rattle.std.specs.Prelude.{◌≡◌, ◌+◌, ◌<◌, ◌≤◌, true, length, IfSome};
ghost use Rattle.ak_model.specs.Control.LeafRows.{is_leaf};

use crate::building::{Image, build};
use ak_core::{Answer, Entry, Frame, Handle, Lp, Move, Page, PageType};
use ak_encls::Encls;
use std::alloc::Global;
use std::process::Abort;
use std::test::Fail;

/// An enclave, and how many leaves may still be done on it.
#[derive(Drop)]
pub struct Stage {
    encls: Encls,
    leaves_left: u32,
    ghost few: { length encls.handles.sealed_pages + leaves_left ≤ 1000 },
}

/// The leaf of a name and its operands.
fn leaf_of(name: &str, operands: &[u32]) -> Option<Move>
    ensures { IfSome result (λ m. is_leaf m ≡ true) }
{
    match (name, operands) {
        ("eblock", [f]) => Some(Move::Eblock(Frame(*f))),
        ("etrack", []) => Some(Move::Etrack),
        ("ewb", [f, va, slot]) => Some(Move::Ewb(Frame(*f), Frame(*va), slot_of(*slot)?)),
        ("eldu", [f, h, p, va, slot]) => Some(Move::Eldu(
            Frame(*f),
            Handle(*h),
            Page(*p),
            Frame(*va),
            slot_of(*slot)?,
        )),
        ("eldb", [f, h, p, va, slot]) => Some(Move::Eldb(
            Frame(*f),
            Handle(*h),
            Page(*p),
            Frame(*va),
            slot_of(*slot)?,
        )),
        ("eremove", [f]) => Some(Move::Eremove(Frame(*f))),
        ("epa", [f]) => Some(Move::Epa(Frame(*f))),
        ("drop", [h]) => Some(Move::Discard(Handle(*h))),
        _ => None,
    }
}

/// A slot, also one that no VA page has.
fn slot_of(number: u32) -> Option<u16> {
    u16::try_from(number).ok()
}

/// A processor.
fn lp_of(number: u32) -> Result<Lp, Fail> {
    Ok(Lp(u8::try_from(number)?))
}

/// The numbers of the words after the first.
fn operands_of(alloc: Global, words: &str) -> Result<Vec<u32>, Fail> {
    let mut operands = Vec::new(alloc);
    for word in words.split_whitespace() {
        operands.push(word.parse::<u32>()?)?;
    }
    Ok(operands)
}

/// An answer, as reports tell it.
fn answer_text(alloc: Global, answer: Answer) -> Result<String, Fail> {
    if let Answer::OkHandle(handle) = answer {
        return Ok(format!(in alloc; "handle {}", handle.0)?);
    }
    let mut text = format!(in alloc; "{answer:?}")?;
    text.make_ascii_lowercase();
    Ok(text)
}

/// What the EPCM says of a frame.
fn entry_text(alloc: Global, entry: Entry) -> Result<String, Fail> {
    if !entry.valid {
        return Ok(String::from_str(alloc, "free")?);
    }
    let page = entry.page.0;
    let mut text = match entry.kind {
        PageType::Secs => String::from_str(alloc, "secs")?,
        PageType::Va => String::from_str(alloc, "va")?,
        PageType::Tcs => format!(in alloc; "tcs {page}")?,
        PageType::Reg => format!(in alloc; "reg {page} ")?,
    };
    for (is_set, word) in [
        (entry.r, "r"),
        (entry.w, "w"),
        (entry.x, "x"),
        (entry.blocked, " blocked"),
    ] {
        if is_set {
            text.push_str(word)?;
        }
    }
    Ok(text)
}

impl Stage {
    /// A new enclave.
    fn new(alloc: Global, pages: u32, frames: u32, lps: u32) -> Result<Stage, Fail> {
        Ok(Stage {
            encls: build(alloc, Image::Numbered, pages, frames, u8::try_from(lps)?)?,
            leaves_left: 900,
        })
    }

    /// Does a leaf, with a spare for it.
    fn leaf(&mut self, m: &Move) -> Result<Answer, Fail>
        requires { is_leaf m.now ≡ true }
    {
        let Some(left) = self.leaves_left.checked_sub(1) else {
            return Err(Fail::new("too many leaves"));
        };
        self.leaves_left = left;
        self.encls.reserve(1)?;
        Ok(self.encls.leaf(m))
    }

    /// The byte that fills a frame in use.
    #[tactic(auto, using(ak_encls::proofs::SlotChanges::valid_within))]
    fn byte_in(&self, f: Frame) -> Option<u8> {
        if !self.encls.epcm().entry(f).valid {
            return None;
        }
        let bytes = self.encls.frame(f);
        let first = bytes[0];
        bytes.iter().all(|byte| *byte == first).then_some(first)
    }

    /// What comes of a line.
    fn play(&mut self, alloc: Global, line: &str) -> Result<String, Fail> {
        let (name, operands) = line.split_once(' ').unwrap_or((line, ""));
        let operands = operands_of(alloc, operands)?;
        match (name, operands.as_slice()) {
            ("enter", [lp]) => self.encls.entered(lp_of(*lp)?),
            ("leave", [lp]) => self.encls.left(lp_of(*lp)?),
            ("frame", [f]) => return entry_text(alloc, self.encls.epcm().entry(Frame(*f))),
            ("bytes", [f]) => {
                return match self.byte_in(Frame(*f)) {
                    Some(byte) => Ok(format!(in alloc; "{byte}")?),
                    None => Ok(String::from_str(alloc, "mixed")?),
                };
            }
            (name, operands) => {
                let Some(leaf) = leaf_of(name, operands) else {
                    return Err(Fail::new("no such line"));
                };
                return answer_text(alloc, self.leaf(&leaf)?);
            }
        }
        Ok(String::new(alloc))
    }
}

/// Plays a script. The line of each case is told with its title, a line that begins with `#`.
pub fn play_all(rt: &impl Abort, alloc: Global, script: &str) -> Result<(), Fail> {
    let mut stage = Stage::new(alloc, 1, 9, 1)?;
    let mut title = "";
    for line in script.lines() {
        let (what, wanted) = line.split_once(" -> ").unwrap_or((line, ""));
        match what.split_once(' ') {
            Some(("#", words)) => title = words,
            Some(("build", numbers)) => stage = new_stage(alloc, numbers)?,
            _ => {
                let text = stage.play(alloc, what)?;
                assert_eq!(rt; text.as_str(), wanted, "{title}: {what}");
            }
        }
    }
    Ok(())
}

/// A new enclave, by the numbers of its line.
fn new_stage(alloc: Global, numbers: &str) -> Result<Stage, Fail> {
    let operands = operands_of(alloc, numbers)?;
    let [pages, frames, lps] = operands.as_slice() else {
        return Err(Fail::new("a build has three numbers"));
    };
    Stage::new(alloc, *pages, *frames, *lps)
}
