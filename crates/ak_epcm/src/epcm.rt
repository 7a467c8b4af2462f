// The EPCM as a list of entries.
ghost use Rattle.std.specs.Prelude.{◌≡◌, ◌<◌, true, false, IfOk, IfSome, IfNone, length, replicate, slice_set};
ghost use Rattle.std.specs.Bool.{OnTrue};
ghost use Rattle.ak_epcm.specs.Entries.{free_entry, entry_at, is_of_page, has_page, HasNoFrame, HasDistinctPages};

use ak_core::{Entry, Frame, OutOfMemory, Page, PageType};
use std::alloc::Global;
use std::marker::Model;

/// The entry of a frame that is not in use.
const FREE: Entry = Entry {
    valid: false,
    kind: PageType::Secs,
    page: Page(0),
    r: false,
    w: false,
    x: false,
    blocked: false,
};

/// The EPCM, with one entry for each frame.
///
/// Contracts see it as the list of its entries, that of frame 0 first. No two frames hold one page of the enclave.
#[derive(Drop)]
pub struct Epcm {
    entries: Vec<Entry>,
}

impl Model for Epcm {
    ghost use Rattle.std.specs.Prelude.{List};
    ghost use Rattle.ak_core.specs.declared.page.Entry.{Entry};
    ghost use Rattle.ak_epcm.specs.Entries.{IsEpcm};

    ghost Value = { List Entry };

    ghost view = { λ m. m.entries.items };

    ghost invariant = { λ m. IsEpcm m.entries.items };
}

impl Epcm {
    /// The EPCM of so many frames that are not in use.
    pub fn new(alloc: Global, frames: u32) -> Result<Epcm, OutOfMemory>
        ensures { IfOk result (λ m. m ≡ replicate frames free_entry) }
    {
        match vec![in alloc; FREE; frames as usize] {
            Ok(entries) => Ok(Epcm { entries }),
            Err(_) => Err(OutOfMemory),
        }
    }

    /// A frame's entry. A frame that there is not has that of one that is not in use.
    pub fn entry(&self, f: Frame) -> Entry
        ensures entry { result ≡ entry_at self.now f.0 }
        ensures distinct { HasDistinctPages self.now }
    {
        self.entries.get(f.0 as usize).copied().unwrap_or(FREE)
    }

    /// The frame that holds a page of the enclave, a regular one or a TCS, if there is one.
    pub fn frame_of(&self, p: Page) -> Option<Frame>
        ensures some { IfSome result (λ f. has_page (entry_at self.now f.0) p.0 ≡ true) }
        ensures in_range { IfSome result (λ f. f.0 < length self.now) }
        ensures none { IfNone result (HasNoFrame self.now p.0) }
        ensures distinct { HasDistinctPages self.now }
    {
        self.entries
            .iter()
            .position(|e| is_entry_of(e, p))
            .map(|i| Frame(i as u32))
    }

    /// Gives an entry to a frame that is not in use. No frame may hold the page of a regular entry or of a TCS.
    pub fn set(&mut self, f: Frame, e: Entry)
        requires in_range { f.0 < length self.old }
        requires free { (entry_at self.old f.0).valid ≡ false }
        requires fresh { OnTrue (is_of_page e) (HasNoFrame self.old e.page.0) }
        ensures { self.new ≡ slice_set self.old f.0 e }
    {
        self.entries[f.0 as usize] = e;
    }

    /// Marks the entry of a frame that is in use as blocked (SDM volume 3D, EBLOCK).
    pub fn block(&mut self, f: Frame)
        requires { (entry_at self.old f.0).valid ≡ true }
        ensures { self.new ≡ slice_set self.old f.0 (record (entry_at self.old f.0) { blocked = true }) }
    {
        self.entries[f.0 as usize].blocked = true;
    }

    /// Takes a frame out of use: its entry is that of a new EPCM (SDM volume 3D, EREMOVE, EWB).
    pub fn release(&mut self, f: Frame)
        requires { (entry_at self.old f.0).valid ≡ true }
        ensures { self.new ≡ slice_set self.old f.0 free_entry }
    {
        self.entries[f.0 as usize] = FREE;
    }
}

/// A valid entry of a page of the enclave, and of this one.
fn is_entry_of(e: &Entry, p: Page) -> bool
    ensures { result ≡ has_page e.now p.0 }
{
    e.valid && matches!(e.kind, PageType::Reg | PageType::Tcs) && e.page == p
}
