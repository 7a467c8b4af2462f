// What each frame holds, and where each page is.
ghost use Rattle.std.specs.Prelude.{◌≡◌, ◌<◌, ◌≤◌, [], None, Some, IfOk, find, slice_set};
ghost use Rattle.std.specs.List.{range_with_len};
ghost use Rattle.ak_core.specs.Layout.{Layout as Pages};
ghost use Rattle.ak_core.specs.Layout.{IsValid};
ghost use Rattle.ak_model.specs.Paging.Build.{held_at_build};
ghost use Rattle.ak_model.specs.Paging.Frames.{blocks_first};
ghost use Rattle.ak_model.specs.Paging.Holdings.{is_free};
ghost use Rattle.ak_model.specs.Paging.Pages.{flags_for, pages};
ghost use Rattle.ak_driver.specs.NotedTables.{AreFramesAtBuild, ArePagesAtBuild, HasTables, facts_at_build, frame_note, frame_number, frames_after, free_note, holding, is_free_note, noted, page_note, pages_after, removed, written_out};

use crate::changes::Change;
use ak_core::{
    Flags, Frame, Handle, Layout, OutOfMemory, PROGRAM_FRAME, Page, Perm, RUNTIME_FRAME,
};
use std::alloc::Global;

/// What a frame holds.
#[derive(Clone, Copy, Debug)]
pub(crate) enum Held {
    /// Nothing.
    Free,
    /// The SECS.
    Secs,
    /// A VA page.
    Va,
    /// A page of the enclave.
    Page(Page),
}

/// What is known of a frame.
#[derive(Clone, Copy, Debug)]
pub(crate) struct FrameNote {
    /// What it holds.
    pub held: Held,
    /// The place at which it was first blocked since it was last filled or freed.
    pub blocked: Option<u64>,
}

/// A sealed copy of a page: its handle, and where its version is.
#[derive(Clone, Copy, Debug)]
pub(crate) struct SealedCopy {
    /// The handle.
    pub handle: Handle,
    /// The VA frame.
    pub va: Frame,
    /// The slot.
    pub slot: u16,
}

/// What is known of a page of the program.
#[derive(Clone, Copy, Debug)]
pub(crate) struct PageNote {
    /// The frame that its newest copy is in.
    pub frame: Option<Frame>,
    /// The frame of its entry in the page table.
    pub mapped: Frame,
    /// The flags of its entry in the page table.
    pub flags: Flags,
    /// Its newest sealed copy.
    pub copy: SealedCopy,
}

/// The flags of an entry that maps nothing.
pub(crate) const NO_FLAGS: Flags = Flags {
    p: false,
    w: false,
    x: false,
    a: false,
    d: false,
};

/// A free frame.
const FREE: FrameNote = FrameNote {
    held: Held::Free,
    blocked: None,
};

/// What is known of a page that the program does not have.
const NO_PAGE: PageNote = PageNote {
    frame: None,
    mapped: Frame(0),
    flags: NO_FLAGS,
    copy: SealedCopy {
        handle: Handle(0),
        va: Frame(0),
        slot: 0,
    },
};

/// What is known of each frame, and of each page of the program.
#[derive(Drop)]
pub(crate) struct Tables {
    frames: Vec<FrameNote>,
    pages: Vec<PageNote>,
}

impl Tables {
    /// As the build leaves them.
    pub fn new(alloc: Global, layout: &Layout) -> Result<Tables, OutOfMemory>
        ensures tables { IfOk result (λ tables. HasTables tables layout.now []) }
        ensures valid { IsValid layout.now }
    {
        let frames = frames_at_build(alloc, layout)?;
        let pages = pages_at_build(alloc, layout)?;
        Ok(Tables { frames, pages })
    }

    /// What is known of a frame. One that there is not is free.
    pub fn frame(&self, f: Frame) -> FrameNote
        ensures { result ≡ frame_note self.now.frames.items f.0 }
    {
        self.frames.get(f.0 as usize).copied().unwrap_or(FREE)
    }

    /// What is known of a page.
    pub fn page(&self, p: Page) -> PageNote
        ensures { result ≡ page_note self.now.pages.items p.0 }
    {
        self.pages.get(p.0 as usize).copied().unwrap_or(NO_PAGE)
    }

    /// One more change is told, at its place.
    pub fn note(&mut self, change: &Change, place: u64)
        ensures frames { self.new.frames.items ≡ frames_after change.now place self.old.frames.items }
        ensures pages { self.new.pages.items ≡ pages_after change.now self.old.frames.items self.old.pages.items }
    {
        match *change {
            Change::Maps(p, f, flags) => self.map(p, f, flags),
            Change::Blocks(f) => self.block(f, place),
            Change::WritesOut(f, va, slot, handle) => {
                self.write_out(f, SealedCopy { handle, va, slot });
            }
            Change::Loads(f, _, p, _, _, blocked) => self.load(f, p, blocked.then_some(place)),
            Change::Removes(f) => self.remove(f),
            Change::MakesVa(f) => {
                let va = FrameNote {
                    held: Held::Va,
                    blocked: None,
                };
                self.set_frame(f, va);
            }
            _ => {}
        }
    }

    // Sets a frame's note, if there is the frame.
    fn set_frame(&mut self, f: Frame, note: FrameNote)
        ensures frames { self.new.frames.items ≡ slice_set self.old.frames.items f.0 note }
        ensures pages { self.new.pages.items ≡ self.old.pages.items }
    {
        let place = f.0 as usize;
        if place < self.frames.len() {
            self.frames[place] = note;
        }
    }

    // Sets a page's note, if the program has the page.
    fn set_page(&mut self, p: Page, note: PageNote)
        ensures frames { self.new.frames.items ≡ self.old.frames.items }
        ensures pages { self.new.pages.items ≡ slice_set self.old.pages.items p.0 note }
    {
        let place = p.0 as usize;
        if place < self.pages.len() {
            self.pages[place] = note;
        }
    }

    // A page's entry is set.
    fn map(&mut self, p: Page, mapped: Frame, flags: Flags)
        ensures frames { self.new.frames.items ≡ self.old.frames.items }
        ensures pages { self.new.pages.items
            ≡ slice_set self.old.pages.items p.0 (record (page_note self.old.pages.items p.0) { mapped = mapped; flags = flags }) }
    {
        let note = self.page(p);
        self.set_page(
            p,
            PageNote {
                mapped,
                flags,
                ..note
            },
        );
    }

    // A frame is blocked. The first block counts.
    fn block(&mut self, f: Frame, place: u64)
        ensures frames { self.new.frames.items ≡ slice_set self.old.frames.items f.0
            (record { held = (frame_note self.old.frames.items f.0).held; blocked = blocks_first (frame_note self.old.frames.items f.0).blocked place }) }
        ensures pages { self.new.pages.items ≡ self.old.pages.items }
    {
        let note = self.frame(f);
        let blocked = match note.blocked {
            Some(earlier) => Some(earlier),
            None => Some(place),
        };
        self.set_frame(
            f,
            FrameNote {
                held: note.held,
                blocked,
            },
        );
    }

    // A page is loaded into a frame.
    fn load(&mut self, f: Frame, p: Page, blocked: Option<u64>)
        ensures frames { self.new.frames.items ≡ slice_set self.old.frames.items f.0 (record { held = Held.Page p; blocked = blocked }) }
        ensures pages { self.new.pages.items
            ≡ slice_set self.old.pages.items p.0 (record (page_note self.old.pages.items p.0) { frame = Some f }) }
    {
        let note = self.page(p);
        self.set_page(
            p,
            PageNote {
                frame: Some(f),
                ..note
            },
        );
        self.set_frame(
            f,
            FrameNote {
                held: Held::Page(p),
                blocked,
            },
        );
    }

    // A frame's page is written out.
    fn write_out(&mut self, f: Frame, copy: SealedCopy)
        ensures frames { self.new.frames.items ≡ slice_set self.old.frames.items f.0 free_note }
        ensures pages { self.new.pages.items ≡ written_out self.old.pages.items (frame_note self.old.frames.items f.0).held copy }
    {
        if let Held::Page(p) = self.frame(f).held {
            let note = self.page(p);
            self.set_page(
                p,
                PageNote {
                    frame: None,
                    copy,
                    ..note
                },
            );
        }
        self.set_frame(f, FREE);
    }

    // A frame's page is removed.
    fn remove(&mut self, f: Frame)
        ensures frames { self.new.frames.items ≡ slice_set self.old.frames.items f.0 free_note }
        ensures pages { self.new.pages.items ≡ removed self.old.pages.items (frame_note self.old.frames.items f.0).held }
    {
        if let Held::Page(p) = self.frame(f).held {
            let note = self.page(p);
            self.set_page(
                p,
                PageNote {
                    frame: None,
                    ..note
                },
            );
        }
        self.set_frame(f, FREE);
    }

    /// The lowest free frame of the first so many.
    pub fn lowest_free(&self, frames: u32) -> Option<Frame>
        ensures { frame_number result ≡ find (is_free_note self.now.frames.items) (range_with_len 0 frames) }
    {
        for f in 0..frames {
            if is_free(self.frame(Frame(f)).held) {
                return Some(Frame(f));
            }
        }
        None
    }
}

// The frame is free.
fn is_free(held: Held) -> bool
    ensures { result ≡ is_free (holding held) }
{
    matches!(held, Held::Free)
}

// The frames as the build leaves them: each of the layout.
fn frames_at_build(alloc: Global, layout: &Layout) -> Result<Vec<FrameNote>, OutOfMemory>
    ensures frames { IfOk result (λ frames. AreFramesAtBuild frames.items layout.now) }
    ensures valid { IsValid layout.now }
{
    let pages = layout.perms().len() as u32;
    let count = layout.frames();
    let mut frames = Vec::new(alloc);
    for f in 0..count {
        let note = FrameNote {
            held: held_at_build(pages, f),
            blocked: None,
        };
        let Ok(()) = frames.push(note) else {
            return Err(OutOfMemory);
        };
    }
    Ok(frames)
}

// What a frame holds at the build: the SECS, a VA page or a page of the runtime.
fn held_at_build(count: u32, f: u32) -> Held
    requires { count ≤ 512 }
    ensures { (layout : Pages) → count ≡ pages layout → holding result ≡ held_at_build layout f }
{
    match f {
        0 => Held::Secs,
        1 => Held::Va,
        _ if f < PROGRAM_FRAME => Held::Page(Page(count + (f - RUNTIME_FRAME))),
        _ => Held::Free,
    }
}

// The program's pages as the build leaves them.
fn pages_at_build(alloc: Global, layout: &Layout) -> Result<Vec<PageNote>, OutOfMemory>
    ensures { IfOk result (λ notes. ArePagesAtBuild notes.items layout.now) }
{
    let mut notes = Vec::new(alloc);
    for i in 0..layout.perms().len() {
        let Ok(()) = notes.push(page_at_build(i)) else {
            return Err(OutOfMemory);
        };
    }
    Ok(notes)
}

// A page as the build leaves it: not mapped, and sealed under the handle of its own number.
fn page_at_build(p: usize) -> PageNote
    requires { p < 512 }
    ensures { noted result ≡ facts_at_build p }
{
    PageNote {
        frame: None,
        mapped: Frame(0),
        flags: NO_FLAGS,
        copy: SealedCopy {
            handle: Handle(p as u32),
            va: Frame(1),
            slot: p as u16,
        },
    }
}

/// The flags of an entry that maps a page for all that it allows.
pub(crate) fn strong_flags(perm: Perm) -> Flags
    ensures { result ≡ flags_for perm }
{
    Flags {
        p: true,
        w: matches!(perm, Perm::Rw),
        x: matches!(perm, Perm::Rx),
        a: true,
        d: true,
    }
}
