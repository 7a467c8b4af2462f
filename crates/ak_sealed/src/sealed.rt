// Sealed pages: the n-th that was put has handle n.
ghost use Rattle.std.specs.Prelude.{◌≡◌, ℕ, ◌+◌, ◌^◌, ◌<◌, ◌≤◌, ◌==◌, if◌then◌else◌, false, max, IsSome, None, Some, [], OnOk, OnErr, is_some, length};
ghost use Rattle.std.specs.Option.{option_map};
ghost use Rattle.ak_sealed.specs.SealedPages.{sealed_page_of, sealed_page_at, entry_of};

use ak_core::{Entry, Handle, OutOfMemory, PAGE_SIZE, Page, PageType};
use std::alloc::Global;
use std::marker::Model;

/// A page that was sealed: what the EPCM said of its frame, and its bytes.
#[derive(Drop)]
struct KeptPage {
    kind: PageType,
    page: Page,
    r: bool,
    w: bool,
    x: bool,
    bytes: Box<[u8; PAGE_SIZE]>,
}

/// The sealed pages, and blank ones for those that may still come.
///
/// Contracts see the sealed page of each handle that was given, or None where it was discarded, that of handle 0 first; and how
/// many more may be put. No number is given twice.
#[derive(Drop)]
pub struct Sealed {
    pages: Vec<Option<KeptPage>>,
    blanks: Vec<Box<[u8; PAGE_SIZE]>>,
    alloc: Global,
}

impl Model for Sealed {
    ghost use Rattle.std.specs.Prelude.{map, vec_len, vec_capacity, ◌+◌, ◌-◌, ◌≤◌, ◌<◌, ◌^◌};
    ghost use Rattle.ak_sealed.specs.SealedPages.{Handles};
    ghost use Rattle.ak_sealed.specs.Shown.{shown};

    ghost Value = { Handles };

    ghost view = { λ s. record { sealed_pages = shown s.pages.items; spare = vec_len s.blanks } };

    ghost invariant = { λ s. (vec_len s.pages + vec_len s.blanks ≤ vec_capacity s.pages) × (vec_len s.pages + vec_len s.blanks < 2 ^ 32) };
}

impl Sealed {
    /// No sealed page, and no spare. It takes no memory.
    pub fn new(alloc: Global) -> Sealed
        ensures sealed_pages { result.sealed_pages ≡ [] }
        ensures spare { result.spare ≡ 0 }
    {
        Sealed {
            pages: Vec::new(alloc),
            blanks: Vec::new(alloc),
            alloc,
        }
    }

    /// Makes blank pages, so that so many can be put with no more memory. Where memory runs out it may have made some.
    pub fn reserve(&mut self, spare: u32) -> Result<(), OutOfMemory>
        requires { length self.old.sealed_pages + spare < 2 ^ 32 }
        ensures sealed_pages { self.new.sealed_pages ≡ self.old.sealed_pages }
        ensures ok { OnOk result (self.new.spare ≡ max self.old.spare spare) }
        ensures err { OnErr result (self.old.spare ≤ self.new.spare) }
        ensures most { self.new.spare ≤ max self.old.spare spare }
    {
        while self.blanks.len() < spare as usize {
            self.reserve_one()?;
        }
        Ok(())
    }

    /// Seals a frame's page, by its entry and its bytes, and gives it the next handle. It takes no memory.
    pub fn put(&mut self, entry: Entry, bytes: &[u8; PAGE_SIZE]) -> Handle
        requires { 0 < self.old.spare }
        ensures handle { result.0 ≡ length self.old.sealed_pages }
        ensures sealed_page { (k : ℕ) → sealed_page_at self.new k
            ≡ (if k == length self.old.sealed_pages then Some (sealed_page_of entry bytes.now) else sealed_page_at self.old k) }
        ensures next { length self.new.sealed_pages ≡ length self.old.sealed_pages + 1 }
        ensures spare { self.new.spare + 1 ≡ self.old.spare }
    {
        let Some(mut page) = self.blanks.pop() else {
            unreachable!();
        };
        *page = *bytes;
        let handle = Handle(self.pages.len() as u32);
        self.pages.push_reserved(Some(KeptPage {
            kind: entry.kind,
            page: entry.page,
            r: entry.r,
            w: entry.w,
            x: entry.x,
            bytes: page,
        }));
        handle
    }

    /// The entry that a frame has once a sealed page is loaded, not blocked. None exactly where the handle was not given, or its page
    /// was discarded.
    pub fn find(&self, h: Handle) -> Option<Entry>
        ensures { result ≡ option_map (λ sealed_page. entry_of sealed_page false) (sealed_page_at self.now h.0) }
    {
        match self.pages.get(h.0 as usize) {
            Some(Some(sealed)) => Some(Entry {
                valid: true,
                kind: sealed.kind,
                page: sealed.page,
                r: sealed.r,
                w: sealed.w,
                x: sealed.x,
                blocked: false,
            }),
            _ => None,
        }
    }

    /// Copies out the bytes of a sealed page, which stays.
    pub fn copy_out(&self, h: Handle, into: &mut [u8; PAGE_SIZE])
        requires { IsSome (sealed_page_at self.now h.0) }
        ensures { Some into.new ≡ option_map (λ sealed_page. sealed_page.bytes) (sealed_page_at self.now h.0) }
    {
        match &self.pages[h.0 as usize] {
            Some(sealed) => *into = *sealed.bytes,
            None => unreachable!(),
        }
    }

    /// Drops a sealed page for ever. False exactly where the handle was not given, or its page was discarded before; then nothing
    /// changes.
    pub fn discard(&mut self, h: Handle) -> bool
        ensures live { result ≡ is_some (sealed_page_at self.old h.0) }
        ensures sealed_page { (k : ℕ) → sealed_page_at self.new k ≡ (if k == h.0 then None else sealed_page_at self.old k) }
        ensures next { length self.new.sealed_pages ≡ length self.old.sealed_pages }
        ensures spare { self.new.spare ≡ self.old.spare }
    {
        match self.pages.get(h.0 as usize) {
            Some(Some(_)) => {
                self.pages[h.0 as usize] = None;
                true
            }
            _ => false,
        }
    }

    // Makes one blank page, and room for it as a sealed one.
    fn reserve_one(&mut self) -> Result<(), OutOfMemory>
        requires { length self.old.sealed_pages + self.old.spare + 1 < 2 ^ 32 }
        ensures sealed_pages { self.new.sealed_pages ≡ self.old.sealed_pages }
        ensures ok { OnOk result (self.new.spare ≡ self.old.spare + 1) }
        ensures err { OnErr result (self.new.spare ≡ self.old.spare) }
    {
        let Ok(()) = self.pages.reserve(self.blanks.len() + 1) else {
            return Err(OutOfMemory);
        };
        let Ok(()) = self.blanks.reserve(1) else {
            return Err(OutOfMemory);
        };
        let Ok(blank) = Box::new(self.alloc, [0; PAGE_SIZE]) else {
            return Err(OutOfMemory);
        };
        self.blanks.push_reserved(blank);
        Ok(())
    }
}
