// The page table as a list of entries.
ghost use Rattle.std.specs.Prelude.{◌≡◌, ◌<◌, Some, IfOk, length, replicate, slice_get, slice_set};
ghost use Rattle.ak_pte.specs.Table.{pte_at, unmapped};

use ak_core::{Flags, Frame, OutOfMemory, Page};
use std::alloc::Global;
use std::marker::Model;

/// An entry of the page table: the frame that a page is mapped to, and flags.
#[derive(Clone, Copy, PartialEq, Eq, Debug)]
pub struct Pte {
    /// The frame.
    pub frame: Frame,
    /// The flags.
    pub flags: Flags,
}

impl Pte {
    /// The entry of a page that is mapped to nothing: frame 0, without flags.
    const UNMAPPED: Pte = Pte {
        frame: Frame(0),
        flags: Flags {
            p: false,
            w: false,
            x: false,
            a: false,
            d: false,
        },
    };
}

/// The kernel's page table, with one entry for each page.
///
/// Contracts see it as the list of its entries, that of page 0 first.
#[derive(Drop)]
pub struct PageTable {
    entries: Vec<Pte>,
}

impl Model for PageTable {
    ghost use Rattle.std.specs.Prelude.{List};
    ghost use Rattle.ak_pte.specs.declared.table.Pte.{Pte};

    ghost Value = { List Pte };

    ghost view = { λ t. t.entries.items };
}

impl PageTable {
    /// The table of so many pages that are mapped to nothing.
    pub fn new(alloc: Global, pages: u32) -> Result<PageTable, OutOfMemory>
        ensures { IfOk result (λ t. t ≡ replicate pages unmapped) }
    {
        match vec![in alloc; Pte::UNMAPPED; pages as usize] {
            Ok(entries) => Ok(PageTable { entries }),
            Err(_) => Err(OutOfMemory),
        }
    }

    /// Sets a page's entry, and no other.
    pub fn set(&mut self, p: Page, e: Pte)
        requires { p.0 < length self.old }
        ensures { self.new ≡ slice_set self.old p.0 e }
    {
        self.entries[p.0 as usize] = e;
    }

    /// A page's entry, as last set.
    pub fn get(&self, p: Page) -> Pte
        requires { p.0 < length self.now }
        ensures { slice_get self.now p.0 ≡ Some result }
    {
        self.entries[p.0 as usize]
    }

    /// A page's entry. A page that the table does not have is mapped to nothing.
    pub fn entry(&self, p: Page) -> Pte
        ensures { result ≡ pte_at self.now p.0 }
    {
        self.entries
            .get(p.0 as usize)
            .copied()
            .unwrap_or(Pte::UNMAPPED)
    }
}
