// A memory of pages.
ghost use Rattle.std.specs.Prelude.{◌≡◌, ◌<◌, ◌≤◌, ◌+◌, true, length, IfSome};
ghost use Rattle.ak_core.specs.Mem.{Touches, access_to, put_at};
ghost use Rattle.ak_pager_tests.specs.TestPages.{IsWhole, are_inside, is_held};

use ak_core::{Fault, Kind, Mem, PAGE_SIZE, Page};
use arrayvec::ArrayVec;
use std::alloc::Global;
use std::test::Fail;

/// Pages, and the number of the touch that is refused in a turn.
#[derive(Drop)]
pub struct Pages {
    pages: Vec<[u8; PAGE_SIZE]>,
    refuses: usize,
    granted: ArrayVec<Fault, 4>,
    refused: Option<Fault>,
    ghost whole: { IsWhole pages.items },
    ghost inside: { are_inside (length pages.items) granted.items ≡ true },
}

impl Pages {
    ghost use Rattle.ak_pager_tests.specs.TestPages.{page_of};

    /// So many pages of zeros.
    pub fn new(alloc: Global, count: usize) -> Result<Self, Fail> {
        let mut pages = Vec::new(alloc);
        for _page in 0..count {
            pages.push([0; PAGE_SIZE])?;
        }
        Ok(Pages {
            pages,
            refuses: 4,
            granted: ArrayVec::new(),
            refused: None,
        })
    }

    /// Refuses the touch of this number from now on.
    pub fn refuse(&mut self, number: usize) {
        self.refuses = number;
    }

    /// Puts bytes in place of those of a page.
    pub fn put(&mut self, page: usize, bytes: &[u8; PAGE_SIZE]) {
        if page < self.pages.len() {
            self.pages[page] = *bytes;
        }
    }

    /// The pages.
    pub fn pages(&self) -> &[[u8; PAGE_SIZE]] {
        self.pages.as_slice()
    }

    /// The bytes of a page that is held.
    pub fn bytes_of(&self, page: u32) -> Option<&[u8]>
        ensures bytes { IfSome result (λ bytes. bytes.now ≡ page_of self.now.pages.items page) }
        ensures whole { IfSome result (λ bytes. length bytes.now ≡ PAGE_SIZE) }
    {
        if page as usize >= self.pages.len() {
            return None;
        }
        Some(self.pages[page as usize].as_slice())
    }

    /// What was touched in this turn.
    pub fn granted(&self) -> &[Fault] {
        self.granted.as_slice()
    }

    fn touch(&mut self, page: Page, kind: Kind) -> Result<(), Fault>
        requires few { length self.old.granted.items < 4 }
        ensures touch { Touches (access_to page.0 kind) result (is_held (length self.old.pages.items)) self.old.granted.items
            self.new.granted.items self.old.refused self.new.refused }
        ensures pages { self.new.pages ≡ self.old.pages }
        ensures refuses { self.new.refuses ≡ self.old.refuses }
    {
        let access = Fault { page, kind };
        if page.0 as usize >= self.pages.len() || self.granted.len() == self.refuses {
            self.refused = Some(access);
            return Err(access);
        }
        self.granted.push(access);
        Ok(())
    }
}

/// Puts bytes into a page.
fn put_slice(page: &mut [u8; PAGE_SIZE], start: usize, from: &[u8])
    requires { start + length from.now ≤ PAGE_SIZE }
    ensures { page.new ≡ put_at page.old start from.now }
{
    page[start..start + from.len()].copy_from_slice(from);
}

impl Mem for Pages {
    ghost use Rattle.ak_pager_tests.specs.TestPages.{KeepsRefusing, keeps_refusing-self, keeps_refusing-on, page_of, is_held};

    ghost holds = { λ m p. is_held (length m.pages.items) p };

    ghost bytes = { λ m p. page_of m.pages.items p };

    ghost granted = { λ m. m.granted.items };

    ghost refused = { λ m. m.refused };

    ghost keeps = { λ a b. KeepsRefusing a.refuses b.refuses };

    ghost keeps_self = { λ a. keeps_refusing-self a.refuses };

    ghost keeps_on = { λ a b c first then. keeps_refusing-on a.refuses b.refuses c.refuses first then };

    ghost whole = { λ m p. m.whole p };

    fn begin(&mut self) {
        self.granted.clear();
        self.refused = None;
    }

    fn touch_read(&mut self, p: Page) -> Result<(), Fault> {
        self.touch(p, Kind::Read)
    }

    fn touch_write(&mut self, p: Page) -> Result<(), Fault> {
        self.touch(p, Kind::Write)
    }

    fn touch_exec(&mut self, p: Page) -> Result<(), Fault> {
        self.touch(p, Kind::Exec)
    }

    fn page(&self, p: Page) -> &[u8] {
        self.pages[p.0 as usize].as_slice()
    }

    fn load(&self, p: Page, offset: u16) -> u8 {
        self.pages[p.0 as usize][offset as usize]
    }

    fn store(&mut self, p: Page, offset: u16, value: u8) {
        let mut page = self.pages[p.0 as usize];
        page[offset as usize] = value;
        self.pages[p.0 as usize] = page;
    }

    fn store_slice(&mut self, p: Page, offset: u16, from: &[u8]) {
        let mut page = self.pages[p.0 as usize];
        put_slice(&mut page, offset as usize, from);
        self.pages[p.0 as usize] = page;
    }

    fn read_page(&self, p: Page, into: &mut [u8]) {
        into.copy_from_slice(&self.pages[p.0 as usize]);
    }

    fn write_page(&mut self, p: Page, from: &[u8]) {
        let mut page = [0; PAGE_SIZE];
        page.copy_from_slice(from);
        self.pages[p.0 as usize] = page;
    }
}
