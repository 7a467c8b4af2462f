// A memory of four pages.
ghost use Rattle.std.specs.Prelude.{◌≡◌, ◌<◌, ◌≤◌, ◌+◌, true, length};
ghost use Rattle.ak_core.specs.Mem.{Touches, access_to, put_at};
ghost use Rattle.ak_exec_tests.specs.FourPages.{are_inside, are_whole, is_in};

use ak_core::{Fault, Kind, Mem, Page};
use arrayvec::ArrayVec;

/// Four pages, one of which may be out.
#[derive(Drop)]
pub struct FourPages {
    pages: [[u8; 4096]; 4],
    out: Option<u32>,
    granted: ArrayVec<Fault, 4>,
    refused: Option<Fault>,
    ghost count: { length pages ≡ 4 },
    ghost whole: { are_whole pages ≡ true },
    ghost inside: { are_inside granted.items ≡ true },
}

impl FourPages {
    pub fn new(out: Option<u32>) -> Self {
        FourPages {
            pages: [[0; 4096]; 4],
            out,
            granted: ArrayVec::new(),
            refused: None,
        }
    }

    /// Puts bytes into the pages, from a place on.
    pub fn put(&mut self, place: usize, bytes: &[u8]) {
        for (i, byte) in bytes.iter().enumerate() {
            let at = place.wrapping_add(i);
            if at < 16384 {
                self.pages[at / 4096][at % 4096] = *byte;
            }
        }
    }

    /// The eight bytes from a place on, as a number.
    pub fn number(&self, place: usize) -> u64 {
        let mut bytes = [0; 8];
        for (i, byte) in bytes.iter_mut().enumerate() {
            let at = place.wrapping_add(i);
            if at < 16384 {
                *byte = self.pages[at / 4096][at % 4096];
            }
        }
        u64::from_le_bytes(bytes)
    }

    fn touch(&mut self, page: Page, kind: Kind) -> Result<(), Fault>
        requires few { length self.old.granted.items < 4 }
        ensures touch { Touches (access_to page.0 kind) result (is_in self.old.out) self.old.granted.items self.new.granted.items
            self.old.refused self.new.refused }
        ensures pages { self.new.pages ≡ self.old.pages }
        ensures out { self.new.out ≡ self.old.out }
    {
        let access = Fault { page, kind };
        if page.0 >= 4 || self.out == Some(page.0) {
            self.refused = Some(access);
            return Err(access);
        }
        self.granted.push(access);
        Ok(())
    }
}

/// Puts bytes into a page.
fn put_slice(page: &mut [u8; 4096], start: usize, from: &[u8])
    requires { start + length from.now ≤ 4096 }
    ensures { page.new ≡ put_at page.old start from.now }
{
    page[start..start + from.len()].copy_from_slice(from);
}

impl Mem for FourPages {
    ghost use Rattle.ak_exec_tests.specs.FourPages.{KeepsOut, keeps_out-self, keeps_out-on, page_of, length-page_of};

    ghost holds = { λ m p. is_in m.out p };

    ghost bytes = { λ m p. page_of m.pages p };

    ghost granted = { λ m. m.granted.items };

    ghost refused = { λ m. m.refused };

    ghost keeps = { λ a b. KeepsOut a.out b.out };

    ghost keeps_self = { λ a. keeps_out-self a.out };

    ghost keeps_on = { λ a b c first then. keeps_out-on a.out b.out c.out first then };

    ghost whole = { λ m p. length-page_of m.pages p m.whole };

    fn begin(&mut self) {
        self.granted.clear();
        self.refused = None;
    }

    fn touch_read(&mut self, p: Page) -> Result<(), Fault> {
        self.touch(p, Kind::Read)
    }

    fn touch_write(&mut self, p: Page) -> Result<(), Fault> {
        self.touch(p, Kind::Write)
    }

    fn touch_exec(&mut self, p: Page) -> Result<(), Fault> {
        self.touch(p, Kind::Exec)
    }

    fn page(&self, p: Page) -> &[u8] {
        self.pages[p.0 as usize].as_slice()
    }

    fn load(&self, p: Page, offset: u16) -> u8 {
        self.pages[p.0 as usize][offset as usize]
    }

    fn store(&mut self, p: Page, offset: u16, value: u8) {
        self.pages[p.0 as usize][offset as usize] = value;
    }

    fn store_slice(&mut self, p: Page, offset: u16, from: &[u8]) {
        let mut page = self.pages[p.0 as usize];
        put_slice(&mut page, offset as usize, from);
        self.pages[p.0 as usize] = page;
    }

    fn read_page(&self, p: Page, into: &mut [u8]) {
        let page = &self.pages[p.0 as usize];
        into.copy_from_slice(page);
    }

    fn write_page(&mut self, p: Page, from: &[u8]) {
        let page = &mut self.pages[p.0 as usize];
        page.copy_from_slice(from);
    }
}
