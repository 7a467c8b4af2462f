// A turn's accesses to the memory.

use crate::frames::{bytes_in, put_byte, put_bytes, put_page};
use crate::memory::Memory;
use ak_core::{Fault, Kind, Mem, Page};

impl Mem for Memory {
    ghost use Rattle.ak_memory.specs.Granting.{is_seen, in_use, bytes_of, whole_page, length-whole_page};
    ghost use Rattle.ak_memory.specs.Spots.{accesses_in};
    ghost use Rattle.ak_memory.specs.Keeping.{KeepsAround, keeps_around-self, keeps_around-on};

    ghost holds = { λ m. is_seen m.encls.entries m.table (in_use m.uses_cache m.tlb) };

    ghost bytes = { λ m p. whole_page (bytes_of m.encls.frames m.encls.entries p) };

    ghost granted = { λ m. accesses_in m.touched.items };

    ghost refused = { λ m. m.denied };

    ghost keeps = { λ a b. KeepsAround a.encls b.encls a.table b.table a.tlb b.tlb a.uses_cache b.uses_cache };

    ghost keeps_self = { λ a. keeps_around-self a.encls a.table a.tlb a.uses_cache };

    ghost keeps_on = { λ a b c first then. keeps_around-on a.encls b.encls c.encls a.table b.table c.table a.tlb b.tlb c.tlb a.uses_cache b.uses_cache c.uses_cache first then };

    ghost whole = { λ m p. length-whole_page (bytes_of m.encls.frames m.encls.entries p) };

    fn begin(&mut self) {
        self.clear();
    }

    fn touch_read(&mut self, p: Page) -> Result<(), Fault> {
        self.touch(Fault {
            page: p,
            kind: Kind::Read,
        })
    }

    fn touch_write(&mut self, p: Page) -> Result<(), Fault> {
        self.touch(Fault {
            page: p,
            kind: Kind::Write,
        })
    }

    fn touch_exec(&mut self, p: Page) -> Result<(), Fault> {
        self.touch(Fault {
            page: p,
            kind: Kind::Exec,
        })
    }

    fn page(&self, p: Page) -> &[u8] {
        let frame = self.frame_of(p);
        bytes_in(&self.encls, frame)
    }

    fn load(&self, p: Page, offset: u16) -> u8 {
        let frame = self.frame_of(p);
        bytes_in(&self.encls, frame)[offset as usize]
    }

    fn store(&mut self, p: Page, offset: u16, value: u8) {
        let frame = self.frame_of(p);
        put_byte(&mut self.encls, frame, offset as usize, value);
    }

    fn store_slice(&mut self, p: Page, offset: u16, from: &[u8]) {
        let frame = self.frame_of(p);
        put_bytes(&mut self.encls, frame, offset as usize, from);
    }

    fn read_page(&self, p: Page, into: &mut [u8]) {
        let frame = self.frame_of(p);
        into.copy_from_slice(bytes_in(&self.encls, frame));
    }

    fn write_page(&mut self, p: Page, from: &[u8]) {
        let frame = self.frame_of(p);
        put_page(&mut self.encls, frame, from);
    }
}
