// Which accesses the memory grants, and where their pages are.
ghost use Rattle.std.specs.Prelude.{◌≡◌, ◌<◌, true, false, Some, map, length, IfSome, IfNone};
ghost use Rattle.std.specs.Bool.{then_some};
ghost use Rattle.std.specs.List.{list_all};
ghost use Rattle.ak_core.specs.Mem.{Touches, is_touched};
ghost use Rattle.ak_epcm.specs.Entries.{entry_at, has_page, is_of_page, frame_with};
ghost use Rattle.ak_pte.specs.Table.{pte_at};
ghost use Rattle.ak_tlb.specs.Translations.{found, frame_in};
ghost use Rattle.ak_memory.specs.Granting.{is_walked, is_granted, is_seen, in_use, walked_of};
ghost use Rattle.ak_memory.specs.Spots.{accesses_in, is_spot};

use crate::memory::Memory;
use crate::spot::{Spot, spot_of};
use ak_core::{Fault, Frame, Page};
use ak_walk::walk;

impl Memory {
    /// A walk finds the access. It finds none of a page that the page table does not have.
    pub fn is_walked(&self, t: Fault) -> bool
        ensures { result ≡ is_walked self.now.encls.entries self.now.table t }
    {
        self.walked_frame(t).is_some()
    }

    /// Of the accesses of this turn: each that was granted has a cached translation, where accesses use those, or is found by a walk;
    /// those of them that are not cached are found by walks; and of the refused one nothing is cached, and no walk finds it.
    pub fn touches_follow_the_tables(&self)
        ensures granted { list_all (is_granted self.now.encls.entries self.now.table (in_use self.now.uses_cache self.now.tlb)) (accesses_in self.now.touched.items) ≡ true }
        ensures walked { list_all (is_walked self.now.encls.entries self.now.table) (walked_of (in_use self.now.uses_cache self.now.tlb) (accesses_in self.now.touched.items)) ≡ true }
        ensures unwalked { IfSome self.now.denied (λ t. is_walked self.now.encls.entries self.now.table t ≡ false) }
        ensures uncached { IfSome self.now.denied (λ t. frame_in (found (in_use self.now.uses_cache self.now.tlb) t) ≡ None) }
    {}

    /// Grants an access whose translation is cached, where accesses use what is cached, or that a walk finds. It refuses any other.
    pub(crate) fn touch(&mut self, t: Fault) -> Result<(), Fault>
        requires few { length (accesses_in self.old.touched.items) < 4 }
        ensures touch { Touches t result (is_seen self.old.encls.entries self.old.table (in_use self.old.uses_cache self.old.tlb))
            (accesses_in self.old.touched.items) (accesses_in self.new.touched.items) self.old.denied self.new.denied }
        ensures encls { self.new.encls ≡ self.old.encls }
        ensures table { self.new.table ≡ self.old.table }
        ensures tlb { self.new.tlb ≡ self.old.tlb }
        ensures uses_cache { self.new.uses_cache ≡ self.old.uses_cache }
    {
        match self.granted_spot(t) {
            Some(spot) => {
                self.touched.push(spot);
                Ok(())
            }
            None => {
                self.denied = Some(t);
                Err(t)
            }
        }
    }

    /// The frame of a page that was touched.
    pub(crate) fn frame_of(&self, p: Page) -> Frame
        requires touched { is_touched (accesses_in self.now.touched.items) p.0 ≡ true }
        ensures frame { frame_with self.now.encls.entries p.0 ≡ Some result.0 }
        ensures page { is_of_page (entry_at self.now.encls.entries result.0) ≡ true }
        ensures in_range { result.0 < length self.now.encls.entries }
    {
        match spot_of(self.touched.as_slice(), p) {
            Some(spot) => spot.frame,
            None => unreachable!(),
        }
    }

    /// Where an access is granted, if it is.
    fn granted_spot(&self, t: Fault) -> Option<Spot>
        ensures access { IfSome result (λ spot. spot.access ≡ t) }
        ensures spot { IfSome result (λ spot. is_spot self.now.encls.entries self.now.table (in_use self.now.uses_cache self.now.tlb) spot ≡ true) }
        ensures none { IfNone result (is_granted self.now.encls.entries self.now.table (in_use self.now.uses_cache self.now.tlb) t ≡ false) }
    {
        if let Some(frame) = self.cached_frame(t) {
            return Some(Spot {
                access: t,
                frame,
                by_walk: false,
            });
        }
        match self.walked_frame(t) {
            Some(frame) => Some(Spot {
                access: t,
                frame,
                by_walk: true,
            }),
            None => None,
        }
    }

    /// The frame of its cached translation, where accesses use those.
    fn cached_frame(&self, t: Fault) -> Option<Frame>
        ensures { result ≡ frame_in (found (in_use self.now.uses_cache self.now.tlb) t) }
    {
        if self.uses_cache {
            self.tlb.find(t.page, t.kind)
        } else {
            None
        }
    }

    /// The frame in which a walk finds it.
    fn walked_frame(&self, t: Fault) -> Option<Frame>
        ensures { result ≡ then_some (is_walked self.now.encls.entries self.now.table t) (pte_at self.now.table t.page.0).frame }
    {
        let pte = self.table.entry(t.page);
        match walk(pte, self.encls.epcm(), t.page, t.kind) {
            Ok(frame) => Some(frame),
            Err(_) => None,
        }
    }
}
