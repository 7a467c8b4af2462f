// The memory of the machine that pages itself.
ghost use Rattle.std.specs.Prelude.{◌≡◌, ◌<◌, ◌≤◌, ◌+◌, ◌^◌, ◌++◌, true, false, None, [], List, length, map, max, slice_set, OnOk, OnErr};
ghost use Rattle.std.specs.List.{list_all};
ghost use Rattle.std.specs.Option.{ForSome};
ghost use Rattle.ak_core.specs.Layout.{Layout};
ghost use Rattle.ak_epcm.specs.Entries.{HasDistinctPages};
ghost use Rattle.ak_model.specs.Control.LeafRows.{is_leaf, leaf_row};
ghost use Rattle.ak_model.specs.Kernels.Repeats.{is_done};
ghost use Rattle.ak_relation.specs.State.MachineState.{State};
ghost use Rattle.ak_relation.specs.State.MachineView.{view_in};
ghost use Rattle.ak_tlb.specs.Fills.{Fill, HoldsFills};
ghost use Rattle.ak_encls.specs.Answering.{is_write_out, IsCounted, KeepsRest};
ghost use Rattle.ak_encls.specs.Paging.{IsPaging, LeadsTo};
ghost use Rattle.ak_memory.specs.Granting.{NamesPages, is_granted, in_use, walked_of, fill_by};
ghost use Rattle.ak_memory.specs.Spots.{accesses_in, is_spot};

use crate::caching::fill_walked;
use crate::spot::Spot;
use ak_core::{Answer, Fault, Frame, Move, OutOfMemory, Page};
use ak_encls::Encls;
use ak_pte::{PageTable, Pte};
use ak_tlb::Tlb;
use arrayvec::ArrayVec;
use std::mem;

/// The frames of the page cache with what is known of them, the page table, and what is cached by the processor whose turns these are.
///
/// What it holds stays the same during a turn: what the walks of a turn found is cached at its end.
#[derive(Drop)]
pub struct Memory {
    /// The frames, and what is known of each.
    pub encls: Encls,
    /// The kernel's page table.
    pub table: PageTable,
    /// The translations that are cached by the processor whose turns these are. Between moves nothing is.
    pub tlb: Tlb,
    /// Whether an access is granted by its cached translation: one of the program may be, and a step of the runtime always walks.
    pub uses_cache: bool,
    /// The accesses that were granted since the turn began.
    pub(crate) touched: ArrayVec<Spot, 4>,
    /// The touch that was refused since the turn began.
    pub(crate) denied: Option<Fault>,
    pub ghost distinct: { HasDistinctPages encls.entries },
    pub ghost named: { NamesPages encls.entries tlb },
    pub ghost spots: { list_all (is_spot encls.entries table (in_use uses_cache tlb)) touched.items ≡ true },
    pub ghost lost: { ForSome denied (λ t. is_granted encls.entries table (in_use uses_cache tlb) t ≡ false) },
}

impl Memory {
    /// The memory of these frames, found by this page table. Nothing is cached, and no access would use it.
    pub fn new(encls: Encls, table: PageTable) -> Memory
        ensures encls { result.encls ≡ encls }
        ensures table { result.table ≡ table }
        ensures tlb { result.tlb ≡ [] }
        ensures uses_cache { result.uses_cache ≡ false }
        ensures touched { result.touched.items ≡ [] }
        ensures denied { result.denied ≡ None }
    {
        // No two frames of an EPCM hold one page.
        let _secs = encls.epcm().entry(Frame(0));
        Memory {
            encls,
            table,
            tlb: Tlb::new(),
            uses_cache: false,
            touched: ArrayVec::new(),
            denied: None,
        }
    }

    /// Says whether accesses use what is cached. No page is touched then.
    pub fn with_cache(&mut self, uses: bool)
        ensures encls { self.new.encls ≡ self.old.encls }
        ensures table { self.new.table ≡ self.old.table }
        ensures tlb { self.new.tlb ≡ self.old.tlb }
        ensures uses_cache { self.new.uses_cache ≡ uses }
        ensures touched { self.new.touched.items ≡ [] }
        ensures denied { self.new.denied ≡ None }
    {
        self.clear();
        self.uses_cache = uses;
    }

    /// Exchanges what is cached for the translations of a processor, each of which names a frame that holds its page. No page is
    /// touched then.
    pub fn swap_cache(&mut self, tlb: &mut Tlb)
        requires { NamesPages self.old.encls.entries tlb.old }
        ensures encls { self.new.encls ≡ self.old.encls }
        ensures table { self.new.table ≡ self.old.table }
        ensures tlb { self.new.tlb ≡ tlb.old }
        ensures given { tlb.new ≡ self.old.tlb }
        ensures uses_cache { self.new.uses_cache ≡ self.old.uses_cache }
        ensures touched { self.new.touched.items ≡ [] }
        ensures denied { self.new.denied ≡ None }
    {
        self.clear();
        mem::swap(&mut self.tlb, tlb);
    }

    /// Caches what the walks of this turn found, in the order in which the accesses were granted. No page is touched then.
    pub fn cache_walked(&mut self)
        ensures encls { self.new.encls ≡ self.old.encls }
        ensures table { self.new.table ≡ self.old.table }
        ensures tlb { (fills : List Fill) → HoldsFills self.old.tlb fills → HoldsFills self.new.tlb
            (map (fill_by self.old.table) (walked_of (in_use self.old.uses_cache self.old.tlb) (accesses_in self.old.touched.items)) ++ fills) }
        ensures uses_cache { self.new.uses_cache ≡ self.old.uses_cache }
        ensures touched { self.new.touched.items ≡ [] }
        ensures denied { self.new.denied ≡ None }
    {
        fill_walked(&mut self.tlb, self.touched.as_slice());
        self.touched.clear();
        self.denied = None;
    }

    /// Forgets what is cached. No page is touched then.
    pub fn forget(&mut self)
        ensures encls { self.new.encls ≡ self.old.encls }
        ensures table { self.new.table ≡ self.old.table }
        ensures tlb { self.new.tlb ≡ [] }
        ensures uses_cache { self.new.uses_cache ≡ self.old.uses_cache }
        ensures touched { self.new.touched.items ≡ [] }
        ensures denied { self.new.denied ≡ None }
    {
        self.clear();
        self.tlb.flush();
    }

    /// Sets a page's entry of the page table. No page is touched then.
    pub fn set_entry(&mut self, p: Page, e: Pte)
        requires { p.0 < length self.old.table }
        ensures encls { self.new.encls ≡ self.old.encls }
        ensures table { self.new.table ≡ slice_set self.old.table p.0 e }
        ensures tlb { self.new.tlb ≡ self.old.tlb }
        ensures uses_cache { self.new.uses_cache ≡ self.old.uses_cache }
        ensures touched { self.new.touched.items ≡ [] }
        ensures denied { self.new.denied ≡ None }
    {
        self.clear();
        self.table.set(p, e);
    }

    /// Does a leaf instruction of the kernel while nothing is cached, or refuses it and changes nothing (as `Encls::leaf`). No page is
    /// touched then.
    pub fn leaf(&mut self, m: &Move) -> Answer
        requires leaf { is_leaf m.now ≡ true }
        requires spare { is_write_out m.now ≡ true → 0 < self.old.encls.handles.spare }
        requires uncached { self.old.tlb ≡ [] }
        ensures row { (layout : Layout) (state : State) → IsPaging layout self.old.encls state → result ≡ leaf_row (view_in layout state) m.now }
        ensures refused { is_done result ≡ false → self.new.encls ≡ self.old.encls }
        ensures done { is_done result ≡ true → (layout : Layout) (state : State) → IsPaging layout self.old.encls state
            → IsCounted m.now self.old.encls.track.cycles → LeadsTo layout state m.now self.new.encls }
        ensures rest { KeepsRest self.old.encls self.new.encls result }
        ensures table { self.new.table ≡ self.old.table }
        ensures tlb { self.new.tlb ≡ [] }
        ensures uses_cache { self.new.uses_cache ≡ self.old.uses_cache }
        ensures touched { self.new.touched.items ≡ [] }
        ensures denied { self.new.denied ≡ None }
    {
        self.clear();
        do_leaf(&mut self.encls, m)
    }

    /// Makes blank pages, so that so many pages can be written out with no more memory (as `Encls::reserve`). Where memory runs out it
    /// may have made some. No page is touched then.
    pub fn reserve(&mut self, spare: u32) -> Result<(), OutOfMemory>
        requires { length self.old.encls.handles.sealed_pages + spare < 2 ^ 32 }
        ensures rest { self.new.encls ≡ record self.old.encls { handles = record self.old.encls.handles { spare = self.new.encls.handles.spare } } }
        ensures ok { OnOk result (self.new.encls.handles.spare ≡ max self.old.encls.handles.spare spare) }
        ensures err { OnErr result (self.old.encls.handles.spare ≤ self.new.encls.handles.spare) }
        ensures most { self.new.encls.handles.spare ≤ max self.old.encls.handles.spare spare }
        ensures table { self.new.table ≡ self.old.table }
        ensures tlb { self.new.tlb ≡ self.old.tlb }
        ensures uses_cache { self.new.uses_cache ≡ self.old.uses_cache }
        ensures touched { self.new.touched.items ≡ [] }
        ensures denied { self.new.denied ≡ None }
    {
        self.clear();
        self.encls.reserve(spare)
    }

    /// No page is touched.
    pub(crate) fn clear(&mut self)
        ensures encls { self.new.encls ≡ self.old.encls }
        ensures table { self.new.table ≡ self.old.table }
        ensures tlb { self.new.tlb ≡ self.old.tlb }
        ensures uses_cache { self.new.uses_cache ≡ self.old.uses_cache }
        ensures touched { self.new.touched.items ≡ [] }
        ensures denied { self.new.denied ≡ None }
    {
        self.touched.clear();
        self.denied = None;
    }
}

/// Does a leaf, after which no two frames hold one page.
fn do_leaf(encls: &mut Encls, m: &Move) -> Answer
    requires leaf { is_leaf m.now ≡ true }
    requires spare { is_write_out m.now ≡ true → 0 < encls.old.handles.spare }
    ensures row { (layout : Layout) (state : State) → IsPaging layout encls.old state → result ≡ leaf_row (view_in layout state) m.now }
    ensures refused { is_done result ≡ false → encls.new ≡ encls.old }
    ensures done { is_done result ≡ true → (layout : Layout) (state : State) → IsPaging layout encls.old state → IsCounted m.now encls.old.track.cycles
        → LeadsTo layout state m.now encls.new }
    ensures rest { KeepsRest encls.old encls.new result }
    ensures distinct { HasDistinctPages encls.new.entries }
{
    let answer = encls.leaf(m);
    // No two frames of an EPCM hold one page.
    let _secs = encls.epcm().entry(Frame(0));
    answer
}
