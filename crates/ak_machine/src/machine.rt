// The machine, and what it lends and tells.
ghost use Rattle.std.specs.Prelude.{◌≡◌, true, ℕ, List, ◌<◌, ◌≤◌, ◌+◌, ◌^◌, Some, OnOk, OnErr, IfSome, IfNone, length, slice_get, max};
ghost use Rattle.ak_core.specs.Mem.{access_to};
ghost use Rattle.ak_epcm.specs.Entries.{HasNoFrame};
ghost use Rattle.ak_model.specs.Control.ControlState.{Control};
ghost use Rattle.ak_model.specs.Paging.Histories.{History};
ghost use Rattle.ak_model.specs.Paging.Pages.{all_pages, tcs_page as the_tcs_page};
ghost use Rattle.ak_model.specs.Paging.Walk.{walkable as is_walkable};
ghost use Rattle.ak_model.specs.Tapes.ProgramTurns.{ProgramTurn};
ghost use Rattle.ak_relation.specs.Relation.Does.{at_moment};
ghost use Rattle.ak_relation.specs.Relation.Stands.{Stands};
ghost use Rattle.ak_relation.specs.State.MachineState.{State};
ghost use Rattle.ak_relation.specs.State.Tables.{TablesStand};
ghost use Rattle.ak_encls.specs.Answering.{is_write_out, IsCounted};
ghost use Rattle.ak_enclu.specs.TcsBytes.{saved_of};
ghost use Rattle.ak_memory.specs.Granting.{is_walked as is_walked_in};
ghost use Rattle.ak_machine.specs.Machines.{HasBytes, IsSound, IsState, with_spare};
ghost use Rattle.ak_machine.specs.Moves.{Moves};

use crate::applied::Applied;
use crate::kernel::make_move;
use ak_core::{Fault, Kind, Layout, Lp, Move, OutOfMemory, Page, tcs_page};
use ak_encls::Encls;
use ak_enclu::{Cpu, saved};
use ak_memory::Memory;
use ak_pte::PageTable;
use std::marker::Model;

/// One enclave on a machine: its frames and what is known of them, the kernel's page table, and the processors.
///
/// Contracts see it as its parts. It stands for some history of the kernel's moves, always.
#[derive(Drop)]
pub struct Machine {
    /// What the kernel may know of the enclave.
    pub(crate) layout: Layout,
    /// The frames, and how a page is found in one of them.
    pub(crate) memory: Memory,
    /// The logical processors, by their numbers.
    pub(crate) cpus: Vec<Cpu>,
}

impl Model for Machine {
    ghost use Rattle.std.specs.Prelude.{◌≡◌, []};
    ghost use Rattle.ak_machine.specs.Machines.{IsSound, Parts, parts_of};

    ghost Value = { Parts };

    ghost view = { λ m. parts_of m.layout m.memory m.cpus.items };

    ghost invariant = { λ m. IsSound (parts_of m.layout m.memory m.cpus.items) × (m.memory.tlb ≡ []) };
}

impl Machine {
    /// Applies a move of the kernel (SDM volume 3D, "SGX Instruction References"). It takes no memory: a write-out needs a spare blank
    /// page (`reserve`). Fewer than 2^63 cycles of ETRACK are told apart.
    pub fn apply(&mut self, m: &Move) -> Applied
        requires spare { is_write_out m.now ≡ true → 0 < self.old.encls.handles.spare }
        requires cycles { IsCounted m.now self.old.encls.track.cycles }
        ensures { Moves self.old m.now result self.new }
    {
        make_move(&self.layout, &mut self.memory, &mut self.cpus, m)
    }

    /// What the kernel may know of the enclave.
    pub fn layout(&self) -> &Layout
        ensures { result.now ≡ self.now.layout }
    {
        &self.layout
    }

    /// The frames, the EPCM, the sealed pages and tracking.
    pub fn leaves(&self) -> &Encls
        ensures { result.now ≡ self.now.encls }
    {
        &self.memory.encls
    }

    /// The kernel's page table.
    pub fn table(&self) -> &PageTable
        ensures { result.now ≡ self.now.table }
    {
        &self.memory.table
    }

    /// A logical processor.
    pub fn cpu(&self, lp: Lp) -> &Cpu
        requires { lp.0 < length self.now.cpus }
        ensures { slice_get self.now.cpus lp.0 ≡ Some result.now }
    {
        &self.cpus[lp.0 as usize]
    }

    /// The machine stands for some history of moves, with as many processors and entries of the page table as its layout says.
    pub fn stands(&self)
        ensures { IsSound self.now }
    {
        let _layout = &self.layout;
    }

    /// The bytes of a page, where a frame holds it.
    pub fn bytes(&self, p: Page) -> Option<&[u8]>
        ensures held { IfSome result (λ bytes. HasBytes self.now.encls p.0 bytes.now) }
        ensures none { IfNone result (HasNoFrame self.now.encls.entries p.0) }
    {
        match self.memory.encls.epcm().frame_of(p) {
            Some(frame) => Some(self.memory.encls.frame(frame).as_slice()),
            None => None,
        }
    }

    /// A walk of this kind finds the page.
    pub fn walkable(&self, p: Page, k: Kind) -> bool
        ensures walked { result ≡ is_walked_in self.now.encls.entries self.now.table (access_to p.0 k) }
        ensures stands { (past : History) (state : State) → IsState self.now state → TablesStand self.now.layout past state → p.0 < all_pages self.now.layout
            → result ≡ is_walkable self.now.layout past p.0 k }
    {
        self.memory.is_walked(Fault { page: p, kind: k })
    }

    /// How many contexts are saved, by the TCS, where a frame holds it: three at most.
    pub fn cssa(&self) -> Option<u8>
        ensures held { IfSome result (λ saved. (bytes : List ℕ) × HasBytes self.now.encls (the_tcs_page self.now.layout) bytes × (saved ≡ saved_of bytes)) }
        ensures none { IfNone result (HasNoFrame self.now.encls.entries (the_tcs_page self.now.layout)) }
        ensures most { IfSome result (λ saved. saved ≤ 3) }
        ensures stands { (image : List ℕ) (past : History) (control : Control) (turns : List ProgramTurn) (state : State) → IsState self.now state
            → Stands self.now.layout image (at_moment past control turns state) → IfSome result (λ saved. saved ≡ length control.stack) }
    {
        let tcs = Page(tcs_page(self.layout.perms().len() as u32));
        match self.memory.encls.epcm().frame_of(tcs) {
            Some(frame) => Some(saved(self.memory.encls.frame(frame)) as u8),
            None => None,
        }
    }

    /// Makes blank pages, so that so many pages can be written out with no more memory. Where memory runs out it may have made some.
    pub fn reserve(&mut self, spare: u32) -> Result<(), OutOfMemory>
        requires { length self.old.encls.handles.sealed_pages + spare < 2 ^ 32 }
        ensures rest { self.new ≡ with_spare self.old self.new.encls.handles.spare }
        ensures ok { OnOk result (self.new.encls.handles.spare ≡ max self.old.encls.handles.spare spare) }
        ensures err { OnErr result (self.old.encls.handles.spare ≤ self.new.encls.handles.spare) }
        ensures most { self.new.encls.handles.spare ≤ max self.old.encls.handles.spare spare }
    {
        self.memory.reserve(spare)
    }
}
