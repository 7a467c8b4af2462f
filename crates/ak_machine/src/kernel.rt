// The kernel's moves.
ghost use Rattle.std.specs.Prelude.{◌≡◌, ◌+◌, ◌<◌, ◌≤◌, ◌^◌, [], List, true, false, length, nat_lt};
ghost use Rattle.ak_core.specs.declared.moves.Answer.TheVariants.{NoLp, Outside};
ghost use Rattle.ak_core.specs.declared.moves.Move.TheVariants.{SetPte, ReadPte, Run};
ghost use Rattle.ak_enclu.specs.declared.cpu.Cpu.{Cpu as TheCpu};
ghost use Rattle.ak_encls.specs.Answering.{is_write_out, IsCounted};
ghost use Rattle.ak_model.specs.Control.LeafRows.{is_leaf};
ghost use Rattle.ak_model.specs.Paging.Pages.{all_pages as count_pages};
ghost use Rattle.ak_machine.specs.Machines.{IsSound, parts_of};
ghost use Rattle.ak_machine.specs.Moves.{Moves, plainly};

use crate::applied::Applied;
use crate::entering::{enter, interrupt, resume};
use ak_core::{Answer, Layout, Lp, Move, Page, all_pages};
use ak_enclu::Cpu;
use ak_memory::Memory;
use ak_pte::Pte;
use ak_turns::run;

/// Makes a move of the kernel on the machine of these parts.
pub(crate) fn make_move(
    layout: &Layout,
    memory: &mut Memory,
    cpus: &mut Vec<Cpu>,
    m: &Move,
) -> Applied
    requires sound { IsSound (parts_of layout.now memory.old cpus.old.items) }
    requires idle { memory.old.tlb ≡ [] }
    requires spare { is_write_out m.now ≡ true → 0 < memory.old.encls.handles.spare }
    requires cycles { IsCounted m.now memory.old.encls.track.cycles }
    ensures moves { Moves (parts_of layout.now memory.old cpus.old.items) m.now result (parts_of layout.now memory.new cpus.new.items) }
    ensures idle { memory.new.tlb ≡ [] }
{
    match *m {
        Move::SetPte(p, frame, flags) => {
            Applied::plainly(set_entry(layout, memory, p, Pte { frame, flags }))
        }
        Move::ReadPte(p) => Applied::plainly(read_entry(layout, memory, p)),
        Move::Eenter(lp, value) => Applied::plainly(enter(layout, memory, cpus, lp, value)),
        Move::Eresume(lp) => Applied::plainly(resume(layout, memory, cpus, lp)),
        Move::Run(lp, turns) => run_processor(layout, memory, cpus, lp, turns),
        Move::Interrupt(lp) => Applied::plainly(interrupt(layout, memory, cpus, lp)),
        _ => Applied::plainly(do_leaf(memory, m)),
    }
}

/// Sets a page's entry of the page table.
fn set_entry(layout: &Layout, memory: &mut Memory, p: Page, e: Pte) -> Answer
    requires sized { length memory.old.table ≡ count_pages layout.now }
    ensures moves { (cpus : List TheCpu) → IsSound (parts_of layout.now memory.old cpus)
        → Moves (parts_of layout.now memory.old cpus) (SetPte p e.frame e.flags) (plainly result) (parts_of layout.now memory.new cpus) }
    ensures idle { memory.new.tlb ≡ memory.old.tlb }
{
    if !has_page(layout, p) {
        return Answer::NoPage;
    }
    memory.set_entry(p, e);
    Answer::Ok
}

/// Reads a page's entry of the page table.
fn read_entry(layout: &Layout, memory: &Memory, p: Page) -> Answer
    ensures moves { (cpus : List TheCpu) → IsSound (parts_of layout.now memory.now cpus)
        → Moves (parts_of layout.now memory.now cpus) (ReadPte p) (plainly result) (parts_of layout.now memory.now cpus) }
{
    if !has_page(layout, p) {
        return Answer::NoPage;
    }
    let e = memory.table.entry(p);
    Answer::Pte(e.frame, e.flags)
}

/// The enclave has this page.
fn has_page(layout: &Layout, p: Page) -> bool
    ensures { result ≡ nat_lt p.0 (count_pages layout.now) }
{
    p.0 < all_pages(layout.perms().len() as u32)
}

/// Does a leaf instruction of the kernel.
fn do_leaf(memory: &mut Memory, m: &Move) -> Answer
    requires leaf { is_leaf m.now ≡ true }
    requires idle { memory.old.tlb ≡ [] }
    requires spare { is_write_out m.now ≡ true → 0 < memory.old.encls.handles.spare }
    requires cycles { IsCounted m.now memory.old.encls.track.cycles }
    ensures moves { (layout : Layout) (cpus : List TheCpu) → IsSound (parts_of layout memory.old cpus)
        → Moves (parts_of layout memory.old cpus) m.now (plainly result) (parts_of layout memory.new cpus) }
    ensures idle { memory.new.tlb ≡ [] }
{
    memory.leaf(m)
}

/// Runs a processor for up to so many turns.
fn run_processor(
    layout: &Layout,
    memory: &mut Memory,
    cpus: &mut Vec<Cpu>,
    lp: Lp,
    turns: u32,
) -> Applied
    requires sound { IsSound (parts_of layout.now memory.old cpus.old.items) }
    requires idle { memory.old.tlb ≡ [] }
    ensures moves { Moves (parts_of layout.now memory.old cpus.old.items) (Run lp turns) result (parts_of layout.now memory.new cpus.new.items) }
    ensures idle { memory.new.tlb ≡ [] }
{
    if lp.0 >= layout.lps() {
        return Applied::plainly(Answer::NoLp);
    }
    let place = lp.0 as usize;
    if !cpus[place].inside {
        return Applied::plainly(Answer::Outside);
    }
    Applied::of_run(run(layout, &mut cpus[place], memory, turns))
}
