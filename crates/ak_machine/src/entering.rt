// Entering, resuming and interrupting a processor.
ghost use Rattle.std.specs.Prelude.{◌≡◌, ◌==◌, ◌&&◌, [], not};
ghost use Rattle.std.specs.List.{list_any};
ghost use Rattle.ak_core.specs.declared.moves.Move.TheVariants.{Eenter, Eresume, Interrupt};
ghost use Rattle.ak_ssa.specs.SavedRegisters.{AreRegs, AreWords};
ghost use Rattle.ak_machine.specs.Machines.{IsSound, parts_of};
ghost use Rattle.ak_machine.specs.Moves.{Moves, plainly};

use ak_core::{Answer, Layout, Lp, Page, Regs, code_page, tcs_page};
use ak_enclu::{Cpu, aex, eenter, eresume};
use ak_memory::Memory;
use ak_ssa::Why;

/// A processor enters, with a value from outside (SDM volume 3D, EENTER).
pub(crate) fn enter(
    layout: &Layout,
    memory: &mut Memory,
    cpus: &mut Vec<Cpu>,
    lp: Lp,
    value: u64,
) -> Answer
    requires sound { IsSound (parts_of layout.now memory.old cpus.old.items) }
    requires idle { memory.old.tlb ≡ [] }
    ensures moves { Moves (parts_of layout.now memory.old cpus.old.items) (Eenter lp value) (plainly result) (parts_of layout.now memory.new cpus.new.items) }
    ensures idle { memory.new.tlb ≡ [] }
{
    if lp.0 >= layout.lps() {
        return Answer::NoLp;
    }
    let pages = layout.perms().len() as u32;
    let busy = is_other_inside(cpus, lp);
    memory.forget();
    eenter(
        &mut cpus[lp.0 as usize],
        value,
        Page(tcs_page(pages)),
        Page(code_page(pages)),
        layout,
        &memory.table,
        &mut memory.encls,
        busy,
    )
}

/// A processor resumes the newest saved context (SDM volume 3D, ERESUME).
pub(crate) fn resume(layout: &Layout, memory: &mut Memory, cpus: &mut Vec<Cpu>, lp: Lp) -> Answer
    requires sound { IsSound (parts_of layout.now memory.old cpus.old.items) }
    requires idle { memory.old.tlb ≡ [] }
    ensures moves { Moves (parts_of layout.now memory.old cpus.old.items) (Eresume lp) (plainly result) (parts_of layout.now memory.new cpus.new.items) }
    ensures idle { memory.new.tlb ≡ [] }
{
    if lp.0 >= layout.lps() {
        return Answer::NoLp;
    }
    let pages = layout.perms().len() as u32;
    let busy = is_other_inside(cpus, lp);
    memory.forget();
    eresume(
        &mut cpus[lp.0 as usize],
        Page(tcs_page(pages)),
        &memory.table,
        &mut memory.encls,
        busy,
    )
}

/// A processor is interrupted (SDM volume 3D, "Asynchronous Enclave Exit").
pub(crate) fn interrupt(layout: &Layout, memory: &mut Memory, cpus: &mut Vec<Cpu>, lp: Lp) -> Answer
    requires sound { IsSound (parts_of layout.now memory.old cpus.old.items) }
    requires idle { memory.old.tlb ≡ [] }
    ensures moves { Moves (parts_of layout.now memory.old cpus.old.items) (Interrupt lp) (plainly result) (parts_of layout.now memory.new cpus.new.items) }
    ensures idle { memory.new.tlb ≡ [] }
{
    if lp.0 >= layout.lps() {
        return Answer::NoLp;
    }
    let place = lp.0 as usize;
    if !cpus[place].inside {
        return Answer::Outside;
    }
    are_registers(&cpus[place].regs);
    memory.forget();
    aex(&mut cpus[place], &mut memory.encls, Why::Interrupt);
    Answer::Ok
}

/// Another processor than this one is inside.
fn is_other_inside(cpus: &[Cpu], lp: Lp) -> bool
    ensures { result ≡ list_any (λ cpu. cpu.inside && not (cpu.lp.0 == lp.0)) cpus.now }
{
    cpus.iter().any(|cpu| cpu.inside && cpu.lp != lp)
}

/// The registers of a processor have 64 bits.
fn are_registers(regs: &Regs)
    ensures { AreRegs regs.now }
{
    let _rip = regs.rip;
    are_words(&regs.gpr);
}

/// So has each of these numbers.
fn are_words(words: &[u64])
    ensures { AreWords words.now }
{}
