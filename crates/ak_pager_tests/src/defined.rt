// Whether a step of the runtime is defined for registers and a memory: the table has a row for it.
ghost use Rattle.std.specs.Prelude.{◌≡◌, ℕ, ◌<◌, ◌≤◌, List, true, length, IfSome};
ghost use Rattle.ak_core.specs.Layout.{size_of};
ghost use Rattle.ak_model.specs.Control.ControlState.{Phase as ThePhase, is_asked};
ghost use Rattle.ak_model.specs.Control.RuntimeTurn.{asked_pages};
ghost use Rattle.ak_model.specs.Flat.Instructions.{reg_of, rax, rcx, rdi};
ghost use Rattle.ak_model.specs.Laws.StepRows.{guards, opens};
ghost use Rattle.ak_model.specs.Paging.Pages.{pages_of, ssa_page};
ghost use Rattle.ak_pager.specs.Contexts.{SameButRip, entry_regs};
ghost use Rattle.ak_pager.specs.Effects.{SomeStep};
ghost use Rattle.ak_pager.specs.StepsTo.{IsAskedFor, memory_of};
ghost use Rattle.ak_pager_tests.specs.DefinedSteps.{HasSavedContext, HaveSavedContexts, SaysState, phase_of, program_at};
ghost use Rattle.ak_pager_tests.specs.TestPages.{is_held, page_of};

use crate::Phase;
use crate::fields::{has, phase_in, queue_in};
use crate::memory::Pages;
use crate::saved::{has_saved_context, is_at, keeps_frame, step_address};
use ak_core::{Layout, Mode, PAGE_SIZE, Regs};
use ak_pager::{RtTurn, runtime_turn};

/// What STATE says, if it says a phase and a queue that goes with it; the program is at these registers.
fn state_in(layout: &Layout, program: &Regs, state: &[u8]) -> Option<Phase>
    requires { length state.now ≡ PAGE_SIZE }
    ensures { IfSome result (λ phase. SaysState layout.now (phase_of phase) program.now state.now) }
{
    let phase = phase_in(state)?;
    let queue = queue_in(layout, state)?;
    if !keeps_frame(layout, program, phase, state)
        || !is_asked_for(layout, queue.as_slice(), phase)
    {
        return None;
    }
    Some(phase)
}

/// A cluster that is asked for is one of the layout's, and out.
fn is_asked_for(layout: &Layout, queue: &[u64], phase: Phase) -> bool
    ensures { result ≡ true → IsAskedFor layout.now queue.now (phase_of phase) }
{
    match phase {
        Phase::Asked(c) => c < u64::from(layout.clusters()) && !has(queue, c),
        _ => true,
    }
}

/// The page has a saved context.
fn has_one(layout: &Layout, program: &Regs, mem: &Pages, area: u32, is_oldest: bool) -> bool
    requires { area < 3 }
    ensures { (phase : ThePhase) (queue : List ℕ) → result ≡ true →
        HasSavedContext layout.now phase queue (program_at program.now) is_oldest (page_of mem.now.pages.items (ssa_page layout.now area)) }
{
    match mem.bytes_of(layout.perms().len() as u32 + 1 + area) {
        Some(bytes) => has_saved_context(layout, program, bytes, is_oldest),
        None => false,
    }
}

/// So many areas have a saved context each.
fn have_saved_contexts(layout: &Layout, program: &Regs, mem: &Pages, count: u64) -> bool
    ensures { (phase : ThePhase) (queue : List ℕ) → result ≡ true →
        HaveSavedContexts layout.now phase queue (program_at program.now)
        (memory_of (is_held (length mem.now.pages.items)) (page_of mem.now.pages.items)) count × (count ≤ 2) }
{
    match count {
        0 => true,
        1 => has_one(layout, program, mem, 0, true),
        2 => has_one(layout, program, mem, 0, true) && has_one(layout, program, mem, 1, false),
        _ => false,
    }
}

/// Registers as an entering leaves them.
fn entry_regs(layout: &Layout, saved: u64, value: u64) -> Regs
    ensures { result ≡ entry_regs layout.now saved value }
{
    let mut gpr = [0; 16];
    gpr[0] = saved;
    gpr[7] = value;
    Regs {
        gpr,
        rip: step_address(layout, 0),
        cf: false,
        zf: false,
        sf: false,
        of: false,
        mode: Mode::Runtime,
    }
}

/// An entering with nothing saved has a row.
fn opens(phase: Phase) -> bool
    ensures { result ≡ opens (phase_of phase) }
{
    !matches!(phase, Phase::Running | Phase::Asked(_))
}

/// The guard has a row.
fn guards(phase: Phase) -> bool
    ensures { result ≡ guards (phase_of phase) }
{
    matches!(phase, Phase::Asked(_) | Phase::Trapped(_) | Phase::Dead)
}

/// How many pages have this cluster.
fn count_of(layout: &Layout, c: u64) -> u64
    ensures { result ≡ size_of layout.now.cluster_of c }
{
    layout
        .cluster_of()
        .iter()
        .filter(|x| u64::from(**x) == c)
        .count() as u64
}

/// How many pages a cluster has.
fn size_of(layout: &Layout, c: u64) -> u64
    ensures { result ≡ length (pages_of layout.now c) }
{
    let _valid = layout.base();
    count_of(layout, c)
}

/// It is an entering that has a row.
fn is_entry(layout: &Layout, regs: &Regs, phase: Phase) -> bool
    ensures { result ≡ true → (regs.now ≡ entry_regs layout.now (reg_of regs.now rax) (reg_of regs.now rdi))
        × (reg_of regs.now rax ≡ 0 → opens (phase_of phase) ≡ true) }
{
    *regs == entry_regs(layout, regs.gpr[0], regs.gpr[7]) && (regs.gpr[0] != 0 || opens(phase))
}

/// A page of the cluster that is asked for is probed, or there are no more.
fn is_probe(layout: &Layout, regs: &Regs, phase: Phase) -> bool
    ensures { result ≡ true → (is_asked (phase_of phase) ≡ true)
        × (reg_of regs.now rcx ≤ length (asked_pages layout.now (phase_of phase))) }
{
    match phase {
        Phase::Asked(c) => regs.gpr[1] <= size_of(layout, c),
        _ => false,
    }
}

/// The registers are equal but for RIP and the mode.
fn is_same_but_rip(regs: &Regs, program: &Regs) -> bool
    ensures { result ≡ true → SameButRip regs.now program.now }
{
    regs.gpr == program.gpr
        && regs.cf == program.cf
        && regs.zf == program.zf
        && regs.sf == program.sf
        && regs.of == program.of
}

/// A step is defined for these registers over this memory, where the program is at those.
pub fn is_defined(layout: &Layout, program: &Regs, regs: &Regs, mem: &Pages) -> bool
    ensures { result ≡ true → SomeStep layout.now regs.now (is_held (length mem.now.pages.items)) (page_of mem.now.pages.items) }
{
    let Some(state) = mem.bytes_of(layout.perms().len() as u32 + 4) else {
        return false;
    };
    let Some(phase) = state_in(layout, program, state) else {
        return false;
    };
    if is_at(layout, regs, 0) {
        return is_entry(layout, regs, phase)
            && have_saved_contexts(layout, program, mem, regs.gpr[0]);
    }
    if is_at(layout, regs, 16) {
        return guards(phase);
    }
    if is_at(layout, regs, 32) {
        return is_same_but_rip(regs, program);
    }
    if is_at(layout, regs, 48) {
        return is_probe(layout, regs, phase) && have_saved_contexts(layout, program, mem, 1);
    }
    false
}

/// Does the step, if it is defined.
pub fn step(layout: &Layout, program: &Regs, regs: &mut Regs, mem: &mut Pages) -> Option<RtTurn> {
    if !is_defined(layout, program, regs, mem) {
        return None;
    }
    Some(runtime_turn(layout, regs, mem))
}
