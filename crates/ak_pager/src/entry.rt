// The step by which the kernel enters.
ghost use Rattle.std.specs.Prelude.{◌≡◌, ◌≤◌, ◌+◌, ◌++◌, ◌⊎◌, true};
ghost use Rattle.ak_core.specs.Layout.{IsValid};
ghost use Rattle.ak_core.specs.declared.registers.Regs.{Regs as TheRegs};
ghost use Rattle.ak_model.specs.Control.ControlState.{Program, Running, Calling};
ghost use Rattle.ak_model.specs.Flat.FlatRuns.{zeroed};
ghost use Rattle.ak_model.specs.Flat.Instructions.{reg_of, with_reg, rax, rdi};
ghost use Rattle.ak_model.specs.Paging.Pages.{cluster_at, perm_of, permits};
ghost use Rattle.ak_model.specs.Laws.StepRows.{opens};
ghost use Rattle.ak_ssa.specs.SavedFrames.{ByPage};
ghost use Rattle.ak_pager.specs.Contexts.{reason_for, step_address};
ghost use Rattle.ak_pager.specs.Rows.{AreasStay, GoesWith, Reads, asking, dying, entry_row, program_row, saved_row, second_cause, trapping, with_phase};
ghost use Rattle.ak_pager.specs.StepsTo.{Performs};
ghost use Rattle.ak_pager.specs.Effects.{AreReads, AreSomeReads, HasBegun, KeepsAccesses, KeepsMemory, SomeStep, StepsAlways, TouchesAll, area_accesses, first_accesses, turn_of};

use crate::effects::{area_frame, end, guard_area, load_phase, load_state, set_phase, store_state};
use crate::probing::probe_at;
use crate::state::Phase;
use crate::{RtTurn, places};
use ak_core::{Exit, Fault, Kind, Layout, Mem, Mode, Page, Perm, Regs, StopCause};
use ak_ssa::{Why, frame};

/// RAX: how many contexts are saved.
const RAX: usize = 0;

/// RDI: what the kernel passes.
const RDI: usize = 7;

/// The vector of a page fault, as a program sees an access that its page does not allow.
const PAGE_FAULT: u8 = 14;

/// Touches the areas that hold saved contexts, the oldest first.
fn touch_areas<M: Mem>(layout: &Layout, mem: &mut M, saved: u64) -> Result<(), Fault>
    requires few { saved ≤ 2 }
    requires begun { HasBegun M.Mem layout.now mem.old }
    ensures touches { TouchesAll (area_accesses layout.now saved) result (M.holds mem.old) (M.granted mem.old) (M.granted mem.new) (M.refused mem.new) }
    ensures bytes { M.bytes mem.new ≡ M.bytes mem.old }
    ensures keeps { KeepsMemory M.Mem mem.old mem.new }
{
    if saved >= 1 {
        mem.touch_write(places::area(layout, 0))?;
    }
    if saved >= 2 {
        mem.touch_write(places::area(layout, 1))?;
    }
    Ok(())
}

/// An entry: the program begins, its call is answered, the probes begin, or what was saved last is dealt with.
pub(crate) fn enter<M: Mem>(layout: &Layout, regs: &mut Regs, mem: &mut M) -> Result<RtTurn, Fault>
    requires valid { IsValid layout.now }
    requires begun { HasBegun M.Mem layout.now mem.old }
    requires at { regs.old.rip ≡ step_address layout.now 0 }
    requires some { SomeStep layout.now regs.old (M.holds mem.old) (M.bytes mem.old) }
    ensures keeps { KeepsMemory M.Mem mem.old mem.new }
    ensures steps { StepsAlways layout.now regs.old (M.holds mem.old) (M.bytes mem.old) (M.bytes mem.new)
        (M.granted mem.new) (M.refused mem.new) (turn_of result) regs.new }
{
    let saved = regs.gpr[RAX];
    touch_areas(layout, mem, saved)?;
    Ok(enter_by(layout, regs, mem, saved as u32))
}

/// An entry with so many contexts saved, by the phase.
fn enter_by<M: Mem>(layout: &Layout, regs: &mut Regs, mem: &mut M, saved: u32) -> RtTurn
    requires valid { IsValid layout.now }
    requires few { saved ≤ 2 }
    requires touched { M.granted mem.old ≡ first_accesses layout.now ++ area_accesses layout.now saved }
    requires reads { AreSomeReads layout.now saved (M.bytes mem.old) }
    requires opens { saved ≡ 0 → (r : Reads) × AreReads layout.now saved (M.bytes mem.old) r × (opens r.phase ≡ true) }
    ensures row { (r : Reads) → AreReads layout.now saved (M.bytes mem.old) r →
        Performs layout.now (entry_row layout.now r saved (reg_of regs.old rdi) r.phase) (M.bytes mem.old) (M.bytes mem.new) result regs.new }
    ensures stays { KeepsAccesses M.Mem mem.old mem.new }
{
    match load_phase(layout, mem) {
        Phase::Ended(status) => RtTurn::Leave(Exit::Ended(status)),
        Phase::Trapped(vector) => RtTurn::Leave(Exit::Trapped(vector)),
        Phase::Dead => RtTurn::Leave(Exit::Stopped),
        Phase::New if saved == 0 => start(layout, regs, mem),
        Phase::Calling if saved == 0 => answer(layout, regs, mem),
        Phase::Asked(_) if saved == 1 => probe_at(layout, regs, 0),
        _ => handle(layout, mem, saved),
    }
}

/// The program begins.
fn start<M: Mem>(layout: &Layout, regs: &mut Regs, mem: &mut M) -> RtTurn
    requires touched { M.granted mem.old ≡ first_accesses layout.now ++ area_accesses layout.now 0 }
    requires reads { AreSomeReads layout.now 0 (M.bytes mem.old) }
    ensures row { (r : Reads) → AreReads layout.now 0 (M.bytes mem.old) r →
        Performs layout.now (record { state = with_phase r Running; areas = AreasStay; ends = GoesWith (zeroed (layout.now.base + layout.now.entry)) }) (M.bytes mem.old) (M.bytes mem.new) result regs.new }
    ensures stays { KeepsAccesses M.Mem mem.old mem.new }
{
    set_phase(layout, mem, Phase::Running);
    *regs = Regs {
        gpr: [0; 16],
        rip: layout.base() + u64::from(layout.entry()),
        cf: false,
        zf: false,
        sf: false,
        of: false,
        mode: Mode::Program,
    };
    RtTurn::Go
}

/// The program's call is answered, and it goes on.
fn answer<M: Mem>(layout: &Layout, regs: &mut Regs, mem: &mut M) -> RtTurn
    requires touched { M.granted mem.old ≡ first_accesses layout.now ++ area_accesses layout.now 0 }
    requires reads { AreSomeReads layout.now 0 (M.bytes mem.old) }
    ensures row { (r : Reads) → AreReads layout.now 0 (M.bytes mem.old) r → r.phase ≡ Calling →
        Performs layout.now (record { state = with_phase r Running; areas = AreasStay; ends = GoesWith (with_reg r.kept.regs rax (reg_of regs.old rdi)) }) (M.bytes mem.old) (M.bytes mem.new) result regs.new }
    ensures stays { KeepsAccesses M.Mem mem.old mem.new }
{
    let value = regs.gpr[RDI];
    let state = load_state(layout, mem);
    set_phase(layout, mem, Phase::Running);
    *regs = frame::load(&state.frame);
    regs.gpr[RAX] = value;
    RtTurn::Go
}

/// What was saved last is dealt with: nothing that is noted, a vector, or a page fault.
fn handle<M: Mem>(layout: &Layout, mem: &mut M, saved: u32) -> RtTurn
    requires valid { IsValid layout.now }
    requires saved { (saved ≡ 1) ⊎ (saved ≡ 2) }
    requires touched { M.granted mem.old ≡ first_accesses layout.now ++ area_accesses layout.now saved }
    requires reads { AreSomeReads layout.now saved (M.bytes mem.old) }
    ensures row { (r : Reads) (regs : TheRegs) → AreReads layout.now saved (M.bytes mem.old) r →
        Performs layout.now (saved_row layout.now r saved r.saved.cause) (M.bytes mem.old) (M.bytes mem.new) result regs }
    ensures stays { KeepsAccesses M.Mem mem.old mem.new }
{
    let newest = area_frame(layout, mem, saved - 1);
    match frame::why(&newest) {
        Why::Interrupt => RtTurn::Leave(Exit::Nothing),
        Why::Vector(vector) => trap(layout, mem, vector, saved),
        Why::PageFault(address, kind) => {
            let access = Fault {
                page: places::page_at(layout, address),
                kind,
            };
            handle_fault(layout, mem, saved, access, frame::load(&newest).mode)
        }
    }
}

/// A page fault, by whose it was.
fn handle_fault<M: Mem>(
    layout: &Layout,
    mem: &mut M,
    saved: u32,
    access: Fault,
    mode: Mode,
) -> RtTurn
    requires saved { (saved ≡ 1) ⊎ (saved ≡ 2) }
    requires touched { M.granted mem.old ≡ first_accesses layout.now ++ area_accesses layout.now saved }
    requires reads { AreSomeReads layout.now saved (M.bytes mem.old) }
    ensures row { (r : Reads) (regs : TheRegs) → AreReads layout.now saved (M.bytes mem.old) r → r.saved.regs.mode ≡ mode →
        Performs layout.now (saved_row layout.now r saved (ByPage access)) (M.bytes mem.old) (M.bytes mem.new) result regs }
    ensures stays { KeepsAccesses M.Mem mem.old mem.new }
{
    if saved == 2 {
        return die(layout, mem, 2, second_cause(layout, access));
    }
    match mode {
        Mode::Runtime => die(
            layout,
            mem,
            1,
            StopCause::RuntimeUnmapped(access.page, access.kind),
        ),
        Mode::Program => program_fault(layout, mem, access),
    }
}

/// The program's vector ends it.
fn trap<M: Mem>(layout: &Layout, mem: &mut M, vector: u8, saved: u32) -> RtTurn
    requires saved { (saved ≡ 1) ⊎ (saved ≡ 2) }
    requires touched { M.granted mem.old ≡ first_accesses layout.now ++ area_accesses layout.now saved }
    requires reads { AreSomeReads layout.now saved (M.bytes mem.old) }
    ensures row { (r : Reads) (regs : TheRegs) → AreReads layout.now saved (M.bytes mem.old) r →
        Performs layout.now (trapping r vector) (M.bytes mem.old) (M.bytes mem.new) result regs }
    ensures stays { KeepsAccesses M.Mem mem.old mem.new }
{
    end(layout, mem, Phase::Trapped(vector), 1);
    RtTurn::Leave(Exit::Trapped(vector))
}

/// The enclave dies, and the guard takes the place of each saved context.
fn die<M: Mem>(layout: &Layout, mem: &mut M, saved: u32, cause: StopCause) -> RtTurn
    requires saved { (saved ≡ 1) ⊎ (saved ≡ 2) }
    requires touched { M.granted mem.old ≡ first_accesses layout.now ++ area_accesses layout.now saved }
    requires reads { AreSomeReads layout.now saved (M.bytes mem.old) }
    ensures row { (r : Reads) (regs : TheRegs) → AreReads layout.now saved (M.bytes mem.old) r →
        Performs layout.now (dying r saved cause) (M.bytes mem.old) (M.bytes mem.new) result regs }
    ensures stays { KeepsAccesses M.Mem mem.old mem.new }
{
    end(layout, mem, Phase::Dead, saved);
    RtTurn::Dead(cause)
}

/// Why the enclave dies by a fault while the runtime dealt with another: only a probe accesses a page of the program then.
fn second_cause(layout: &Layout, access: Fault) -> StopCause
    ensures { result ≡ second_cause layout.now access }
{
    if access.page.0 < places::pages(layout) {
        StopCause::FetchNotHonoured(access.page, access.kind)
    } else {
        StopCause::RuntimeUnmapped(access.page, access.kind)
    }
}

/// A page fault of the program: it is denied the access, its cluster is in, or the cluster is asked for.
fn program_fault<M: Mem>(layout: &Layout, mem: &mut M, access: Fault) -> RtTurn
    requires touched { M.granted mem.old ≡ first_accesses layout.now ++ area_accesses layout.now 1 }
    requires reads { AreSomeReads layout.now 1 (M.bytes mem.old) }
    ensures row { (r : Reads) (regs : TheRegs) → AreReads layout.now 1 (M.bytes mem.old) r →
        Performs layout.now (program_row layout.now r access (reason_for layout.now r.queue Program access)) (M.bytes mem.old) (M.bytes mem.new) result regs }
    ensures stays { KeepsAccesses M.Mem mem.old mem.new }
{
    if !permits(layout, access.page, access.kind) {
        return trap(layout, mem, PAGE_FAULT, 1);
    }
    let cluster = cluster_at(layout, access.page);
    if load_state(layout, mem).queue.is_in(cluster) {
        return die(
            layout,
            mem,
            1,
            StopCause::Unmapped(access.page, access.kind),
        );
    }
    ask(layout, mem, cluster)
}

/// Asks for a cluster. The clusters that leave for it are dropped, and STATE keeps the program's frame.
fn ask<M: Mem>(layout: &Layout, mem: &mut M, cluster: u32) -> RtTurn
    requires touched { M.granted mem.old ≡ first_accesses layout.now ++ area_accesses layout.now 1 }
    requires reads { AreSomeReads layout.now 1 (M.bytes mem.old) }
    ensures row { (r : Reads) (regs : TheRegs) → AreReads layout.now 1 (M.bytes mem.old) r →
        Performs layout.now (asking layout.now r cluster) (M.bytes mem.old) (M.bytes mem.new) result regs }
    ensures stays { KeepsAccesses M.Mem mem.old mem.new }
{
    let mut state = load_state(layout, mem);
    let dropped = state.queue.drop_for(layout, cluster);
    state.phase = Phase::Asked(cluster);
    state.frame = area_frame(layout, mem, 0);
    store_state(layout, mem, &state);
    guard_area(layout, mem, 0);
    RtTurn::Leave(Exit::Ask(dropped, cluster))
}

/// What a page allows. The TCS, and a page that the enclave does not have, allow nothing.
fn perm_of(layout: &Layout, page: Page) -> Option<Perm>
    ensures { result ≡ perm_of layout.now page.0 }
{
    let pages = places::pages(layout);
    if page.0 < pages {
        Some(layout.perms()[page.0 as usize])
    } else if page.0 == pages || page.0 > places::code(layout).0 {
        None
    } else if page.0 == places::code(layout).0 {
        Some(Perm::Rx)
    } else {
        Some(Perm::Rw)
    }
}

/// The page allows the access.
fn permits(layout: &Layout, page: Page, kind: Kind) -> bool
    ensures { result ≡ permits layout.now page.0 kind }
{
    match (perm_of(layout, page), kind) {
        (None, _) => false,
        (Some(_), Kind::Read) => true,
        (Some(perm), Kind::Write) => perm == Perm::Rw,
        (Some(perm), Kind::Exec) => perm == Perm::Rx,
    }
}

/// The cluster of a page of the program.
fn cluster_at(layout: &Layout, page: Page) -> u32
    ensures { result ≡ cluster_at layout.now page.0 }
{
    match layout.cluster_of().get(page.0 as usize) {
        Some(cluster) => *cluster,
        None => 0,
    }
}
