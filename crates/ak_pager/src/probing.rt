// The steps that find out whether the pages of the cluster that was asked for are there.
ghost use Rattle.std.specs.Prelude.{◌≡◌, ℕ, ◌<◌, ◌++◌, ◌∷◌, [], Option, option_map, slice_get};
ghost use Rattle.ak_core.specs.Layout.{IsValid};
ghost use Rattle.ak_core.specs.Mem.{access_to};
ghost use Rattle.ak_core.specs.declared.page.Page.{Page as ThePage};
ghost use Rattle.ak_core.specs.declared.registers.Regs.{Regs as TheRegs};
ghost use Rattle.ak_model.specs.Control.ControlState.{Asked};
ghost use Rattle.ak_model.specs.Flat.Instructions.{reg_of, rcx};
ghost use Rattle.ak_model.specs.Paging.Pages.{pages, pages_of, strong_kind};
ghost use Rattle.ak_pager.specs.Contexts.{IsAtStep, step_address};
ghost use Rattle.ak_pager.specs.Rows.{Reads, finish_row};
ghost use Rattle.ak_pager.specs.StepsTo.{Performs};
ghost use Rattle.ak_pager.specs.declared.turn.RtTurn.{RtTurn as TheTurn};
ghost use Rattle.ak_pager.specs.Effects.{AreReads, HasBegun, KeepsAccesses, KeepsMemory, SomeStep, StepsAlways, TouchesAll, area_accesses, first_accesses, turn_of};

use crate::effects::{load_phase, load_state, set_area, store_state};
use crate::state::Phase;
use crate::{RtTurn, places};
use ak_core::{Exit, Fault, Layout, Mem, Mode, Page, Perm, Regs};
use ak_ssa::frame;

/// How far into CODE the step is that probes a page.
pub(crate) const PROBE_STEP: u64 = 48;

/// RCX: the number of the page that is probed.
const RCX: usize = 1;

/// The next step probes the page of this number among those of the cluster that is asked for.
pub(crate) fn probe_at(layout: &Layout, regs: &mut Regs, number: u64) -> RtTurn
    ensures goes { result ≡ TheTurn.Go }
    ensures at { IsAtStep layout.now regs.new 48 }
    ensures number { reg_of regs.new rcx ≡ number }
{
    regs.rip = places::address_of(layout, PROBE_STEP);
    regs.mode = Mode::Runtime;
    regs.gpr[RCX] = number;
    RtTurn::Go
}

/// The page of this number among those of a cluster, in ascending order.
fn page_of(layout: &Layout, cluster: u32, number: u64) -> Option<Page>
    requires { IsValid layout.now }
    ensures { result ≡ option_map (λ p. record { 0 = p }) (slice_get (pages_of layout.now cluster) number) }
{
    let mut earlier = 0;
    for (page, its) in layout.cluster_of().iter().enumerate() {
        if *its == cluster {
            if earlier == number {
                return Some(Page(page as u32));
            }
            earlier += 1;
        }
    }
    None
}

/// Touches a page of the program for all that it allows.
fn touch_strong<M: Mem>(layout: &Layout, mem: &mut M, page: Page) -> Result<(), Fault>
    requires program { page.0 < pages layout.now }
    requires begun { HasBegun M.Mem layout.now mem.old }
    ensures touches { TouchesAll (access_to page.0 (strong_kind layout.now page.0) ∷ []) result (M.holds mem.old)
        (M.granted mem.old) (M.granted mem.new) (M.refused mem.new) }
    ensures bytes { M.bytes mem.new ≡ M.bytes mem.old }
    ensures keeps { KeepsMemory M.Mem mem.old mem.new }
{
    match layout.perms()[page.0 as usize] {
        Perm::R => mem.touch_read(page),
        Perm::Rw => mem.touch_write(page),
        Perm::Rx => mem.touch_exec(page),
    }
}

/// Probes a page of the cluster that is asked for; or ends the probes, after the last one.
pub(crate) fn probe<M: Mem>(layout: &Layout, regs: &mut Regs, mem: &mut M) -> Result<RtTurn, Fault>
    requires valid { IsValid layout.now }
    requires begun { HasBegun M.Mem layout.now mem.old }
    requires at { regs.old.rip ≡ step_address layout.now 48 }
    requires some { SomeStep layout.now regs.old (M.holds mem.old) (M.bytes mem.old) }
    ensures keeps { KeepsMemory M.Mem mem.old mem.new }
    ensures steps { StepsAlways layout.now regs.old (M.holds mem.old) (M.bytes mem.old) (M.bytes mem.new)
        (M.granted mem.new) (M.refused mem.new) (turn_of result) regs.new }
{
    let Phase::Asked(cluster) = load_phase(layout, mem) else {
        return Ok(RtTurn::Leave(Exit::Nothing));
    };
    let number = regs.gpr[RCX];
    match page_of(layout, cluster, number) {
        Some(page) => {
            touch_strong(layout, mem, page)?;
            Ok(probe_at(layout, regs, number + 1))
        }
        None => {
            mem.touch_write(places::area(layout, 0))?;
            Ok(finish(layout, mem, cluster))
        }
    }
}

/// The cluster is in: the program's frame goes back into its area, with nothing noted.
fn finish<M: Mem>(layout: &Layout, mem: &mut M, cluster: u32) -> RtTurn
    requires valid { IsValid layout.now }
    requires touched { M.granted mem.old ≡ first_accesses layout.now ++ area_accesses layout.now 1 }
    requires reads { (r : Reads) × AreReads layout.now 0 (M.bytes mem.old) r × (r.phase ≡ Asked cluster) }
    ensures row { (r : Reads) (regs : TheRegs) → AreReads layout.now 0 (M.bytes mem.old) r → r.phase ≡ Asked cluster →
        Performs layout.now (finish_row r r.phase) (M.bytes mem.old) (M.bytes mem.new) result regs }
    ensures stays { KeepsAccesses M.Mem mem.old mem.new }
{
    let mut state = load_state(layout, mem);
    let mut program = state.frame;
    frame::clear_valid(&mut program);
    set_area(layout, mem, 0, &program);
    state.queue.append(cluster);
    state.phase = Phase::Running;
    store_state(layout, mem, &state);
    RtTurn::Leave(Exit::Ready)
}
