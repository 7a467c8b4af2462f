// What steps do to STATE and to the saved-state areas, which were touched for writing.
ghost use Rattle.std.specs.Prelude.{◌≡◌, ◌<◌, ◌⊎◌, List, ℕ, true};
ghost use Rattle.ak_core.specs.Mem.{is_touched, is_writable};
ghost use Rattle.ak_model.specs.Control.ControlState.{Phase as ThePhase};
ghost use Rattle.ak_model.specs.Paging.Pages.{ssa_page, state_page};
ghost use Rattle.ak_cluster.specs.QueueBytes.{HasQueue, HasSomeQueue};
ghost use Rattle.ak_ssa.specs.SavedFrames.{HasFrame, area_place};
ghost use Rattle.ak_pager.specs.Rows.{StateSets, AreasStay, AreasGuard, area_bytes, guard_frame, kept_bytes};
ghost use Rattle.ak_pager.specs.StepsTo.{HasState};
ghost use Rattle.ak_pager.specs.Remembered.{IsRead, SaysPhase, phase_of};
ghost use Rattle.ak_pager.specs.Effects.{Changes, KeepsAccesses, OthersStay};

use crate::places;
use crate::state::{Phase, State};
use ak_core::{Layout, Mem, PAGE_SIZE};
use ak_ssa::{AREA_PLACE, FRAME_SIZE, frame};

/// What STATE says.
pub(crate) fn load_state<M: Mem>(layout: &Layout, mem: &M) -> State
    requires touched { is_touched (M.granted mem.now) (state_page layout.now) ≡ true }
    requires queue { HasSomeQueue (M.bytes mem.now (state_page layout.now)) }
    ensures { IsRead (M.bytes mem.now (state_page layout.now)) result }
{
    State::load(mem.page(places::state(layout)))
}

/// The phase that STATE says.
pub(crate) fn load_phase<M: Mem>(layout: &Layout, mem: &M) -> Phase
    requires { is_touched (M.granted mem.now) (state_page layout.now) ≡ true }
    ensures { (phase : ThePhase) → SaysPhase phase (M.bytes mem.now (state_page layout.now)) → phase_of result ≡ phase }
{
    Phase::load(mem.page(places::state(layout)))
}

/// Puts all of this into STATE.
pub(crate) fn store_state<M: Mem>(layout: &Layout, mem: &mut M, state: &State)
    requires { is_writable (M.granted mem.old) (state_page layout.now) ≡ true }
    ensures state { HasState (phase_of state.now.phase) state.now.queue state.now.frame (M.bytes mem.new (state_page layout.now)) }
    ensures others { OthersStay (state_page layout.now) (M.bytes mem.old) (M.bytes mem.new) }
    ensures stays { KeepsAccesses M.Mem mem.old mem.new }
{
    let page = places::state(layout);
    let mut bytes = [0; PAGE_SIZE];
    mem.read_page(page, &mut bytes);
    state.store(&mut bytes);
    mem.write_page(page, &bytes);
}

/// Puts another phase into STATE.
pub(crate) fn set_phase<M: Mem>(layout: &Layout, mem: &mut M, phase: Phase)
    requires state { is_writable (M.granted mem.old) (state_page layout.now) ≡ true }
    requires queue { HasSomeQueue (M.bytes mem.old (state_page layout.now)) }
    ensures changes { (queue : List ℕ) → HasQueue (M.bytes mem.old (state_page layout.now)) queue →
        Changes layout.now (StateSets (phase_of phase) queue (kept_bytes (M.bytes mem.old (state_page layout.now)))) AreasStay
        (M.bytes mem.old) (M.bytes mem.new) }
    ensures stays { KeepsAccesses M.Mem mem.old mem.new }
{
    let mut state = load_state(layout, mem);
    state.phase = phase;
    store_state(layout, mem, &state);
}

/// The frame in a saved-state area.
pub(crate) fn area_frame<M: Mem>(layout: &Layout, mem: &M, area: u32) -> [u8; FRAME_SIZE]
    requires area { area < 3 }
    requires touched { is_touched (M.granted mem.now) (ssa_page layout.now area) ≡ true }
    ensures { result ≡ area_bytes (M.bytes mem.now (ssa_page layout.now area)) }
{
    let mut frame = [0; FRAME_SIZE];
    frame.copy_from_slice(&mem.page(places::area(layout, area))[AREA_PLACE..]);
    frame
}

/// Puts a frame into a saved-state area.
pub(crate) fn set_area<M: Mem>(layout: &Layout, mem: &mut M, area: u32, frame: &[u8; FRAME_SIZE])
    requires area { area < 3 }
    requires touched { is_writable (M.granted mem.old) (ssa_page layout.now area) ≡ true }
    ensures frame { area_bytes (M.bytes mem.new (ssa_page layout.now area)) ≡ frame.now }
    ensures others { OthersStay (ssa_page layout.now area) (M.bytes mem.old) (M.bytes mem.new) }
    ensures stays { KeepsAccesses M.Mem mem.old mem.new }
{
    mem.store_slice(places::area(layout, area), AREA_PLACE as u16, frame);
}

/// Puts the guard's frame into a saved-state area.
pub(crate) fn guard_area<M: Mem>(layout: &Layout, mem: &mut M, area: u32)
    requires area { area < 3 }
    requires touched { is_writable (M.granted mem.old) (ssa_page layout.now area) ≡ true }
    ensures frame { HasFrame layout.now area_place (M.bytes mem.new (ssa_page layout.now area)) (guard_frame layout.now) }
    ensures others { OthersStay (ssa_page layout.now area) (M.bytes mem.old) (M.bytes mem.new) }
    ensures stays { KeepsAccesses M.Mem mem.old mem.new }
{
    let mut frame = [0; FRAME_SIZE];
    frame::guard(&mut frame, places::address_of(layout, 0));
    set_area(layout, mem, area, &frame);
}

/// Puts a phase into STATE from which the program never goes on, and the guard's frame into the first areas: one, or two.
pub(crate) fn end<M: Mem>(layout: &Layout, mem: &mut M, phase: Phase, areas: u32)
    requires state { is_writable (M.granted mem.old) (state_page layout.now) ≡ true }
    requires queue { HasSomeQueue (M.bytes mem.old (state_page layout.now)) }
    requires areas { (areas ≡ 1) ⊎ (areas ≡ 2) }
    requires touched { (i : ℕ) → i < areas → is_writable (M.granted mem.old) (ssa_page layout.now i) ≡ true }
    ensures changes { (queue : List ℕ) → HasQueue (M.bytes mem.old (state_page layout.now)) queue →
        Changes layout.now (StateSets (phase_of phase) queue (kept_bytes (M.bytes mem.old (state_page layout.now)))) (AreasGuard areas)
        (M.bytes mem.old) (M.bytes mem.new) }
    ensures stays { KeepsAccesses M.Mem mem.old mem.new }
{
    set_phase(layout, mem, phase);
    guard_area(layout, mem, 0);
    if areas == 2 {
        guard_area(layout, mem, 1);
    }
}
