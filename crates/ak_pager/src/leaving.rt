// The guard, and the step by which the program leaves.
ghost use Rattle.std.specs.Prelude.{◌≡◌, ◌++◌, List, ℕ};
ghost use Rattle.ak_core.specs.declared.registers.Regs.{Regs as TheRegs};
ghost use Rattle.ak_model.specs.Flat.Instructions.{reg_of, rdi, rsi};
ghost use Rattle.ak_model.specs.Paging.Pages.{state_page};
ghost use Rattle.ak_cluster.specs.QueueBytes.{HasQueue};
ghost use Rattle.ak_ssa.specs.SavedFrames.{frame_bytes};
ghost use Rattle.ak_pager.specs.Rows.{AreasStay, Reads, StateSets, guard_row, leave_row, left_frame};
ghost use Rattle.ak_pager.specs.StepsTo.{Performs};
ghost use Rattle.ak_pager.specs.Remembered.{phase_of};
ghost use Rattle.ak_pager.specs.Effects.{AreReads, AreSomeReads, Changes, KeepsAccesses, area_accesses, first_accesses};

use crate::RtTurn;
use crate::effects::{load_phase, load_state, set_phase, store_state};
use crate::state::Phase;
use ak_core::{Exit, Layout, Mem, Mode, Regs, StopCause};
use ak_ssa::{Why, frame};

/// RCX: where the program goes on.
const RCX: usize = 1;

/// RSI: the argument of the program's call.
const RSI: usize = 6;

/// RDI: the number of the program's call.
const RDI: usize = 7;

/// The guard was resumed in place of the program.
pub(crate) fn guard<M: Mem>(layout: &Layout, mem: &mut M) -> RtTurn
    requires touched { M.granted mem.old ≡ first_accesses layout.now ++ area_accesses layout.now 0 }
    requires reads { AreSomeReads layout.now 0 (M.bytes mem.old) }
    ensures row { (r : Reads) (regs : TheRegs) → AreReads layout.now 0 (M.bytes mem.old) r →
        Performs layout.now (guard_row r r.phase) (M.bytes mem.old) (M.bytes mem.new) result regs }
    ensures stays { KeepsAccesses M.Mem mem.old mem.new }
{
    match load_phase(layout, mem) {
        Phase::Asked(_) => {
            set_phase(layout, mem, Phase::Dead);
            RtTurn::Dead(StopCause::ResumedEarly)
        }
        Phase::Trapped(vector) => RtTurn::Leave(Exit::Trapped(vector)),
        _ => RtTurn::Leave(Exit::Stopped),
    }
}

/// The program calls out; by number 0 it ends.
pub(crate) fn leave<M: Mem>(layout: &Layout, regs: &Regs, mem: &mut M) -> RtTurn
    requires touched { M.granted mem.old ≡ first_accesses layout.now ++ area_accesses layout.now 0 }
    requires reads { AreSomeReads layout.now 0 (M.bytes mem.old) }
    ensures row { (r : Reads) (after : TheRegs) → AreReads layout.now 0 (M.bytes mem.old) r →
        Performs layout.now (leave_row layout.now r regs.now (reg_of regs.now rdi) (reg_of regs.now rsi)) (M.bytes mem.old) (M.bytes mem.new) result after }
    ensures stays { KeepsAccesses M.Mem mem.old mem.new }
{
    let number = regs.gpr[RDI];
    let argument = regs.gpr[RSI];
    if number == 0 {
        keep_program(layout, regs, mem, Phase::Ended(argument));
        return RtTurn::Leave(Exit::Ended(argument));
    }
    keep_program(layout, regs, mem, Phase::Calling);
    RtTurn::Leave(Exit::Call(number, argument))
}

/// Puts another phase into STATE, and the frame of the program, which goes on at RCX.
fn keep_program<M: Mem>(layout: &Layout, regs: &Regs, mem: &mut M, phase: Phase)
    requires touched { M.granted mem.old ≡ first_accesses layout.now ++ area_accesses layout.now 0 }
    requires reads { AreSomeReads layout.now 0 (M.bytes mem.old) }
    ensures changes { (queue : List ℕ) → HasQueue (M.bytes mem.old (state_page layout.now)) queue →
        Changes layout.now (StateSets (phase_of phase) queue (frame_bytes layout.now (left_frame regs.now))) AreasStay
        (M.bytes mem.old) (M.bytes mem.new) }
    ensures stays { KeepsAccesses M.Mem mem.old mem.new }
{
    let mut state = load_state(layout, mem);
    let program = Regs {
        rip: regs.gpr[RCX],
        mode: Mode::Program,
        ..*regs
    };
    frame::save(&mut state.frame, &program, Why::Interrupt);
    state.phase = phase;
    store_state(layout, mem, &state);
}
