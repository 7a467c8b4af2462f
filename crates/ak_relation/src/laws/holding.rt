// Laws on the frames that a processor holds while it is inside.
ghost use Rattle.ak_core.specs.declared.registers.Mode.{Mode};
ghost use Rattle.ak_epcm.specs.Entries.{entry_at, has_page};
ghost use Rattle.ak_model.specs.Control.ControlState.{Control};
ghost use Rattle.ak_model.specs.Flat.Instructions.{number_at};
ghost use Rattle.ak_model.specs.Paging.Histories.{History};
ghost use Rattle.ak_model.specs.Paging.Inside.{inside};
ghost use Rattle.ak_model.specs.Paging.Pages.{tcs_page};
ghost use Rattle.ak_model.specs.Tapes.ProgramTurns.{ProgramTurn};
ghost use Rattle.ak_relation.specs.Relation.Does.{at_moment};
ghost use Rattle.ak_relation.specs.Relation.HeldFrames.{HoldsFrames};
ghost use Rattle.ak_relation.specs.Relation.Stands.{Stands};
ghost use Rattle.ak_relation.specs.State.MachineState.{State};
ghost use Rattle.std.specs.Prelude.{List, length, true, ℕ, ◌≡◌, ◌≤◌};
ghost use Rattle.ak_core.specs.Layout;

/// Where the relation holds, a processor that is inside holds the frames of the TCS and of the area for the next saved context, by the
/// EPCM and as two frames; the TCS says how many contexts are saved, at most two, and does not refuse resuming. In the program's mode
/// nothing is saved. And wherever a frame holds the TCS, whoever is inside, it says that three contexts are saved at most.
pub fn frames_are_held()
    ensures frames { (layout : Layout.Layout) (image : List ℕ) (past : History) (control : Control) (turns : List ProgramTurn) (state : State) (lp : ℕ)
        → Stands layout image (at_moment past control turns state) → inside past lp ≡ true
        → HoldsFrames layout (length control.stack) state.entries state.frames (state.processors lp) }
    ensures program { (layout : Layout.Layout) (image : List ℕ) (past : History) (control : Control) (turns : List ProgramTurn) (state : State) (lp : ℕ)
        → Stands layout image (at_moment past control turns state) → inside past lp ≡ true → (state.processors lp).regs.mode ≡ Mode.Program
        → HoldsFrames layout 0 state.entries state.frames (state.processors lp) }
    ensures saved { (layout : Layout.Layout) (image : List ℕ) (past : History) (control : Control) (turns : List ProgramTurn) (state : State) (f : ℕ)
        → Stands layout image (at_moment past control turns state) → has_page (entry_at state.entries f) (tcs_page layout) ≡ true
        → number_at (state.frames f) 24 4 ≤ 3 }
{}
