// Laws on the turns of the runtime.
ghost use Rattle.ak_core.specs.Layout.{IsValid};
ghost use Rattle.ak_core.specs.declared.page.Lp.{Lp};
ghost use Rattle.ak_model.specs.Control.ControlState.{Context, Control};
ghost use Rattle.ak_model.specs.Paging.Frames.{held};
ghost use Rattle.ak_model.specs.Paging.Histories.{History};
ghost use Rattle.ak_model.specs.Paging.Holdings.{VaFrame};
ghost use Rattle.ak_model.specs.Paging.Inside.{inside};
ghost use Rattle.ak_model.specs.Tapes.ProgramTurns.{ProgramTurn};
ghost use Rattle.ak_relation.specs.Premises.Shows.{ShowsStep};
ghost use Rattle.ak_pager.specs.StepsTo.{MayStep, memory_of};
ghost use Rattle.ak_pager.specs.declared.turn.RtTurn.{RtTurn};
ghost use Rattle.ak_relation.specs.Premises.Works.{IsMemory, IsStep, Writes, WritesFrames, exit_of};
ghost use Rattle.ak_relation.specs.Relation.Causes.{NamesCause};
ghost use Rattle.ak_relation.specs.Relation.Does.{IsTurn, at_moment};
ghost use Rattle.ak_relation.specs.Relation.Stands.{Stands};
ghost use Rattle.ak_relation.specs.Relation.Tells.{TellsTurn};
ghost use Rattle.ak_relation.specs.State.MachineState.{State};
ghost use Rattle.ak_relation.specs.State.Tables.{TablesStand};
ghost use Rattle.std.specs.Prelude.{Bool, List, None, Some, true, ℕ, ◌≡◌};
ghost use Rattle.ak_core.specs.Layout;

/// Where the relation holds and the context inside is a step of the runtime, the step is defined for it, over each memory that holds
/// some of the pages with their bytes.
pub fn steps_are_defined()
    ensures { (layout : Layout.Layout) (image : List ℕ) (past : History) (control : Control) (turns : List ProgramTurn) (state : State) (lp : ℕ)
        (holds : ℕ → Bool) (bytes : ℕ → List ℕ) → (stands : Stands layout image (at_moment past control turns state)) → inside past lp ≡ true
        → IsMemory layout past state holds bytes → (context : Context) → IsStep context → control.now ≡ Some context
        → MayStep layout control context stands.bytes.flat (state.processors lp).regs (memory_of holds bytes) }
{}

/// A turn in the runtime's mode is a turn of the definitions, in each valid layout: with its row, or with the fault of a refused access;
/// the cause of death after it is the one that its outcome names; and it tells the access that was refused, and the access of the break
/// for which the enclave dies.
pub fn valid_turns()
    ensures turn { (layout : Layout.Layout) (lp : Lp) (old new : State) (outcome : RtTurn) → IsValid layout
        → ShowsStep layout lp.0 old new outcome → IsTurn layout lp.0 old new (exit_of layout outcome) None }
    ensures cause { (layout : Layout.Layout) (lp : Lp) (old new : State) (outcome : RtTurn) → IsValid layout
        → ShowsStep layout lp.0 old new outcome → NamesCause layout lp.0 old new (exit_of layout outcome) None outcome }
    ensures notes { (layout : Layout.Layout) (lp : Lp) (old new : State) (outcome : RtTurn) → IsValid layout
        → ShowsStep layout lp.0 old new outcome → TellsTurn layout lp.0 old None None outcome }
{}

/// A memory over the frames that the page table names is one over the pages, and leaves the frames of slots.
pub fn frames_written()
    ensures pages { (layout : Layout.Layout) (past : History) (holds : ℕ → Bool) (before after : ℕ → List ℕ) (old new : State)
        → TablesStand layout past old → WritesFrames layout past holds before after old new → Writes layout past holds before after old new }
    ensures slots { (layout : Layout.Layout) (past : History) (holds : ℕ → Bool) (before after : ℕ → List ℕ) (old new : State)
        → TablesStand layout past old → WritesFrames layout past holds before after old new
        → (g : ℕ) → held layout past g ≡ VaFrame → new.frames g ≡ old.frames g }
{}
