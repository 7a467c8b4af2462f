// Laws on what moves tell beside their answers and events.
ghost use Rattle.ak_core.specs.Mem.{Access};
ghost use Rattle.ak_core.specs.declared.event.Event.{Event};
ghost use Rattle.ak_core.specs.declared.moves.Answer.{Answer};
ghost use Rattle.ak_core.specs.declared.moves.Move.{Move};
ghost use Rattle.ak_model.specs.Control.ControlState.{Control};
ghost use Rattle.ak_model.specs.Paging.Histories.{History};
ghost use Rattle.ak_model.specs.Tapes.ProgramTurns.{ProgramTurn};
ghost use Rattle.ak_pager.specs.declared.turn.RtTurn.{RtTurn};
ghost use Rattle.ak_relation.specs.Program.FaultedTurns.{FaultedLast};
ghost use Rattle.ak_relation.specs.Relation.Causes.{is_run};
ghost use Rattle.ak_relation.specs.Relation.Does.{GoesTo, MoveFollows, at_moment};
ghost use Rattle.ak_relation.specs.Relation.Stands.{Stands, runs_at};
ghost use Rattle.ak_relation.specs.Relation.Tells.{TellsMove};
ghost use Rattle.ak_relation.specs.State.MachineState.{State};
ghost use Rattle.std.specs.Prelude.{List, None, Option, Some, false, ℕ, ◌∷◌, ◌≡◌};
ghost use Rattle.ak_core.specs.Layout;

/// A move that tells an access comes, at each moment that the machine stands for, to one at which the newest turn of the program is a fault
/// by that access: one that its page denies, or one that forced a miss or a break. No other move than a run tells anything.
pub fn move_notes()
    ensures faults { (layout : Layout.Layout) (old new : State) (m : Move) (a : Answer) (event : Option Event) (t : Access) (outcome : RtTurn)
        → TellsMove layout old new m a event (Some t) outcome
        → (image : List ℕ) (past : History) (control : Control) (turns : List ProgramTurn) → Stands layout image (at_moment past control turns old)
        → (g : GoesTo layout image (MoveFollows layout past m a) (at_moment past control turns old) ((m, a) ∷ past) new event)
        × FaultedLast layout (runs_at layout image g.control) g.turns t }
    ensures others { (layout : Layout.Layout) (old new : State) (m : Move) (a : Answer)
        → is_run m a ≡ false → TellsMove layout old new m a None None RtTurn.Go }
{}
