// Laws on the cause of death: which turns and moves keep it, and what names it.
ghost use Rattle.ak_core.specs.Layout.{IsValid};
ghost use Rattle.ak_core.specs.declared.event.Event.{Event};
ghost use Rattle.ak_core.specs.declared.moves.Answer.{Answer};
ghost use Rattle.ak_core.specs.declared.moves.Exit.{Exit};
ghost use Rattle.ak_core.specs.declared.moves.Move.{Move};
ghost use Rattle.ak_core.specs.declared.moves.Move.TheVariants.{Run};
ghost use Rattle.ak_core.specs.declared.page.Lp.{Lp};
ghost use Rattle.ak_core.specs.declared.registers.Mode.{Mode};
ghost use Rattle.ak_model.specs.Paging.Histories.{History};
ghost use Rattle.ak_pager.specs.declared.turn.RtTurn.{RtTurn};
ghost use Rattle.ak_relation.specs.Program.Turns.{listed};
ghost use Rattle.ak_relation.specs.Relation.Causes.{NamesCause, NamesMoveCause, is_run};
ghost use Rattle.ak_relation.specs.Relation.Does.{IsMove, IsTurn};
ghost use Rattle.ak_relation.specs.Relation.NamedMoves.{AreNamedMoves, IsNamedTrace};
ghost use Rattle.ak_relation.specs.Relation.TurnByTurn.{AreTurns};
ghost use Rattle.ak_relation.specs.State.MachineState.{State};
ghost use Rattle.std.specs.Prelude.{List, None, Option, Some, false, nat_lt, true, ℕ, ◌++◌, ◌<◌, ◌≡◌};
ghost use Rattle.ak_core.specs.Layout;

/// A turn that goes on keeps the cause of death, and so does each turn of the program.
pub fn turn_causes()
    ensures goes { (layout : Layout.Layout) (lp : ℕ) (old new : State) (event : Option Event)
        → IsTurn layout lp old new None event → NamesCause layout lp old new None event RtTurn.Go }
    ensures program { (layout : Layout.Layout) (lp : ℕ) (old new : State) (exit : Option Exit) (event : Option Event)
        → (old.processors lp).regs.mode ≡ Mode.Program → IsTurn layout lp old new exit event → NamesCause layout lp old new exit event RtTurn.Go }
{}

/// A run that uses up its turns keeps the cause. After one whose last turn leaves it is the one that this turn names: since contexts and
/// cause stay until then, it is named of the control state before the run. Each other move keeps it.
pub fn move_causes()
    ensures still { (layout : Layout.Layout) (lp : Lp) (old new : State) (all : ℕ) (event : Option Event)
        → nat_lt lp.0 layout.lps ≡ true → (old.processors lp.0).inside ≡ true → AreTurns layout lp.0 all old new event
        → NamesMoveCause layout old new (Run lp all) (Answer.Exit Exit.Still) event RtTurn.Go }
    ensures exits { (layout : Layout.Layout) (lp : Lp) (old mid new : State) (n all : ℕ) (exit : Exit) (first second both : Option Event) (outcome : RtTurn)
        → nat_lt lp.0 layout.lps ≡ true → (old.processors lp.0).inside ≡ true → n < all → AreTurns layout lp.0 n old mid first
        → NamesCause layout lp.0 mid new (Some exit) second outcome → listed first ++ listed second ≡ listed both
        → NamesMoveCause layout old new (Run lp all) (Answer.Exit exit) both outcome }
    ensures others { (layout : Layout.Layout) (old new : State) (m : Move) (a : Answer) (event : Option Event)
        → is_run m a ≡ false → IsMove layout old new m a event → NamesMoveCause layout old new m a event RtTurn.Go }
{}

/// After any moves from the build, each of which names the cause after it by an outcome, the machine stands at a moment of their trace;
/// and whatever events come later, these outcomes name the causes of the trace, one after each move.
pub fn causes_are_traced()
    ensures { (layout : Layout.Layout) (image : List ℕ) (past : History) (state : State) (events : List Event) (outcomes : List RtTurn) → IsValid layout
        → AreNamedMoves layout image past state events outcomes → IsNamedTrace layout image past state events outcomes }
{}
