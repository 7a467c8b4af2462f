// Laws on runs: turns, one after another, are a move; and moves, one after another, are a trace.
ghost use Rattle.ak_core.specs.declared.event.Event.{Event};
ghost use Rattle.ak_core.specs.declared.moves.Answer.{Answer};
ghost use Rattle.ak_core.specs.declared.moves.Exit.{Exit};
ghost use Rattle.ak_core.specs.declared.moves.Move.TheVariants.{Interrupt, Run};
ghost use Rattle.ak_core.specs.declared.page.Lp.{Lp};
ghost use Rattle.ak_model.specs.Paging.Histories.{History};
ghost use Rattle.ak_relation.specs.Program.Turns.{listed};
ghost use Rattle.ak_relation.specs.Relation.Does.{IsMove, IsTurn};
ghost use Rattle.ak_relation.specs.Relation.MoveByMove.{HasMoved, IsTraced};
ghost use Rattle.ak_relation.specs.Relation.TurnByTurn.{AreTurns, outside_answer};
ghost use Rattle.ak_relation.specs.State.MachineState.{State};
ghost use Rattle.std.specs.Prelude.{List, None, Option, Some, false, nat_lt, true, ℕ, ◌++◌, ◌<◌, ◌≡◌};
ghost use Rattle.ak_core.specs.Layout;

/// Turns that go on are the run of just so many turns; and with a last turn that leaves, they are a run of any more.
pub fn run_moves()
    ensures still { (layout : Layout.Layout) (lp : Lp) (old new : State) (all : ℕ) (event : Option Event)
        → nat_lt lp.0 layout.lps ≡ true → (old.processors lp.0).inside ≡ true → AreTurns layout lp.0 all old new event
        → IsMove layout old new (Run lp all) (Answer.Exit Exit.Still) event }
    ensures exits { (layout : Layout.Layout) (lp : Lp) (old mid new : State) (n all : ℕ) (exit : Exit) (first second both : Option Event)
        → nat_lt lp.0 layout.lps ≡ true → (old.processors lp.0).inside ≡ true → n < all → AreTurns layout lp.0 n old mid first
        → IsTurn layout lp.0 mid new (Some exit) second → listed first ++ listed second ≡ listed both
        → IsMove layout old new (Run lp all) (Answer.Exit exit) both }
{}

/// A run and an interrupt of a processor that is not inside are refused, and change nothing.
pub fn outside_moves()
    ensures run { (layout : Layout.Layout) (old : State) (lp : Lp) (n : ℕ) → (old.processors lp.0).inside ≡ false
        → IsMove layout old old (Run lp n) (outside_answer layout lp.0) None }
    ensures interrupt { (layout : Layout.Layout) (old : State) (lp : Lp) → (old.processors lp.0).inside ≡ false
        → IsMove layout old old (Interrupt lp) (outside_answer layout lp.0) None }
{}

/// After any moves from the build, each a move of the machine with its answer, the machine stands at a moment of the trace of these
/// moves: the events that its moves told are the tape, one for each move at most; whatever events come later, history and answers are
/// those of the trace, and the turns of the program too.
pub fn moves_are_traced()
    ensures { (layout : Layout.Layout) (image : List ℕ) (past : History) (state : State) (events : List Event)
        → HasMoved layout image past state events → IsTraced layout image past state events }
{}
