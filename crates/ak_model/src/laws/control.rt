// Laws on the control state, whatever the kernel does.
ghost use Rattle.ak_core.specs.Layout.{IsValid};
ghost use Rattle.ak_core.specs.declared.event.Event.{Event};
ghost use Rattle.ak_core.specs.declared.moves.Move.{Move};
ghost use Rattle.ak_model.specs.Control.{Control, Moment, Program, after_move, answer, is_leaf, leaf_row, moments, trace, turn};
ghost use Rattle.ak_model.specs.Kernels.{CountsRight};
ghost use Rattle.ak_model.specs.Laws.{IsInRow, IsOrderly, IsPresent, KeepsLaws, MissesFit, OrderlyAfter, SameView, TurnIsOrderly, after_turn};
ghost use Rattle.ak_model.specs.Paging.{History, View, inside, view_of};
ghost use Rattle.ak_model.specs.Tapes.{ProgramTurn, program_turns, turns_of_move};
ghost use Rattle.std.specs.Prelude.{All, Bool, List, Some, [], nat_lt, true, ℕ, ◌++◌, ◌+◌, ◌≡◌};
ghost use Rattle.ak_core.specs.Layout;

/// The laws of the control state hold at each moment, with the misses of the program turns so far; each turn and each move
/// keeps them. Where the program is inside, what is in by these misses is the queue.
pub fn control_is_orderly()
    ensures always { (layout : Layout.Layout) (tape : List Event) (moves : List Move) → IsValid layout
        → MissesFit layout [] tape
        → OrderlyAfter layout (program_turns layout tape moves) (trace layout tape moves) }
    ensures each_moment { (layout : Layout.Layout) (tape : List Event) (moves : List Move) → IsValid layout
        → MissesFit layout [] tape
        → All (KeepsLaws layout) (moments layout tape moves) }
    ensures turns_keep { (layout : Layout.Layout) (so_far : List ℕ) (past : History) (control : Control) → IsValid layout
        → IsOrderly layout so_far true control
        → TurnIsOrderly layout (after_turn layout so_far control control.now) (turn layout past control) }
    ensures moves_keep { (layout : Layout.Layout) (turns : List ProgramTurn) (moment : Moment) (m : Move) → IsValid layout
        → ((lp : ℕ) → inside moment.past lp ≡ true → nat_lt lp layout.lps ≡ true)
        → OrderlyAfter layout turns moment
        → OrderlyAfter layout (turns_of_move layout moment m ++ turns) (after_move layout moment m) }
    ensures in_program { (layout : Layout.Layout) (so_far : List ℕ) (someone : Bool) (control : Control)
        → IsOrderly layout so_far someone control → control.now ≡ Some Program → control.queue ≡ so_far }
{}

/// At each moment the processor inside, if there is one, is in the program with nothing saved, or at a step of the runtime for
/// which the table has a row.
pub fn each_step_has_a_row()
    ensures always { (layout : Layout.Layout) (tape : List Event) (moves : List Move) → IsValid layout
        → MissesFit layout [] tape
        → All (λ moment. IsInRow layout moment.control moment.control.now) (moments layout tape moves) }
    ensures orderly { (layout : Layout.Layout) (so_far : List ℕ) (someone : Bool) (control : Control)
        → IsOrderly layout so_far someone control → IsInRow layout control control.now }
{}

/// After each move one processor at most is inside, and there is a context inside exactly where one is.
pub fn one_inside()
    ensures { (layout : Layout.Layout) (tape : List Event) (moves : List Move) → IsPresent layout (trace layout tape moves) }
{}

/// What the kernel counts from the answers is right: how many contexts are saved, whether resuming is refused, which clusters
/// are in, and which one is asked for.
pub fn kernel_counts()
    ensures { (layout : Layout.Layout) (tape : List Event) (moves : List Move) → CountsRight (trace layout tape moves) }
{}

/// A leaf is answered by its row over the view of the history, and views that agree in what is read have one row.
pub fn leaf_rows()
    ensures defined { (layout : Layout.Layout) (past : History) (control : Control) (m : Move) → is_leaf m ≡ true
        → answer layout past control m ≡ leaf_row (view_of layout past) m }
    ensures alike { (view other : View) → SameView view other → (m : Move) → leaf_row view m ≡ leaf_row other m }
{}
