// Laws on tapes: equal layouts, moves and events give equal answers, and later events change nothing earlier; and which breaks, calls
// and outputs of a tape there were.
ghost use Rattle.ak_core.specs.Layout.{IsValid};
ghost use Rattle.ak_core.specs.declared.event.Event.{Event};
ghost use Rattle.ak_core.specs.declared.moves.Exit.{Exit};
ghost use Rattle.ak_core.specs.declared.moves.Move.{Move};
ghost use Rattle.ak_model.specs.Control.{Control, Goes, Leaves, Program, answers, entered, interrupted_by, resumed_by, run, trace, turn};
ghost use Rattle.ak_model.specs.Laws.{AreShown, IsAnswered, IsCounted, IsLater, MissesFit, NowFits, StackFits, TurnIsAnswered, all_but_last, breaks_by, breaks_on, calls_by, calls_now, calls_on, control_of, outputs_by, turn_with_more, with_more};
ghost use Rattle.ak_model.specs.Misses.{ComesTo};
ghost use Rattle.ak_model.specs.Paging.{History};
ghost use Rattle.ak_model.specs.Sound.{AnswersAreTraced, EachTurn, EventsAreFlat, IfCarriedOut, shown_outputs, turns_of};
ghost use Rattle.ak_model.specs.Tapes.{is_tape, program_turns, runs_of, turn_at, turn_in, turns_of_run};
ghost use Rattle.std.specs.Prelude.{List, None, Some, [], length, suc, true, ℕ, ◌++◌, ◌+◌, ◌∷◌, ◌≡◌, ◌≤◌};
ghost use Rattle.ak_core.specs.Journal;
ghost use Rattle.ak_core.specs.Layout;

/// What the kernel sees depends on the layout, its moves and the events alone.
pub fn same_answers()
    ensures { (layout : Layout.Layout) (j j' : Journal.Journal)
        → AnswersAreTraced layout j → AnswersAreTraced layout j'
        → j.moves ≡ j'.moves → j.events ≡ j'.events → j.answers ≡ j'.answers }
{}

/// What the kernel has seen so far depends on the events so far alone: two tapes of which the same events were taken have
/// given the same answers.
pub fn same_answers_so_far()
    ensures { (layout : Layout.Layout) (tape tape' : List Event) (moves : List Move)
        → all_but_last (length (trace layout tape moves).control.rest) tape
        ≡ all_but_last (length (trace layout tape' moves).control.rest) tape'
        → (trace layout tape moves).past ≡ (trace layout tape' moves).past }
{}

/// Events that were not taken change nothing: without them the history is the same.
pub fn cut_tape()
    ensures { (layout : Layout.Layout) (tape : List Event) (moves : List Move) (k : ℕ)
        → k ≤ length (trace layout tape moves).control.rest
        → (trace layout (all_but_last k tape) moves).past ≡ (trace layout tape moves).past }
{}

/// Events that are not due yet change nothing but what is left to show.
pub fn same_over_longer_tape()
    ensures { (layout : Layout.Layout) (tape more : List Event) (moves : List Move)
        → IsLater more (trace layout tape moves).control.count
        → trace layout (tape ++ more) moves ≡ record (trace layout tape moves)
        { control = record (trace layout tape moves).control { rest = (trace layout tape moves).control.rest ++ more } } }
{}

/// Events that are not due yet change no turn, and no run, but what is left to show.
pub fn same_turn_over_longer_tape()
    ensures turn { (layout : Layout.Layout) (more : List Event) (past : History) (control : Control)
        → IsLater more (control_of (turn layout past control)).count
        → turn layout past (with_more more control) ≡ turn_with_more more (turn layout past control) }
    ensures run { (layout : Layout.Layout) (more : List Event) (past : History) (n : ℕ) (control : Control)
        → IsLater more (run layout past n control).control.count
        → run layout past n (with_more more control) ≡ record (run layout past n control) { control = with_more more (run layout past n control).control } }
{}

/// Events that are not due yet change no turn of the program so far.
pub fn same_turns_over_longer_tape()
    ensures { (layout : Layout.Layout) (tape more : List Event) (moves : List Move)
        → IsLater more (trace layout tape moves).control.count
        → program_turns layout (tape ++ more) moves ≡ program_turns layout tape moves }
{}

/// Events that were not taken change no turn of the program.
pub fn cut_turns()
    ensures { (layout : Layout.Layout) (tape : List Event) (moves : List Move) (k : ℕ)
        → k ≤ length (trace layout tape moves).control.rest
        → program_turns layout (all_but_last k tape) moves ≡ program_turns layout tape moves }
{}

/// The program turns of a run, turn by turn: a turn of the program is the next of them, a step of the runtime is none.
pub fn turn_by_turn()
    ensures program_goes { (layout : Layout.Layout) (lp : ℕ) (past : History) (n : ℕ) (control next : Control)
        → control.now ≡ Some Program → turn layout past control ≡ Goes next
        → turns_of_run layout lp past (suc n) control ≡ turn_at lp past control ∷ turns_of_run layout lp past n next }
    ensures program_leaves { (layout : Layout.Layout) (lp : ℕ) (past : History) (n : ℕ) (control next : Control) (exit : Exit)
        → control.now ≡ Some Program → turn layout past control ≡ Leaves exit next
        → turns_of_run layout lp past (suc n) control ≡ turn_at lp past control ∷ [] }
    ensures runtime_goes { (layout : Layout.Layout) (lp : ℕ) (past : History) (n : ℕ) (control next : Control)
        → turn_in lp past control control.now ≡ [] → turn layout past control ≡ Goes next
        → turns_of_run layout lp past (suc n) control ≡ turns_of_run layout lp past n next }
    ensures runtime_leaves { (layout : Layout.Layout) (lp : ℕ) (past : History) (n : ℕ) (control next : Control) (exit : Exit)
        → turn_in lp past control control.now ≡ [] → turn layout past control ≡ Leaves exit next
        → turns_of_run layout lp past (suc n) control ≡ [] }
{}

/// Where the events agree with the flat run, it comes to the instruction of each turn that completes or traps.
pub fn turns_come()
    ensures { (image : List ℕ) (layout : Layout.Layout) (journal : Journal.Journal)
        → EventsAreFlat image layout journal
        → EachTurn (λ turn. λ older. IfCarriedOut turn.event (ComesTo (runs_of layout image journal) turn)) (turns_of layout journal) }
{}

/// A turn's count is below that of the trace where it completes an instruction, and at most that of the trace else.
pub fn turns_count()
    ensures { (layout : Layout.Layout) (tape : List Event) (moves : List Move)
        → EachTurn (λ turn. λ older. IsCounted (trace layout tape moves).control.count turn.count turn.event) (program_turns layout tape moves) }
{}

/// The breaks of the program turns, with those that are left, are those of the tape. A tape has one at most; so one turn at most
/// breaks, and exactly one where the tape has a break and none is left.
pub fn one_break()
    ensures taken { (layout : Layout.Layout) (tape : List Event) (moves : List Move)
        → breaks_by (program_turns layout tape moves) + breaks_on (trace layout tape moves).control.rest ≡ breaks_on tape }
    ensures at_most { (layout : Layout.Layout) (tape : List Event) (moves : List Move)
        → is_tape tape ≡ true → breaks_by (program_turns layout tape moves) ≤ 1 }
    ensures exactly { (layout : Layout.Layout) (tape : List Event) (moves : List Move)
        → is_tape tape ≡ true → 1 ≤ breaks_on tape → breaks_on (trace layout tape moves).control.rest ≡ 0
        → breaks_by (program_turns layout tape moves) ≡ 1 }
{}

/// Each call that the program made has returned but the one whose answer is owed: while a call is about to leave or was shown, after
/// the program's last call, and perhaps of a dead enclave. So it is after each trace of a valid layout and a tape that fits, and so
/// it stays over a turn, an entering, a resuming and an interrupt. The calls that were made, with those that are left, are those of
/// the tape.
pub fn calls_are_answered()
    ensures turn { (layout : Layout.Layout) (control : Control) (calls : ℕ) (past : History) → IsAnswered calls control
        → StackFits layout control.phase control.queue control.stack → NowFits layout control.phase control.stack control.now
        → TurnIsAnswered (calls_now control control.now + calls) (turn layout past control) }
    ensures enters { (layout : Layout.Layout) (control : Control) (calls v : ℕ) → IsAnswered calls control → control.now ≡ None → IsAnswered calls (entered control v) }
    ensures resumes { (layout : Layout.Layout) (control : Control) (calls : ℕ) → IsAnswered calls control → control.now ≡ None
        → IsAnswered calls (resumed_by control control.stack) }
    ensures interrupts { (layout : Layout.Layout) (control : Control) (calls : ℕ) → IsAnswered calls control → IsAnswered calls (interrupted_by control control.now) }
    ensures always { (layout : Layout.Layout) (tape : List Event) (moves : List Move) → IsValid layout
        → MissesFit layout [] tape
        → IsAnswered (calls_by (program_turns layout tape moves)) (trace layout tape moves).control }
    ensures taken { (layout : Layout.Layout) (tape : List Event) (moves : List Move)
        → calls_by (program_turns layout tape moves) + calls_on (trace layout tape moves).control.rest ≡ calls_on tape }
{}

/// The outputs that were shown are those that the program called for, in order, with their arguments, but the one whose call is about
/// to leave, and perhaps the last one of a dead enclave. (Of a valid layout and a tape that fits.)
pub fn outputs_are_shown()
    ensures { (layout : Layout.Layout) (tape : List Event) (moves : List Move) → IsValid layout
        → MissesFit layout [] tape
        → AreShown (outputs_by (program_turns layout tape moves)) (shown_outputs (answers (trace layout tape moves))) (trace layout tape moves).control }
{}
