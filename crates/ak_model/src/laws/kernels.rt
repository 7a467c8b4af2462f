// Laws on kernels that keep their rules.
ghost use Rattle.ak_core.specs.Layout.{IsValid};
ghost use Rattle.ak_core.specs.Mem.{Access};
ghost use Rattle.ak_core.specs.declared.event.Event.{Event};
ghost use Rattle.ak_core.specs.declared.moves.Move.{Move};
ghost use Rattle.ak_model.specs.Clusters.{is_in};
ghost use Rattle.ak_model.specs.Control.{Control, Program, trace, turn};
ghost use Rattle.ak_model.specs.Kernels.{Evicts, Honours, keeps_mapped};
ghost use Rattle.ak_model.specs.Laws.{IsOrderly, MissesAreIdeal, MissesFit};
ghost use Rattle.ak_model.specs.Paging.{History, access_walkable, cluster_at, pages, permits, someone_inside};
ghost use Rattle.ak_model.specs.Sound.{BreakIsForced, BrokenBy, EachTurn, Sound, queue_by};
ghost use Rattle.ak_model.specs.Stops.{has_break, shows_stop};
ghost use Rattle.ak_model.specs.Tapes.{FlatRuns, ProgramTurn, last_moment, program_turns, turn_at};
ghost use Rattle.std.specs.Prelude.{List, None, Some, [], false, reverse, true, ℕ, ◌<◌, ◌≡◌};
ghost use Rattle.ak_core.specs.Journal;
ghost use Rattle.ak_core.specs.Layout;

/// A kernel that keeps its rules sees no stop, where each break of the program is forced.
pub fn no_stop()
    ensures { (layout : Layout.Layout) (runs : FlatRuns) (tape : List Event) (moves : List Move) → IsValid layout
        → MissesFit layout [] tape
        → EachTurn (λ turn. λ older. BrokenBy layout runs turn older turn.event) (program_turns layout tape moves)
        → Honours layout tape moves → (trace layout tape moves).control.cause ≡ None }
{}

/// Where the kernel keeps mapped what is in, the program's permitted accesses to clusters that are in by the misses so far are
/// walkable: no break is forced there.
pub fn in_is_walkable()
    ensures { (layout : Layout.Layout) (so_far : List ℕ) (past : History) (control : Control) (t : Access)
        → IsOrderly layout so_far true control → control.now ≡ Some Program → someone_inside layout past ≡ true
        → keeps_mapped layout (record { past = past; control = control }) ≡ true
        → t.page.0 < pages layout → permits layout t.page.0 t.kind ≡ true → is_in so_far (cluster_at layout t.page.0) ≡ true
        → access_walkable layout past t ≡ true }
{}

/// Where the kernel keeps mapped what is in, no break of the program is forced.
pub fn no_break()
    ensures { (layout : Layout.Layout) (runs : FlatRuns) (older : List ProgramTurn) (lp : ℕ) (past : History) (control : Control)
        → IsOrderly layout (queue_by layout older) true control → control.now ≡ Some Program → someone_inside layout past ≡ true
        → keeps_mapped layout (record { past = past; control = control }) ≡ true
        → BreakIsForced layout runs (turn_at lp past control) older → ⊥ }
{}

/// Under a kernel that keeps its rules the program of a sound journal never breaks, no stop is told, and no processor leaves
/// with the exit of a stopped enclave.
pub fn no_break_on_tape()
    ensures unbroken { (image : List ℕ) (layout : Layout.Layout) (journal : Journal.Journal)
        → Sound image layout journal → Honours layout journal.events (reverse journal.moves)
        → has_break journal.events ≡ false }
    ensures unstopped { (image : List ℕ) (layout : Layout.Layout) (journal : Journal.Journal)
        → Sound image layout journal → Honours layout journal.events (reverse journal.moves)
        → journal.stop ≡ None }
    ensures unseen { (image : List ℕ) (layout : Layout.Layout) (journal : Journal.Journal)
        → Sound image layout journal → Honours layout journal.events (reverse journal.moves)
        → shows_stop (last_moment layout journal).past ≡ false }
{}

/// Under a kernel that evicts the misses of a sound journal are just those that the program's own accesses force.
pub fn misses_are_ideal()
    ensures { (image : List ℕ) (layout : Layout.Layout) (journal : Journal.Journal)
        → Sound image layout journal → Evicts layout journal.events (reverse journal.moves)
        → MissesAreIdeal image layout journal }
{}
