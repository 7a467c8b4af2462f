// Laws on stops, and on the move to blame.
ghost use Rattle.ak_core.specs.Layout.{IsValid};
ghost use Rattle.ak_core.specs.declared.event.Event.{Event};
ghost use Rattle.ak_core.specs.declared.event.Stop.{Stop};
ghost use Rattle.ak_core.specs.declared.moves.Move.{Move};
ghost use Rattle.ak_model.specs.Clusters.{is_in};
ghost use Rattle.ak_model.specs.Control.{trace};
ghost use Rattle.ak_model.specs.Kernels.{is_mapped};
ghost use Rattle.ak_model.specs.Laws.{BlamedIn, FaultIsToldAt, MissesFit};
ghost use Rattle.ak_model.specs.Paging.{cluster_at, pages, place};
ghost use Rattle.ak_model.specs.Sound.{BreaksAreForcedUnkept, IsStopped, Sound};
ghost use Rattle.ak_model.specs.Stops.{shows_stop};
ghost use Rattle.ak_model.specs.Tapes.{program_turns};
ghost use Rattle.std.specs.Prelude.{List, Some, [], drop, is_some, length, true, ℕ, ◌<◌, ◌≡◌, ◌≤◌};
ghost use Rattle.ak_core.specs.Journal;
ghost use Rattle.ak_core.specs.Layout;

/// A processor leaves with the exit of a stopped enclave only where the stop has a cause.
pub fn stop_has_cause()
    ensures { (layout : Layout.Layout) (tape : List Event) (moves : List Move) → IsValid layout
        → MissesFit layout [] tape
        → shows_stop (trace layout tape moves).past ≡ true → is_some (trace layout tape moves).control.cause ≡ true }
{}

/// As long as the program may go on, the last page fault is the one that the newest refusal to resume tells of: a step faulted
/// at an access that no walk found then, or the newest turn of the program broke. And a guard inside was resumed.
pub fn last_fault()
    ensures { (layout : Layout.Layout) (tape : List Event) (moves : List Move) → IsValid layout
        → MissesFit layout [] tape
        → FaultIsToldAt layout (program_turns layout tape moves) (trace layout tape moves) }
{}

/// Each stop of a sound journal has a move to blame: it stands before the one in which the enclave stopped, and broke a rule. Of
/// the journal's soundness this needs that its misses are of clusters that are out, its breaks forced, and its stop blamed so.
pub fn blamed_move()
    ensures place { (image : List ℕ) (layout : Layout.Layout) (journal : Journal.Journal) (stop : Stop)
        → Sound image layout journal → journal.stop ≡ Some stop → (1 ≤ stop.blame) × (stop.blame < length journal.moves) }
    ensures broke { (image : List ℕ) (layout : Layout.Layout) (journal : Journal.Journal) (stop : Stop)
        → Sound image layout journal → journal.stop ≡ Some stop → BlamedIn layout journal stop }
    ensures needs { (image : List ℕ) (layout : Layout.Layout) (journal : Journal.Journal) (stop : Stop)
        → IsValid layout → MissesFit layout [] journal.events
        → BreaksAreForcedUnkept image layout journal → IsStopped layout journal → journal.stop ≡ Some stop
        → BlamedIn layout journal stop }
{}

/// Each page of a cluster that is in was mapped for all that it allows at some moment before, when it was probed. So a move is
/// to blame where it no longer is.
pub fn in_was_mapped()
    ensures { (layout : Layout.Layout) (tape : List Event) (moves : List Move) → IsValid layout
        → MissesFit layout [] tape
        → (p : ℕ) → p < pages layout → is_in (trace layout tape moves).control.queue (cluster_at layout p) ≡ true
        → (d : ℕ) × (is_mapped layout (drop d (trace layout tape moves).past) p ≡ true) }
{}
