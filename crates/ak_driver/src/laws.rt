// Laws on the runs of the honest kernel, and on what it is told.
ghost use Rattle.ak_core.specs.Layout.{IsValid};
ghost use Rattle.ak_core.specs.declared.event.Event.{Event};
ghost use Rattle.ak_core.specs.declared.moves.Answer.{Answer};
ghost use Rattle.ak_core.specs.declared.moves.Exit.TheVariants.{Ready};
ghost use Rattle.ak_core.specs.declared.moves.Move.{Move};
ghost use Rattle.ak_driver.specs.EndingExits.{last_is_result};
ghost use Rattle.ak_driver.specs.HonestRuns.{IsHonestJournal, IsHonestRun};
ghost use Rattle.ak_driver.specs.Notes.{IsPlausible};
ghost use Rattle.ak_driver.specs.Requests.{IsAsked, answer_after, is_run, pages_dropped, pages_fetched};
ghost use Rattle.ak_model.specs.Control.Trace.{trace};
ghost use Rattle.ak_model.specs.Kernels.Evictions.{Evicts};
ghost use Rattle.ak_model.specs.Kernels.HonestKernel.{drive};
ghost use Rattle.ak_model.specs.Kernels.KernelRules.{Honours};
ghost use Rattle.ak_model.specs.Kernels.Repeats.{is_done};
ghost use Rattle.ak_model.specs.Laws.IdealMisses.{MissesAreIdeal};
ghost use Rattle.ak_model.specs.Laws.Premises.{MissesFit};
ghost use Rattle.ak_model.specs.Paging.Histories.{change};
ghost use Rattle.ak_model.specs.Stops.ShownStop.{has_break, shows_stop};
ghost use Rattle.ak_model.specs.Tapes.LastMoment.{last_moment};
ghost use Rattle.std.specs.List.{list_all};
ghost use Rattle.std.specs.Prelude.{List, None, [], false, length, reverse, true, ℕ, ◌*◌, ◌+◌, ◌^◌, ◌<◌, ◌++◌, ◌∷◌, ◌≡◌, ◌≤◌};
ghost use Rattle.ak_core.specs.Journal;
ghost use Rattle.ak_core.specs.Layout;

/// The honest kernel keeps the rules of a well-behaved kernel, and it evicts.
pub fn rules_are_kept()
    ensures honours { (layout : Layout.Layout) (tape : List Event) (inputs : List ℕ) (moves : List Move)
        → IsHonestRun layout tape inputs moves → Honours layout tape moves }
    ensures evicts { (layout : Layout.Layout) (tape : List Event) (inputs : List ℕ) (moves : List Move)
        → IsHonestRun layout tape inputs moves → Evicts layout tape moves }
{}

/// Each of its moves is answered Ok, with a handle or by an exit. It has no move only where the last exit says that the program
/// ended or was trapped, and no exit says that the enclave is stopped.
pub fn moves_are_done()
    ensures done { (layout : Layout.Layout) (tape : List Event) (inputs : List ℕ) (moves : List Move)
        → IsHonestRun layout tape inputs moves → list_all (λ pair. is_done pair.1) (trace layout tape moves).past ≡ true }
    ensures ends { (layout : Layout.Layout) (tape : List Event) (inputs : List ℕ) (moves : List Move)
        → IsHonestRun layout tape inputs moves → drive layout (trace layout tape moves).past inputs ≡ None
        → last_is_result (trace layout tape moves).past ≡ true }
    ensures unstopped { (layout : Layout.Layout) (tape : List Event) (inputs : List ℕ) (moves : List Move)
        → IsHonestRun layout tape inputs moves → shows_stop (trace layout tape moves).past ≡ false }
{}

/// Each request is served: between it and the run that follows stand at most three moves for each page that is dropped, two for
/// each page that is fetched, and two more; and that run is answered Ready.
pub fn asks_are_served()
    ensures paced { (layout : Layout.Layout) (tape : List Event) (inputs : List ℕ) (before since : List Move) (ask : Move) (d c : ℕ)
        → IsHonestRun layout tape inputs (since ++ ask ∷ before) → IsAsked layout tape before ask since d c
        → length since ≤ 3 * pages_dropped layout tape before d + 2 * pages_fetched layout c + 2 }
    ensures ready { (layout : Layout.Layout) (tape : List Event) (inputs : List ℕ) (before since : List Move) (ask m : Move) (d c : ℕ)
        → IsHonestRun layout tape inputs (m ∷ since ++ ask ∷ before) → IsAsked layout tape before ask since d c → is_run m ≡ true
        → answer_after layout tape (since ++ ask ∷ before) m ≡ Answer.Exit Ready }
{}

/// A sound journal of the honest kernel, on a roomy machine, is one of an honest run: its program never breaks, so that the laws above
/// hold of it. It has no stop, each miss is one that the program's own accesses force, each move is done, and the kernel has no next
/// move only where the program ended or was trapped.
pub fn honest_journals_never_stop()
    ensures unbroken { (image : List ℕ) (layout : Layout.Layout) (journal : Journal.Journal) (inputs : List ℕ)
        → IsHonestJournal image layout journal inputs → has_break journal.events ≡ false }
    ensures run { (image : List ℕ) (layout : Layout.Layout) (journal : Journal.Journal) (inputs : List ℕ)
        → IsHonestJournal image layout journal inputs → IsHonestRun layout journal.events inputs (reverse journal.moves) }
    ensures unstopped { (image : List ℕ) (layout : Layout.Layout) (journal : Journal.Journal) (inputs : List ℕ)
        → IsHonestJournal image layout journal inputs → journal.stop ≡ None }
    ensures ideal { (image : List ℕ) (layout : Layout.Layout) (journal : Journal.Journal) (inputs : List ℕ)
        → IsHonestJournal image layout journal inputs → MissesAreIdeal image layout journal }
    ensures done { (image : List ℕ) (layout : Layout.Layout) (journal : Journal.Journal) (inputs : List ℕ)
        → IsHonestJournal image layout journal inputs → list_all is_done journal.answers ≡ true }
    ensures ends { (image : List ℕ) (layout : Layout.Layout) (journal : Journal.Journal) (inputs : List ℕ)
        → IsHonestJournal image layout journal inputs → drive layout (last_moment layout journal).past inputs ≡ None
        → last_is_result (last_moment layout journal).past ≡ true }
{}

/// What a trace tells may be told: each move, with its answer, may come next after the moves before it, whatever the kernel does,
/// as long as each miss on the tape is of a cluster that is out.
pub fn traced_moves_are_plausible()
    ensures { (layout : Layout.Layout) (tape : List Event) (moves : List Move) (m : Move) → IsValid layout
        → MissesFit layout [] tape → length moves < 2 ^ 31
        → IsPlausible layout (trace layout tape moves).past (change m (answer_after layout tape moves m)) }
{}
