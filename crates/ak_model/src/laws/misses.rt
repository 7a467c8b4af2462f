// Laws on what is reached, what may fault, and how few misses there are.
ghost use Rattle.ak_core.specs.Mem.{Access};
ghost use Rattle.ak_core.specs.declared.event.Event.{Event};
ghost use Rattle.ak_core.specs.declared.moves.Move.{Move};
ghost use Rattle.ak_model.specs.Control.{trace, turn};
ghost use Rattle.ak_model.specs.Flat.{flat_run, is_forbidden};
ghost use Rattle.ak_model.specs.Laws.{AreEarlier, IsDistinct, MissesFit, QueueFits, misses_at};
ghost use Rattle.ak_model.specs.Misses.{ComesTo, MayComplete, MayFault, accesses_at, accesses_of, completed_since, entered_at, granted_since, is_among, is_kept};
ghost use Rattle.ak_model.specs.Paging.{access_walkable, inside};
ghost use Rattle.ak_model.specs.Sound.{AccessesAreReached, BreakIsForced, BrokenBy, EachTurn, EventsAreFlat, ReachedBy, Sound, queue_by, turns_of};
ghost use Rattle.ak_model.specs.Tapes.{FlatRuns, ProgramTurn, last_moment, program_turns, runs_of};
ghost use Rattle.std.specs.List.{list_all};
ghost use Rattle.std.specs.Prelude.{List, [], false, length, true, ℕ, ◌++◌, ◌+◌, ◌<◌, ◌∷◌, ◌≡◌, ◌≤◌};
ghost use Rattle.ak_core.specs.Journal;
ghost use Rattle.ak_core.specs.Layout;

/// Where a walk finds each access of a turn, or each before a forbidden one, the turn may complete or trap; and the next
/// access may fault where no walk finds it.
pub fn walks_reach()
    ensures completes { (layout : Layout.Layout) (runs : FlatRuns) (turn : ProgramTurn) (granted : List Access)
        → inside turn.past turn.lp ≡ true → accesses_at layout runs turn ≡ granted
        → list_all (access_walkable layout turn.past) granted ≡ true
        → MayComplete layout runs turn }
    ensures traps { (layout : Layout.Layout) (runs : FlatRuns) (turn : ProgramTurn) (granted rest : List Access) (t : Access)
        → inside turn.past turn.lp ≡ true → accesses_at layout runs turn ≡ granted ++ t ∷ rest
        → list_all (access_walkable layout turn.past) granted ≡ true → is_forbidden layout t ≡ true
        → MayComplete layout runs turn }
    ensures faults { (layout : Layout.Layout) (runs : FlatRuns) (turn : ProgramTurn) (granted rest : List Access) (t : Access)
        → inside turn.past turn.lp ≡ true → accesses_at layout runs turn ≡ granted ++ t ∷ rest
        → list_all (access_walkable layout turn.past) granted ≡ true
        → is_forbidden layout t ≡ false → access_walkable layout turn.past t ≡ false
        → MayFault layout runs turn t }
{}

/// More answers to calls leave what holds of the turns so far. That a turn may complete is asked of an instruction to
/// which the flat run came; an access that faults stands in one.
pub fn more_call_answers_keep_turns()
    ensures completes { (layout : Layout.Layout) (image answers more : List ℕ) (turn : ProgramTurn)
        → ComesTo (flat_run layout image answers) turn
        → MayComplete layout (flat_run layout image answers) turn
        → MayComplete layout (flat_run layout image (answers ++ more)) turn }
    ensures faults { (layout : Layout.Layout) (image answers more : List ℕ) (turn : ProgramTurn) (t : Access)
        → MayFault layout (flat_run layout image answers) turn t
        → MayFault layout (flat_run layout image (answers ++ more)) turn t }
    ensures breaks { (layout : Layout.Layout) (image answers more : List ℕ) (turn : ProgramTurn) (older : List ProgramTurn)
        → BreakIsForced layout (flat_run layout image answers) turn older
        → BreakIsForced layout (flat_run layout image (answers ++ more)) turn older }
    ensures each_reached { (layout : Layout.Layout) (image answers more : List ℕ) (turns : List ProgramTurn)
        → EachTurn (λ turn. λ older. ComesTo (flat_run layout image answers) turn) turns
        → EachTurn (λ turn. λ older. ReachedBy layout (flat_run layout image answers) turn turn.event) turns
        → EachTurn (λ turn. λ older. ReachedBy layout (flat_run layout image (answers ++ more)) turn turn.event) turns }
    ensures each_broken { (layout : Layout.Layout) (image answers more : List ℕ) (turns : List ProgramTurn)
        → EachTurn (λ turn. λ older. BrokenBy layout (flat_run layout image answers) turn older turn.event) turns
        → EachTurn (λ turn. λ older. BrokenBy layout (flat_run layout image (answers ++ more)) turn older turn.event) turns }
{}

/// Where the events agree with the flat run, accesses that were reached stay so with more answers to calls.
pub fn accesses_stay_reached()
    ensures { (image : List ℕ) (layout : Layout.Layout) (journal : Journal.Journal) (more : List ℕ)
        → EventsAreFlat image layout journal → AccessesAreReached image layout journal
        → EachTurn (λ turn. λ older. ReachedBy layout (flat_run layout image ((last_moment layout journal).control.returned ++ more)) turn turn.event)
        (turns_of layout journal) }
{}

/// The misses of a sound journal fit: each is of a cluster that is out by the misses before it.
pub fn sound_misses_fit()
    ensures { (image : List ℕ) (layout : Layout.Layout) (journal : Journal.Journal)
        → Sound image layout journal → MissesFit layout [] journal.events }
{}

/// At each turn of the program in a sound journal, the clusters that are in by the misses before it are different ones of the
/// layout that fit the budget together.
pub fn sound_queue_fits()
    ensures { (image : List ℕ) (layout : Layout.Layout) (journal : Journal.Journal)
        → Sound image layout journal → EachTurn (λ turn. λ older. QueueFits layout (queue_by layout older)) (turns_of layout journal) }
{}

/// An instruction of a sound journal misses four clusters at most: none twice, and no more than it makes accesses before the
/// first forbidden one.
pub fn few_misses()
    ensures four { (image : List ℕ) (layout : Layout.Layout) (journal : Journal.Journal) (i : ℕ)
        → Sound image layout journal → length (misses_at journal.events i) ≤ 4 }
    ensures once { (image : List ℕ) (layout : Layout.Layout) (journal : Journal.Journal) (i : ℕ)
        → Sound image layout journal → IsDistinct (misses_at journal.events i) }
    ensures accesses { (image : List ℕ) (layout : Layout.Layout) (journal : Journal.Journal) (i : ℕ)
        → Sound image layout journal → length (misses_at journal.events i) ≤ length (accesses_of layout (runs_of layout image journal i)) }
{}

/// Right after an entering nothing was granted to its processor; an instruction that completes in the stay grants the accesses of
/// its line, and any other turn nothing; and two turns of one stay were granted the same. Each turn of a trace is of a processor
/// that was inside, after a history no longer than that of the trace.
pub fn accesses_granted()
    ensures none { (layout : Layout.Layout) (runs : FlatRuns) (turn : ProgramTurn) (older : List ProgramTurn) (n : ℕ) → AreEarlier n older
        → n < entered_at turn → granted_since layout runs turn older ≡ [] }
    ensures more { (layout : Layout.Layout) (runs : FlatRuns) (turn new : ProgramTurn) (older : List ProgramTurn) → completed_since turn new ≡ true
        → granted_since layout runs turn (new ∷ older) ≡ accesses_at layout runs new ++ granted_since layout runs turn older }
    ensures no_more { (layout : Layout.Layout) (runs : FlatRuns) (turn new : ProgramTurn) (older : List ProgramTurn) → completed_since turn new ≡ false
        → granted_since layout runs turn (new ∷ older) ≡ granted_since layout runs turn older }
    ensures same { (layout : Layout.Layout) (runs : FlatRuns) (turn other : ProgramTurn) (older : List ProgramTurn) → turn.lp ≡ other.lp
        → entered_at turn ≡ entered_at other → granted_since layout runs turn older ≡ granted_since layout runs other older }
    ensures earlier { (layout : Layout.Layout) (tape : List Event) (moves : List Move)
        → AreEarlier (length (trace layout tape moves).past) (program_turns layout tape moves) }
{}

/// Which translations are kept depends on the set of the granted accesses alone.
pub fn same_accesses_keep_the_same()
    ensures { (granted other : List Access) → ((t : Access) → is_among granted t ≡ is_among other t)
        → (t : Access) → is_kept granted t ≡ is_kept other t }
{}
