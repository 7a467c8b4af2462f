// Laws on journals that are sound.
ghost use Rattle.ak_model.specs.Control.{turn};
ghost use Rattle.ak_model.specs.Flat.{flat_run};
ghost use Rattle.ak_model.specs.Sound.{BreaksAreForced, BreaksAreForcedUnkept, BrokenUnkeptBy, EachTurn, EventsAreFlat, MissedBy, MissesAreForced, Sound, turns_of};
ghost use Rattle.ak_model.specs.Tapes.{last_moment};
ghost use Rattle.std.specs.Prelude.{List, ℕ, ◌++◌, ◌+◌, ◌≡◌};
ghost use Rattle.ak_core.specs.Journal;
ghost use Rattle.ak_core.specs.Layout;

/// The breaks of a sound journal are forced also where no translation is kept.
pub fn breaks_without_kept()
    ensures { (image : List ℕ) (layout : Layout.Layout) (journal : Journal.Journal)
        → Sound image layout journal → BreaksAreForced image layout journal }
{}

/// Where the events agree with the flat run, misses and breaks that are forced stay so with more answers to calls, also
/// where translations are kept.
pub fn misses_and_breaks_stay_forced()
    ensures misses { (image : List ℕ) (layout : Layout.Layout) (journal : Journal.Journal) (more : List ℕ)
        → EventsAreFlat image layout journal → MissesAreForced image layout journal
        → EachTurn (λ turn. λ older. MissedBy layout (flat_run layout image ((last_moment layout journal).control.returned ++ more)) turn older turn.event)
        (turns_of layout journal) }
    ensures breaks { (image : List ℕ) (layout : Layout.Layout) (journal : Journal.Journal) (more : List ℕ)
        → EventsAreFlat image layout journal → BreaksAreForcedUnkept image layout journal
        → EachTurn (λ turn. λ older. BrokenUnkeptBy layout (flat_run layout image ((last_moment layout journal).control.returned ++ more)) journal.stop turn older turn.event)
        (turns_of layout journal) }
{}

/// Two sound journals of equal layouts with equal moves and events have equal answers, whatever their images.
pub fn sound_answers_agree()
    ensures { (image image' : List ℕ) (layout layout' : Layout.Layout) (journal journal' : Journal.Journal)
        → Sound image layout journal → Sound image' layout' journal' → layout ≡ layout'
        → journal.moves ≡ journal'.moves → journal.events ≡ journal'.events → journal.answers ≡ journal'.answers }
{}
