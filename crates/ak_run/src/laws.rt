// Laws on runs that are faithful to an image, and on sound journals that are cut.
ghost use Rattle.ak_model.specs.Control.Trace.{answers, trace};
ghost use Rattle.std.specs.Prelude.{List, [], reverse, take, ℕ, ◌≡◌};
ghost use Rattle.ak_core.specs.Journal;
ghost use Rattle.ak_core.specs.Layout;
ghost use Rattle.ak_model.specs.Sound.SoundJournal.{Sound};
ghost use Rattle.ak_run.specs.Cuts.{taken};
ghost use Rattle.ak_run.specs.Runs.{Faithful, RunParts};

/// The whole journal of a faithful run is sound.
pub fn faithful_journals_are_sound()
    ensures { (image : List ℕ) (run : RunParts) → Faithful image run → Sound image run.machine.layout run.journal }
{}

/// A sound journal that is cut after any of its moves has the answers of the trace of these moves and of the events that were taken
/// by then; of these events the trace leaves none. So two sound journals of equal layouts that agree in their first k moves and in
/// the events that were taken in these have the same first k answers, whatever their images.
pub fn cut_journals_agree()
    ensures traced { (image : List ℕ) (layout : Layout.Layout) (journal : Journal.Journal) (k : ℕ)
        → Sound image layout journal
        → take k journal.answers ≡ answers (trace layout (taken k layout journal) (reverse (take k journal.moves))) }
    ensures none_left { (layout : Layout.Layout) (journal : Journal.Journal) (k : ℕ)
        → (trace layout (taken k layout journal) (reverse (take k journal.moves))).control.rest ≡ [] }
    ensures agree { (image image' : List ℕ) (layout layout' : Layout.Layout) (journal journal' : Journal.Journal) (k : ℕ)
        → Sound image layout journal → Sound image' layout' journal' → layout ≡ layout'
        → take k journal.moves ≡ take k journal'.moves → taken k layout journal ≡ taken k layout' journal'
        → take k journal.answers ≡ take k journal'.answers }
{}
