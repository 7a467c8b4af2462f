// Laws on the journal of moves from the build: it is sound.
ghost use Rattle.ak_core.specs.Layout.{IsValid};
ghost use Rattle.ak_core.specs.Mem.{Access};
ghost use Rattle.ak_core.specs.declared.event.Event.{Event};
ghost use Rattle.ak_core.specs.declared.moves.Answer.{Answer};
ghost use Rattle.ak_core.specs.declared.moves.Move.{Move};
ghost use Rattle.ak_model.specs.Paging.Histories.{History};
ghost use Rattle.ak_model.specs.Paging.Pages.{pages};
ghost use Rattle.ak_model.specs.Sound.BreaksAndStop.{BreaksAreForcedUnkept, IsStopped};
ghost use Rattle.ak_model.specs.Sound.Events.{EventsAreFlat};
ghost use Rattle.ak_model.specs.Sound.Forced.{AccessesAreReached, turns_of};
ghost use Rattle.ak_model.specs.Sound.ForcedMisses.{MissesAreForced};
ghost use Rattle.ak_model.specs.Sound.Outputs.{OutputsAreFlat};
ghost use Rattle.ak_model.specs.Sound.SoundJournal.{Sound};
ghost use Rattle.ak_model.specs.Sound.TracedAnswers.{AnswersAreTraced};
ghost use Rattle.ak_model.specs.Tapes.LastMoment.{runs_of};
ghost use Rattle.ak_pager.specs.declared.turn.RtTurn.{RtTurn};
ghost use Rattle.ak_relation.specs.Premises.Built.{IsBuilt};
ghost use Rattle.ak_relation.specs.Relation.Causes.{NamesMoveCause};
ghost use Rattle.ak_relation.specs.Relation.Journals.{HasJournal, StopNamesBreak};
ghost use Rattle.ak_relation.specs.Relation.Keeping.{HasOneMore, KeepsJournal};
ghost use Rattle.ak_relation.specs.Relation.Stopping.{stop_by};
ghost use Rattle.ak_relation.specs.Relation.Tells.{TellsMove};
ghost use Rattle.ak_relation.specs.State.MachineState.{State};
ghost use Rattle.std.specs.Prelude.{List, None, Option, [], length, ℕ, ◌*◌, ◌∷◌, ◌≡◌};
ghost use Rattle.ak_core.specs.Journal;
ghost use Rattle.ak_core.specs.Layout;

/// The journal of any moves from the build is sound, part by part: the layout is valid and the image whole; its outputs are a beginning
/// of those of the flat run, with the values that were returned; its events agree with the flat run; each access of what completes or
/// traps was reached; misses and breaks are forced; and its answers are those of the trace. While there is no stop, a break has no
/// access to name; a stop for an unmapped page of the program is to name one that forced a break. So all of it is sound where the stop
/// is the one of the control state.
pub fn journals_are_sound()
    ensures valid { (layout : Layout.Layout) (image : List ℕ) (past : History) (state : State) (journal : Journal.Journal)
        → HasJournal layout image past state journal → IsValid layout }
    ensures whole { (layout : Layout.Layout) (image : List ℕ) (past : History) (state : State) (journal : Journal.Journal)
        → HasJournal layout image past state journal → length image ≡ 4096 * pages layout }
    ensures outputs { (layout : Layout.Layout) (image : List ℕ) (past : History) (state : State) (journal : Journal.Journal)
        → HasJournal layout image past state journal → OutputsAreFlat image layout journal }
    ensures events { (layout : Layout.Layout) (image : List ℕ) (past : History) (state : State) (journal : Journal.Journal)
        → HasJournal layout image past state journal → EventsAreFlat image layout journal }
    ensures accesses { (layout : Layout.Layout) (image : List ℕ) (past : History) (state : State) (journal : Journal.Journal)
        → HasJournal layout image past state journal → AccessesAreReached image layout journal }
    ensures misses { (layout : Layout.Layout) (image : List ℕ) (past : History) (state : State) (journal : Journal.Journal)
        → HasJournal layout image past state journal → MissesAreForced image layout journal }
    ensures breaks { (layout : Layout.Layout) (image : List ℕ) (past : History) (state : State) (journal : Journal.Journal)
        → HasJournal layout image past state journal → journal.stop ≡ None → BreaksAreForcedUnkept image layout journal }
    ensures named_breaks { (layout : Layout.Layout) (image : List ℕ) (past : History) (state : State) (journal : Journal.Journal)
        → HasJournal layout image past state journal
        → StopNamesBreak layout (runs_of layout image journal) (turns_of layout journal) journal.stop → BreaksAreForcedUnkept image layout journal }
    ensures answers { (layout : Layout.Layout) (image : List ℕ) (past : History) (state : State) (journal : Journal.Journal)
        → HasJournal layout image past state journal → AnswersAreTraced layout journal }
    ensures all { (layout : Layout.Layout) (image : List ℕ) (past : History) (state : State) (journal : Journal.Journal)
        → HasJournal layout image past state journal
        → StopNamesBreak layout (runs_of layout image journal) (turns_of layout journal) journal.stop → IsStopped layout journal → Sound image layout journal }
{}

/// A journal that keeps the stop of its moves, by the outcomes of their last steps of the runtime, is stopped as the control state says,
/// with the move to blame. So it is sound, where a stop for an unmapped page of the program names an access that forced a break.
pub fn journals_are_stopped()
    ensures stop { (layout : Layout.Layout) (image : List ℕ) (past : History) (state : State) (journal : Journal.Journal)
        → KeepsJournal layout image past state journal → IsStopped layout journal }
    ensures all { (layout : Layout.Layout) (image : List ℕ) (past : History) (state : State) (journal : Journal.Journal)
        → KeepsJournal layout image past state journal
        → StopNamesBreak layout (runs_of layout image journal) (turns_of layout journal) journal.stop → Sound image layout journal }
{}

/// After the build the machine has the empty journal; and one more move, which names the cause after it, has the journal with that move.
pub fn moves_keep_journals()
    ensures built { (layout : Layout.Layout) (image : List ℕ) (state : State) (journal : Journal.Journal) → IsValid layout → IsBuilt layout image state
        → journal.moves ≡ [] → journal.answers ≡ [] → journal.events ≡ [] → journal.outputs ≡ [] → journal.stop ≡ None
        → KeepsJournal layout image [] state journal }
    ensures moves { (layout : Layout.Layout) (image : List ℕ) (past : History) (m : Move) (a : Answer) (event : Option Event) (outcome : RtTurn) (old new : State) (before after : Journal.Journal)
        → KeepsJournal layout image past old before → NamesMoveCause layout old new m a event outcome
        → HasOneMore layout past m a event outcome before after → KeepsJournal layout image ((m, a) ∷ past) new after }
{}

/// The break that a stop names stays named by each move: where the enclave had not stopped yet, the stop of the move is to name one.
pub fn breaks_stay_named()
    ensures { (layout : Layout.Layout) (image : List ℕ) (past : History) (m : Move) (a : Answer) (event : Option Event) (outcome : RtTurn) (old new : State) (before after : Journal.Journal)
        → KeepsJournal layout image past old before → NamesMoveCause layout old new m a event outcome
        → HasOneMore layout past m a event outcome before after
        → StopNamesBreak layout (runs_of layout image before) (turns_of layout before) before.stop
        → (before.stop ≡ None → StopNamesBreak layout (runs_of layout image after) (turns_of layout after) (stop_by layout past outcome))
        → StopNamesBreak layout (runs_of layout image after) (turns_of layout after) after.stop }
{}

/// So it does after each move that tells what its last turn tells: where the enclave dies of a break, the stop of the move names the access
/// that the runtime found in the saved frame, and that one forced the break.
pub fn stops_name_breaks()
    ensures { (layout : Layout.Layout) (image : List ℕ) (past : History) (m : Move) (a : Answer) (event : Option Event) (noted : Option Access) (outcome : RtTurn) (old new : State) (before after : Journal.Journal)
        → KeepsJournal layout image past old before → NamesMoveCause layout old new m a event outcome
        → TellsMove layout old new m a event noted outcome → HasOneMore layout past m a event outcome before after
        → StopNamesBreak layout (runs_of layout image before) (turns_of layout before) before.stop
        → StopNamesBreak layout (runs_of layout image after) (turns_of layout after) after.stop }
{}
