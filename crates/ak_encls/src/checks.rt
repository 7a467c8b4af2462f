// What leaves check of frames and slots before they do anything.
ghost use Rattle.std.specs.Prelude.{◌≡◌, ◌<◌, true, false, length, IfOk, IfErr};
ghost use Rattle.ak_core.specs.Layout.{Layout};
ghost use Rattle.ak_core.specs.declared.moves.Answer.{Answer as Answers};
ghost use Rattle.ak_core.specs.declared.moves.Answer.TheVariants.{InUse, BadVa};
ghost use Rattle.ak_epcm.specs.Entries.{entry_at, is_of_page};
ghost use Rattle.ak_model.specs.Control.LeafRows.{frame_row, page_row, has_slot};
ghost use Rattle.ak_model.specs.Kernels.Repeats.{is_done};
ghost use Rattle.ak_model.specs.Paging.Holdings.{is_free};
ghost use Rattle.ak_relation.specs.State.MachineState.{State};
ghost use Rattle.ak_relation.specs.State.MachineView.{view_in};
ghost use Rattle.ak_encls.specs.Answering.{unless};
ghost use Rattle.ak_encls.specs.Paging.{IsPaging};
ghost use Rattle.ak_encls.specs.Sound.{is_slot, slot_in};
ghost use Rattle.std.specs.Prelude.{if◌then◌else◌};

use crate::Encls;
use ak_core::{Answer, Entry, Frame, PageType};
use ak_sealed::{SLOTS, slot};

impl Encls {
    /// The frame is one of the page cache's, and is not that of the SECS.
    pub(crate) fn check_frame(&self, f: Frame) -> Result<(), Answer>
        ensures row { (layout : Layout) (state : State) → IsPaging layout self.now state
            → (answer : Answers) → frame_row (view_in layout state) f.0 answer ≡ unless result answer }
        ensures within { IfOk result (λ _. f.0 < length self.now.entries) }
        ensures refusal { IfErr result (λ refusal. is_done refusal ≡ false) }
    {
        if f.0 as usize >= self.frames.len() {
            return Err(Answer::NotEpc);
        }
        if f.0 == 0 {
            return Err(Answer::IsSecs);
        }
        Ok(())
    }

    /// The frame is free.
    pub(crate) fn check_free(&self, f: Frame) -> Result<(), Answer>
        ensures row { (layout : Layout) (state : State) → IsPaging layout self.now state → (answer : Answers)
            → frame_row (view_in layout state) f.0 (if is_free ((view_in layout state).held f.0) then answer else InUse) ≡ unless result answer }
        ensures free { IfOk result (λ _. (entry_at self.now.entries f.0).valid ≡ false) }
        ensures within { IfOk result (λ _. f.0 < length self.now.entries) }
        ensures refusal { IfErr result (λ refusal. is_done refusal ≡ false) }
    {
        self.check_frame(f)?;
        if self.epcm.entry(f).valid {
            return Err(Answer::InUse);
        }
        Ok(())
    }

    /// The entry of a frame that holds a page of the enclave, a regular one or a TCS.
    pub(crate) fn page_entry(&self, f: Frame) -> Result<Entry, Answer>
        ensures row { (layout : Layout) (state : State) → IsPaging layout self.now state
            → (answer : Answers) → page_row (view_in layout state) f.0 answer ≡ unless result answer }
        ensures entry { IfOk result (λ entry. entry ≡ entry_at self.now.entries f.0) }
        ensures page { IfOk result (λ entry. is_of_page entry ≡ true) }
        ensures within { IfOk result (λ _. f.0 < length self.now.entries) }
        ensures refusal { IfErr result (λ refusal. is_done refusal ≡ false) }
    {
        self.check_frame(f)?;
        let entry = self.epcm.entry(f);
        if !entry.valid {
            return Err(Answer::Free);
        }
        match entry.kind {
            PageType::Secs => Err(Answer::IsSecs),
            PageType::Va => Err(Answer::WrongType),
            PageType::Reg | PageType::Tcs => Ok(entry),
        }
    }

    /// The handle in a slot of a VA page.
    pub(crate) fn slot_of(&self, va: Frame, i: u16) -> Result<Option<u64>, Answer>
        ensures row { (layout : Layout) (state : State) → IsPaging layout self.now state → (answer : Answers)
            → (if has_slot (view_in layout state) va.0 i then answer else BadVa) ≡ unless result answer }
        ensures slot { IfOk result (λ handle. handle ≡ slot_in self.now.entries self.now.frames va.0 i) }
        ensures is_slot { IfOk result (λ _. is_slot (entry_at self.now.entries va.0) i ≡ true) }
        ensures within { IfOk result (λ _. va.0 < length self.now.entries) }
        ensures refusal { IfErr result (λ refusal. is_done refusal ≡ false) }
    {
        let entry = self.epcm.entry(va);
        if !entry.valid || entry.kind != PageType::Va || i >= SLOTS {
            return Err(Answer::BadVa);
        }
        Ok(slot(&self.frames[va.0 as usize], i))
    }
}
