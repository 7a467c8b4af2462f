// EREMOVE, and the giving up of a sealed page.
ghost use Rattle.std.specs.Prelude.{◌≡◌, ℕ, ◌<◌, ◌==◌, if◌then◌else◌, is_some, None, true, false, length, slice_set, IfOk, IfErr, OnOk, OnErr};
ghost use Rattle.ak_core.specs.Layout.{Layout};
ghost use Rattle.ak_core.specs.declared.moves.Move.TheVariants.{Eremove, Discard};
ghost use Rattle.ak_model.specs.Control.LeafRows.{leaf_row, remove_row};
ghost use Rattle.ak_epcm.specs.Entries.{entry_at, free_entry};
ghost use Rattle.ak_model.specs.Kernels.Repeats.{is_done};
ghost use Rattle.ak_relation.specs.State.MachineState.{State};
ghost use Rattle.ak_relation.specs.State.MachineView.{view_in};
ghost use Rattle.ak_encls.specs.Answering.{answer_in, IsOutcome, KeepsRest, unless};
ghost use Rattle.ak_sealed.specs.SealedPages.{sealed_page_at};
ghost use Rattle.ak_encls.specs.Paging.{IsPaging, LeadsTo};

use crate::Encls;
use ak_core::{Answer, Frame, Handle, PageType};

impl Encls {
    /// Frees a frame (SDM volume 3D, EREMOVE). A page of the enclave stays while a processor is inside. The slots of a VA page are
    /// lost.
    pub(crate) fn remove(&mut self, f: Frame) -> Result<Answer, Answer>
        ensures row { (layout : Layout) (state : State) → IsPaging layout self.old state → answer_in result ≡ remove_row (view_in layout state) f.0 }
        ensures refused { OnErr result (self.new ≡ self.old) }
        ensures done { OnOk result ((layout : Layout) (state : State) → IsPaging layout self.old state → LeadsTo layout state (Eremove f) self.new) }
        ensures rest { KeepsRest self.old self.new (answer_in result) }
        ensures kind { IsOutcome result }
    {
        self.check_removable(f)?;
        self.free(f);
        Ok(Answer::Ok)
    }

    /// Gives up a sealed page (this project's own move).
    pub(crate) fn discard(&mut self, h: Handle) -> Result<Answer, Answer>
        ensures row { (layout : Layout) (state : State) → IsPaging layout self.old state → answer_in result ≡ leaf_row (view_in layout state) (Discard h) }
        ensures refused { OnErr result (self.new ≡ self.old) }
        ensures done { OnOk result ((layout : Layout) (state : State) → IsPaging layout self.old state → LeadsTo layout state (Discard h) self.new) }
        ensures rest { KeepsRest self.old self.new (answer_in result) }
        ensures kind { IsOutcome result }
    {
        if self.give_up(h) {
            Ok(Answer::Ok)
        } else {
            Err(Answer::NoHandle)
        }
    }

    // Gives up a sealed page. False where there was none, and then nothing changes.
    fn give_up(&mut self, h: Handle) -> bool
        ensures live { result ≡ is_some (sealed_page_at self.old.handles h.0) }
        ensures dead { result ≡ false → self.new ≡ self.old }
        ensures sealed_page { (k : ℕ) → sealed_page_at self.new.handles k ≡ (if k == h.0 then None else sealed_page_at self.old.handles k) }
        ensures next { length self.new.handles.sealed_pages ≡ length self.old.handles.sealed_pages }
        ensures spare { self.new.handles.spare ≡ self.old.handles.spare }
        ensures rest { self.new ≡ record self.old { handles = self.new.handles } }
    {
        self.sealed.discard(h)
    }

    // A frame in use is free.
    fn free(&mut self, f: Frame)
        requires valid { (entry_at self.old.entries f.0).valid ≡ true }
        ensures entries { self.new.entries ≡ slice_set self.old.entries f.0 free_entry }
        ensures rest { self.new ≡ record self.old { entries = self.new.entries } }
    {
        self.epcm.release(f);
    }

    // EREMOVE may free the frame.
    fn check_removable(&self, f: Frame) -> Result<(), Answer>
        ensures row { (layout : Layout) (state : State) → IsPaging layout self.now state
            → remove_row (view_in layout state) f.0 ≡ unless result Answer.Ok }
        ensures valid { IfOk result (λ _. (entry_at self.now.entries f.0).valid ≡ true) }
        ensures within { IfOk result (λ _. f.0 < length self.now.entries) }
        ensures refusal { IfErr result (λ refusal. is_done refusal ≡ false) }
    {
        self.check_frame(f)?;
        let entry = self.epcm.entry(f);
        if !entry.valid {
            return Err(Answer::Free);
        }
        match entry.kind {
            PageType::Secs => Err(Answer::IsSecs),
            PageType::Va => Ok(()),
            PageType::Reg | PageType::Tcs if self.track.is_active() => Err(Answer::EnclaveActive),
            PageType::Reg | PageType::Tcs => Ok(()),
        }
    }
}
