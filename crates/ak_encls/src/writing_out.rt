// EWB.
ghost use Rattle.std.specs.Prelude.{◌≡◌, ℕ, ◌+◌, ◌*◌, ◌<◌, ◌==◌, if◌then◌else◌, true, false, Some, List, length, slice_set, IfOk, IfErr, OnOk, OnErr};
ghost use Rattle.ak_core.specs.Layout.{Layout};
ghost use Rattle.ak_core.specs.declared.moves.Move.TheVariants.{Ewb};
ghost use Rattle.ak_model.specs.Control.LeafRows.{write_out_row};
ghost use Rattle.ak_model.specs.Kernels.Repeats.{is_done};
ghost use Rattle.ak_relation.specs.State.MachineState.{State};
ghost use Rattle.ak_relation.specs.State.MachineView.{view_in};
ghost use Rattle.ak_encls.specs.Answering.{answer_in, IsOutcome, KeepsRest, unless};
ghost use Rattle.ak_model.specs.Flat.Instructions.{number_at};
ghost use Rattle.ak_epcm.specs.Entries.{entry_at, free_entry, is_of_page};
ghost use Rattle.ak_track.specs.Steps.{TrackStep, tracked_by};
ghost use Rattle.ak_track.specs.Tracking.{HoldsSteps, StampOf};
ghost use Rattle.ak_sealed.specs.SealedPages.{sealed_page_at, sealed_page_of};
ghost use Rattle.ak_encls.specs.Enclave.{frame_at, stamp_at};
ghost use Rattle.ak_encls.specs.Paging.{IsPaging, LeadsTo};
ghost use Rattle.ak_encls.specs.Sound.{is_slot};

use crate::Encls;
use ak_core::{Answer, Frame, Handle};
use ak_sealed::set_slot;

impl Encls {
    /// Writes a frame's page out (SDM volume 3D, EWB): it is sealed under the next handle, whose version comes into a slot of a VA
    /// page, and the frame is free. The page was blocked, and each processor that was inside has left since.
    pub(crate) fn write_out(&mut self, f: Frame, va: Frame, i: u16) -> Result<Answer, Answer>
        requires spare { 0 < self.old.handles.spare }
        ensures row { (layout : Layout) (state : State) → IsPaging layout self.old state → answer_in result ≡ write_out_row (view_in layout state) f.0 va.0 i }
        ensures refused { OnErr result (self.new ≡ self.old) }
        ensures done { OnOk result ((layout : Layout) (state : State) → IsPaging layout self.old state → LeadsTo layout state (Ewb f va i) self.new) }
        ensures rest { KeepsRest self.old self.new (answer_in result) }
        ensures kind { IsOutcome result }
    {
        self.check_write_out(f, va, i)?;
        let handle = self.seal_into(f, va, i);
        Ok(Answer::OkHandle(handle))
    }

    // EWB may write the frame out into the slot.
    fn check_write_out(&self, f: Frame, va: Frame, i: u16) -> Result<(), Answer>
        ensures row { (layout : Layout) (state : State) → IsPaging layout self.now state
            → write_out_row (view_in layout state) f.0 va.0 i ≡ unless result (Answer.OkHandle (record { 0 = length self.now.handles.sealed_pages })) }
        ensures page { IfOk result (λ _. is_of_page (entry_at self.now.entries f.0) ≡ true) }
        ensures slot { IfOk result (λ _. is_slot (entry_at self.now.entries va.0) i ≡ true) }
        ensures within { IfOk result (λ _. f.0 < length self.now.entries) }
        ensures refusal { IfErr result (λ refusal. is_done refusal ≡ false) }
    {
        if !self.page_entry(f)?.blocked {
            return Err(Answer::NotBlocked);
        }
        if !self.is_tracked(f) {
            return Err(Answer::NotTracked);
        }
        match self.slot_of(va, i)? {
            Some(_) => Err(Answer::SlotOccupied),
            None => Ok(()),
        }
    }

    // A cycle that began after the frame was stamped is over.
    fn is_tracked(&self, f: Frame) -> bool
        requires { f.0 < length self.now.entries }
        ensures { (lps : ℕ) (steps : List TrackStep) (place : ℕ) → HoldsSteps self.now.track lps steps
            → StampOf (stamp_at self.now.stamps f.0) lps steps place → result ≡ tracked_by lps steps (Some place) }
    {
        self.track.tracked(self.stamps[f.0 as usize])
    }

    /// Seals the page of a frame under the next handle, whose version comes into an empty slot of a VA page. The frame is free then.
    pub(crate) fn seal_into(&mut self, f: Frame, va: Frame, i: u16) -> Handle
        requires spare { 0 < self.old.handles.spare }
        requires page { is_of_page (entry_at self.old.entries f.0) ≡ true }
        requires slot { is_slot (entry_at self.old.entries va.0) i ≡ true }
        ensures handle { result.0 ≡ length self.old.handles.sealed_pages }
        ensures entries { self.new.entries ≡ slice_set self.old.entries f.0 free_entry }
        ensures slot { number_at (frame_at self.new.frames va.0) (8 * i) 8 ≡ length self.old.handles.sealed_pages + 1 }
        ensures slots { (j : ℕ) → (j == i) ≡ false
            → number_at (frame_at self.new.frames va.0) (8 * j) 8 ≡ number_at (frame_at self.old.frames va.0) (8 * j) 8 }
        ensures others { (g : ℕ) → (g == va.0) ≡ false → frame_at self.new.frames g ≡ frame_at self.old.frames g }
        ensures lengths { (g : ℕ) → length (frame_at self.new.frames g) ≡ length (frame_at self.old.frames g) }
        ensures count { length self.new.frames ≡ length self.old.frames }
        ensures sealed_page { (k : ℕ) → sealed_page_at self.new.handles k
            ≡ (if k == length self.old.handles.sealed_pages then Some (sealed_page_of (entry_at self.old.entries f.0) (frame_at self.old.frames f.0)) else sealed_page_at self.old.handles k) }
        ensures next { length self.new.handles.sealed_pages ≡ length self.old.handles.sealed_pages + 1 }
        ensures spare { self.new.handles.spare + 1 ≡ self.old.handles.spare }
        ensures rest { self.new ≡ record self.old { entries = self.new.entries; frames = self.new.frames; handles = self.new.handles } }
    {
        let entry = self.epcm.entry(f);
        let handle = self.sealed.put(entry, &self.frames[f.0 as usize]);
        self.epcm.release(f);
        set_slot(&mut self.frames[va.0 as usize], i, Some(handle));
        handle
    }
}
