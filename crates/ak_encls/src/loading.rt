// ELDU and ELDB.
ghost use Rattle.std.specs.Prelude.{◌≡◌, ℕ, ◌*◌, ◌<◌, ◌&&◌, ◌==◌, false, List, Some, length, option_map, slice_set, IfOk, IfErr, OnOk, OnErr};
ghost use Rattle.ak_core.specs.Layout.{Layout};
ghost use Rattle.ak_model.specs.Control.LeafRows.{load_row};
ghost use Rattle.ak_model.specs.Kernels.Repeats.{is_done};
ghost use Rattle.ak_relation.specs.State.MachineState.{State};
ghost use Rattle.ak_relation.specs.State.MachineView.{view_in};
ghost use Rattle.ak_encls.specs.Answering.{answer_in, IsOutcome, KeepsRest, load_move, unless};
ghost use Rattle.ak_model.specs.Flat.Instructions.{number_at};
ghost use Rattle.ak_epcm.specs.Entries.{entry_at};
ghost use Rattle.ak_sealed.specs.SealedPages.{entry_of, sealed_page_at};
ghost use Rattle.ak_track.specs.Steps.{TrackStep};
ghost use Rattle.ak_track.specs.Tracking.{HoldsSteps, StampOf};
ghost use Rattle.ak_encls.specs.Enclave.{frame_at, stamp_at};
ghost use Rattle.ak_encls.specs.Paging.{IsPaging, LeadsTo};
ghost use Rattle.ak_encls.specs.Sound.{slot_in};

use crate::Encls;
use ak_core::{Answer, Entry, Frame, Handle, Page};
use ak_sealed::set_slot;

impl Encls {
    /// Loads a sealed page into a free frame (SDM volume 3D, ELDU; ELDB where it is to be blocked), if a slot of a VA page has the
    /// version of the handle and the page is the named one. The slot is empty then; the sealed page stays.
    pub(crate) fn load(
        &mut self,
        f: Frame,
        h: Handle,
        p: Page,
        va: Frame,
        i: u16,
        blocked: bool,
    ) -> Result<Answer, Answer>
        ensures row { (layout : Layout) (state : State) → IsPaging layout self.old state → answer_in result ≡ load_row (view_in layout state) f.0 h.0 p.0 va.0 i }
        ensures refused { OnErr result (self.new ≡ self.old) }
        ensures done { OnOk result ((layout : Layout) (state : State) → IsPaging layout self.old state → LeadsTo layout state (load_move f h p va i blocked) self.new) }
        ensures rest { KeepsRest self.old self.new (answer_in result) }
        ensures kind { IsOutcome result }
    {
        let entry = self.loadable(f, h, p, va, i)?;
        self.load_into(f, h, va, i, Entry { blocked, ..entry });
        Ok(Answer::Ok)
    }

    // The entry of the sealed page, where a load may put it into the frame.
    fn loadable(&self, f: Frame, h: Handle, p: Page, va: Frame, i: u16) -> Result<Entry, Answer>
        ensures row { (layout : Layout) (state : State) → IsPaging layout self.now state
            → load_row (view_in layout state) f.0 h.0 p.0 va.0 i ≡ unless result Answer.Ok }
        ensures sealed { IfOk result (λ entry. option_map (λ sealed_page. entry_of sealed_page false) (sealed_page_at self.now.handles h.0) ≡ Some entry) }
        ensures slot { IfOk result (λ _. slot_in self.now.entries self.now.frames va.0 i ≡ Some h.0) }
        ensures free { IfOk result (λ _. (entry_at self.now.entries f.0).valid ≡ false) }
        ensures within { IfOk result (λ _. f.0 < length self.now.entries) }
        ensures refusal { IfErr result (λ refusal. is_done refusal ≡ false) }
    {
        self.check_free(f)?;
        let version = self.slot_of(va, i)?;
        let Some(entry) = self.find(h) else {
            return Err(Answer::NoHandle);
        };
        match version {
            None => Err(Answer::SlotEmpty),
            Some(version) if is_of(version, h, entry, p) => Ok(entry),
            Some(_) => Err(Answer::MacFail),
        }
    }

    // The entry of a sealed page, if the handle is live.
    fn find(&self, h: Handle) -> Option<Entry>
        ensures { result ≡ option_map (λ sealed_page. entry_of sealed_page false) (sealed_page_at self.now.handles h.0) }
    {
        self.sealed.find(h)
    }

    // Puts the bytes of a sealed page into a free frame, with this entry, and empties the slot that names the page.
    fn load_into(&mut self, f: Frame, h: Handle, va: Frame, i: u16, entry: Entry)
        requires within { f.0 < length self.old.entries }
        requires free { (entry_at self.old.entries f.0).valid ≡ false }
        requires slot { slot_in self.old.entries self.old.frames va.0 i ≡ Some h.0 }
        requires sealed { option_map (λ sealed_page. entry_of sealed_page entry.blocked) (sealed_page_at self.old.handles h.0) ≡ Some entry }
        ensures entries { self.new.entries ≡ slice_set self.old.entries f.0 entry }
        ensures bytes { option_map (λ sealed_page. sealed_page.bytes) (sealed_page_at self.old.handles h.0) ≡ Some (frame_at self.new.frames f.0) }
        ensures slot { number_at (frame_at self.new.frames va.0) (8 * i) 8 ≡ 0 }
        ensures slots { (j : ℕ) → (j == i) ≡ false
            → number_at (frame_at self.new.frames va.0) (8 * j) 8 ≡ number_at (frame_at self.old.frames va.0) (8 * j) 8 }
        ensures others { (g : ℕ) → (g == f.0) ≡ false → (g == va.0) ≡ false → frame_at self.new.frames g ≡ frame_at self.old.frames g }
        ensures lengths { (g : ℕ) → (g == f.0) ≡ false → length (frame_at self.new.frames g) ≡ length (frame_at self.old.frames g) }
        ensures count { length self.new.frames ≡ length self.old.frames }
        ensures stamp { (lps : ℕ) (steps : List TrackStep) → HoldsSteps self.old.track lps steps
            → StampOf (stamp_at self.new.stamps f.0) lps steps (length steps) }
        ensures stamps { self.new.stamps ≡ slice_set self.old.stamps f.0 (stamp_at self.new.stamps f.0) }
        ensures rest { self.new ≡ record self.old { entries = self.new.entries; frames = self.new.frames; stamps = self.new.stamps } }
    {
        self.sealed.copy_out(h, &mut self.frames[f.0 as usize]);
        set_slot(&mut self.frames[va.0 as usize], i, None);
        self.stamps[f.0 as usize] = self.track.stamp();
        self.epcm.set(f, entry);
    }
}

// The version in a slot is that of the handle, and its page is the named one.
fn is_of(version: u64, h: Handle, entry: Entry, p: Page) -> bool
    ensures { result ≡ ((version == h.0) && (entry.page.0 == p.0)) }
{
    version == u64::from(h.0) && entry.page == p
}
