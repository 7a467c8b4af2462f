// EBLOCK.
ghost use Rattle.std.specs.Prelude.{◌≡◌, ℕ, true, List, length, slice_set, OnOk, OnErr};
ghost use Rattle.ak_core.specs.Layout.{Layout};
ghost use Rattle.ak_core.specs.declared.moves.Move.TheVariants.{Eblock};
ghost use Rattle.ak_model.specs.Control.LeafRows.{block_row};
ghost use Rattle.ak_relation.specs.State.MachineState.{State};
ghost use Rattle.ak_relation.specs.State.MachineView.{view_in};
ghost use Rattle.ak_encls.specs.Answering.{answer_in, IsOutcome, KeepsRest};
ghost use Rattle.ak_epcm.specs.Entries.{entry_at};
ghost use Rattle.ak_track.specs.Steps.{TrackStep};
ghost use Rattle.ak_track.specs.Tracking.{HoldsSteps, StampOf};
ghost use Rattle.ak_encls.specs.Enclave.{stamp_at};
ghost use Rattle.ak_encls.specs.Paging.{IsPaging, LeadsTo};

use crate::Encls;
use ak_core::{Answer, Frame};

impl Encls {
    /// Blocks a frame's page (SDM volume 3D, EBLOCK): no new translation to it is made. The frame is stamped with the place among the
    /// steps of tracking.
    pub(crate) fn block(&mut self, f: Frame) -> Result<Answer, Answer>
        ensures row { (layout : Layout) (state : State) → IsPaging layout self.old state → answer_in result ≡ block_row (view_in layout state) f.0 }
        ensures refused { OnErr result (self.new ≡ self.old) }
        ensures done { OnOk result ((layout : Layout) (state : State) → IsPaging layout self.old state → LeadsTo layout state (Eblock f) self.new) }
        ensures rest { KeepsRest self.old self.new (answer_in result) }
        ensures kind { IsOutcome result }
    {
        if self.page_entry(f)?.blocked {
            return Err(Answer::Blocked);
        }
        self.mark_blocked(f);
        Ok(Answer::Ok)
    }

    // Blocks a frame in use, and stamps it.
    fn mark_blocked(&mut self, f: Frame)
        requires valid { (entry_at self.old.entries f.0).valid ≡ true }
        ensures entries { self.new.entries ≡ slice_set self.old.entries f.0 (record (entry_at self.old.entries f.0) { blocked = true }) }
        ensures stamp { (lps : ℕ) (steps : List TrackStep) → HoldsSteps self.old.track lps steps
            → StampOf (stamp_at self.new.stamps f.0) lps steps (length steps) }
        ensures stamps { self.new.stamps ≡ slice_set self.old.stamps f.0 (stamp_at self.new.stamps f.0) }
        ensures rest { self.new ≡ record self.old { entries = self.new.entries; stamps = self.new.stamps } }
    {
        self.stamps[f.0 as usize] = self.track.stamp();
        self.epcm.block(f);
    }
}
