// EPA.
ghost use Rattle.std.specs.Prelude.{◌≡◌, ◌<◌, false, length, replicate, slice_set, OnOk, OnErr};
ghost use Rattle.ak_core.specs.Layout.{Layout};
ghost use Rattle.ak_core.specs.declared.moves.Move.TheVariants.{Epa};
ghost use Rattle.ak_model.specs.Control.LeafRows.{va_row};
ghost use Rattle.ak_relation.specs.State.MachineState.{State};
ghost use Rattle.ak_relation.specs.State.MachineView.{view_in};
ghost use Rattle.ak_encls.specs.Answering.{answer_in, IsOutcome, KeepsRest};
ghost use Rattle.ak_epcm.specs.Entries.{entry_at};
ghost use Rattle.ak_encls.specs.Building.{va_entry};
ghost use Rattle.ak_encls.specs.Enclave.{frame_at};
ghost use Rattle.ak_encls.specs.Paging.{IsPaging, LeadsTo};

use crate::Encls;
use ak_core::{Answer, Entry, Frame, PAGE_SIZE, Page, PageType};

/// The entry of a VA page.
const VA: Entry = Entry {
    valid: true,
    kind: PageType::Va,
    page: Page(0),
    r: false,
    w: false,
    x: false,
    blocked: false,
};

impl Encls {
    /// Makes a VA page of a free frame (SDM volume 3D, EPA). All its slots are empty.
    pub(crate) fn make_slots(&mut self, f: Frame) -> Result<Answer, Answer>
        ensures row { (layout : Layout) (state : State) → IsPaging layout self.old state → answer_in result ≡ va_row (view_in layout state) f.0 }
        ensures refused { OnErr result (self.new ≡ self.old) }
        ensures done { OnOk result ((layout : Layout) (state : State) → IsPaging layout self.old state → LeadsTo layout state (Epa f) self.new) }
        ensures rest { KeepsRest self.old self.new (answer_in result) }
        ensures kind { IsOutcome result }
    {
        self.check_free(f)?;
        self.add_va(f);
        Ok(Answer::Ok)
    }

    /// Makes a VA page of zeros of a free frame, as the build does, and EPA where it is not refused.
    pub fn add_va(&mut self, f: Frame)
        requires within { f.0 < length self.old.entries }
        requires free { (entry_at self.old.entries f.0).valid ≡ false }
        ensures entries { self.new.entries ≡ slice_set self.old.entries f.0 va_entry }
        ensures frames { self.new.frames ≡ slice_set self.old.frames f.0 (replicate (length (frame_at self.old.frames f.0)) 0) }
        ensures each_frame { f.0 < length self.old.frames }
        ensures rest { self.new ≡ record self.old { entries = self.new.entries; frames = self.new.frames } }
    {
        fill_zeros(&mut self.frames[f.0 as usize]);
        self.epcm.set(f, VA);
    }
}

// All bytes of a page are zero.
fn fill_zeros(page: &mut [u8; PAGE_SIZE])
    ensures { page.new ≡ replicate (length page.old) 0 }
{
    page.fill(0);
}
