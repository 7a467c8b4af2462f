// The leaf instructions of the kernel.
ghost use Rattle.std.specs.Prelude.{◌≡◌, ◌^◌, ◌<◌, true, false};
ghost use Rattle.ak_core.specs.Layout.{Layout};
ghost use Rattle.ak_model.specs.Control.LeafRows.{is_leaf, leaf_row};
ghost use Rattle.ak_model.specs.Kernels.Repeats.{is_done};
ghost use Rattle.ak_relation.specs.State.MachineState.{State};
ghost use Rattle.ak_relation.specs.State.MachineView.{view_in};
ghost use Rattle.ak_encls.specs.Answering.{answer_in, is_write_out, IsCounted, KeepsRest};
ghost use Rattle.ak_encls.specs.Paging.{IsPaging, LeadsTo};

use crate::Encls;
use ak_core::{Answer, Move};

impl Encls {
    /// Does a leaf instruction of the kernel, from EBLOCK to the giving up of a sealed page, or refuses it and changes nothing. It
    /// takes no memory: a write-out needs a spare. Fewer than 2^63 cycles of ETRACK are told apart.
    pub fn leaf(&mut self, m: &Move) -> Answer
        requires leaf { is_leaf m.now ≡ true }
        requires spare { is_write_out m.now ≡ true → 0 < self.old.handles.spare }
        ensures row { (layout : Layout) (state : State) → IsPaging layout self.old state → result ≡ leaf_row (view_in layout state) m.now }
        ensures refused { is_done result ≡ false → self.new ≡ self.old }
        ensures done { is_done result ≡ true → (layout : Layout) (state : State) → IsPaging layout self.old state → IsCounted m.now self.old.track.cycles → LeadsTo layout state m.now self.new }
        ensures rest { KeepsRest self.old self.new result }
    {
        match *m {
            Move::Eblock(f) => answered(self.block(f)),
            Move::Etrack => answered(self.begin_cycle()),
            Move::Ewb(f, va, i) => answered(self.write_out(f, va, i)),
            Move::Eldu(f, h, p, va, i) => answered(self.load(f, h, p, va, i, false)),
            Move::Eldb(f, h, p, va, i) => answered(self.load(f, h, p, va, i, true)),
            Move::Eremove(f) => answered(self.remove(f)),
            Move::Epa(f) => answered(self.make_slots(f)),
            Move::Discard(h) => answered(self.discard(h)),
            _ => unreachable!(),
        }
    }
}

/// What a leaf came to, done or refused.
fn answered(outcome: Result<Answer, Answer>) -> Answer
    ensures { result ≡ answer_in outcome }
{
    match outcome {
        Ok(answer) => answer,
        Err(refusal) => refusal,
    }
}
