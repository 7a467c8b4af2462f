// ETRACK.
ghost use Rattle.std.specs.Prelude.{◌≡◌, ◌+◌, ◌^◌, ◌<◌, if◌then◌else◌, OnOk, OnErr};
ghost use Rattle.ak_core.specs.Layout.{Layout};
ghost use Rattle.ak_core.specs.declared.moves.Move.TheVariants.{Etrack};
ghost use Rattle.ak_model.specs.Control.LeafRows.{leaf_row};
ghost use Rattle.ak_relation.specs.State.MachineState.{State};
ghost use Rattle.ak_relation.specs.State.MachineView.{view_in};
ghost use Rattle.ak_encls.specs.Answering.{answer_in, IsOutcome, KeepsRest};
ghost use Rattle.ak_encls.specs.Paging.{IsPaging, LeadsTo};

use crate::Encls;
use ak_core::Answer;
use ak_track::Incomplete;

impl Encls {
    /// Begins a cycle of tracking (SDM volume 3D, ETRACK), which waits for each processor that is inside. Fewer than 2^63 are
    /// told apart.
    pub(crate) fn begin_cycle(&mut self) -> Result<Answer, Answer>
        ensures row { (layout : Layout) (state : State) → IsPaging layout self.old state → answer_in result ≡ leaf_row (view_in layout state) Etrack }
        ensures refused { OnErr result (self.new ≡ self.old) }
        ensures done { OnOk result ((layout : Layout) (state : State) → IsPaging layout self.old state
            → self.old.track.cycles < 2 ^ 63 → LeadsTo layout state Etrack self.new) }
        ensures rest { KeepsRest self.old self.new (answer_in result) }
        ensures kind { IsOutcome result }
    {
        match self.track.cycle() {
            Ok(()) => Ok(Answer::Ok),
            Err(Incomplete) => Err(Answer::PrevIncomplete),
        }
    }
}
