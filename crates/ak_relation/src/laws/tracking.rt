// A law on tracking by steps.
ghost use Rattle.ak_model.specs.Paging.Histories.{History};
ghost use Rattle.ak_model.specs.Paging.Tracking.{incomplete, tracked};
ghost use Rattle.ak_track.specs.Steps.{Cycled, incomplete_by, tracked_by};
ghost use Rattle.ak_relation.specs.State.TrackSteps.{stamp_of, steps_of};
ghost use Rattle.std.specs.Prelude.{Some, replicate, ℕ, ◌++◌, ◌+◌, ◌≡◌};
ghost use Rattle.ak_core.specs.Layout;

/// By the steps alone, over any number of cycles of the build, a blocked frame is tracked by its stamp just where it is tracked, and
/// the last cycle is over just where it is.
pub fn steps_track()
    ensures tracks { (layout : Layout.Layout) (built : ℕ) (past : History) (f stamp : ℕ) → stamp_of past f ≡ Some stamp
        → tracked layout past f ≡ tracked_by layout.lps (steps_of past ++ replicate built Cycled) (Some (built + stamp)) }
    ensures last { (layout : Layout.Layout) (built : ℕ) (past : History)
        → incomplete layout past ≡ incomplete_by layout.lps (steps_of past ++ replicate built Cycled) }
{}
