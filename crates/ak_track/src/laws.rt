// Laws on the places of stamps.
ghost use Rattle.ak_track.specs.Steps.{TrackStep};
ghost use Rattle.ak_track.specs.Tracking.{StampOf};
ghost use Rattle.ak_track.specs.declared.track.Stamp.{Stamp};
ghost use Rattle.std.specs.Prelude.{List, ◌∷◌, ℕ};

/// A stamp stays that of its place, whatever the next step is.
pub fn stamps_stay()
    ensures { (stamp : Stamp) (lps : ℕ) (steps : List TrackStep) (place : ℕ) (step : TrackStep) → StampOf stamp lps steps place
        → StampOf stamp lps (step ∷ steps) place }
{}
