// Who is inside, and for whom the newest cycle waits.
ghost use Rattle.std.specs.Prelude.{◌≡◌, ◌+◌, ◌^◌, ◌<◌, ◌≤◌, ℕ, List, [], ◌∷◌, Some, OnOk, OnErr, is_err, length};
ghost use Rattle.std.specs.List.{list_any, range_with_len};
ghost use Rattle.ak_track.specs.Steps.{TrackStep, EntersBy, LeavesBy, Cycled, inside_by, cycles_by, tracked_by, incomplete_by};
ghost use Rattle.ak_track.specs.Tracking.{HoldsSteps, StampOf};

use ak_core::Lp;
use std::marker::Model;

/// The most logical processors that an enclave has.
pub const MAX_LPS: usize = 4;

/// The last cycle still waits for a processor.
#[derive(Clone, Copy, PartialEq, Eq, Debug)]
pub struct Incomplete;

/// A place among the steps, told by how many cycles began before it.
#[derive(Clone, Copy, PartialEq, Eq, Debug)]
pub struct Stamp {
    cycles: u64,
}

/// What tracking keeps of its steps. It takes no memory.
///
/// Contracts speak of each list of steps, newest first, for which it stands. A cycle begins only when the last one is over, so
/// only the newest can wait for a processor.
#[derive(Drop)]
pub struct Track {
    lps: u8,
    inside: [bool; MAX_LPS],
    waiting: [bool; MAX_LPS],
    cycles: u64,
}

impl Model for Track {
    ghost use Rattle.std.specs.Prelude.{◌≤◌};
    ghost use Rattle.ak_track.specs.Tracking.{Marks};

    ghost Value = { Marks };

    ghost view = { λ t. record { lps = t.lps; inside = t.inside; waiting = t.waiting; cycles = t.cycles } };

    ghost invariant = { λ t. t.lps ≤ 4 };
}

impl Track {
    /// No step yet, of so many processors: 4 at most.
    pub fn new(lps: u8) -> Track
        requires { lps ≤ 4 }
        ensures { HoldsSteps result lps [] }
    {
        Track {
            lps,
            inside: [false; MAX_LPS],
            waiting: [false; MAX_LPS],
            cycles: 0,
        }
    }

    /// A processor enters.
    pub fn enter(&mut self, lp: Lp)
        ensures { (lps : ℕ) (steps : List TrackStep) → HoldsSteps self.old lps steps → HoldsSteps self.new lps (EntersBy lp.0 ∷ steps) }
    {
        if lp.0 < self.lps {
            self.inside[usize::from(lp.0)] = true;
        }
    }

    /// A processor leaves.
    pub fn leave(&mut self, lp: Lp)
        ensures { (lps : ℕ) (steps : List TrackStep) → HoldsSteps self.old lps steps → HoldsSteps self.new lps (LeavesBy lp.0 ∷ steps) }
    {
        if lp.0 < self.lps {
            self.inside[usize::from(lp.0)] = false;
            self.waiting[usize::from(lp.0)] = false;
        }
    }

    /// A cycle begins, which waits for each processor that is inside. It is refused while the last one waits, and then nothing
    /// changes. Fewer than 2^64 cycles are told apart.
    pub fn cycle(&mut self) -> Result<(), Incomplete>
        ensures incomplete { (lps : ℕ) (steps : List TrackStep) → HoldsSteps self.old lps steps → is_err result ≡ incomplete_by lps steps }
        ensures err { OnErr result (self.new ≡ self.old) }
        ensures ok { OnOk result ((lps : ℕ) (steps : List TrackStep) → HoldsSteps self.old lps steps
            → length (cycles_by lps steps) + 1 < 2 ^ 64 → HoldsSteps self.new lps (Cycled ∷ steps)) }
        ensures most { self.new.cycles ≤ self.old.cycles + 1 }
    {
        if self.waits() {
            return Err(Incomplete);
        }
        self.waiting = self.inside;
        self.cycles = self.cycles.saturating_add(1);
        Ok(())
    }

    /// The stamp of the place after the newest step.
    pub fn stamp(&self) -> Stamp
        ensures { (lps : ℕ) (steps : List TrackStep) → HoldsSteps self.now lps steps → StampOf result lps steps (length steps) }
    {
        Stamp {
            cycles: self.cycles,
        }
    }

    /// A cycle that began after the stamp's place is over: each processor that was inside then has left since.
    pub fn tracked(&self, stamp: Stamp) -> bool
        ensures { (lps : ℕ) (steps : List TrackStep) (place : ℕ) → HoldsSteps self.now lps steps → StampOf stamp lps steps place
            → result ≡ tracked_by lps steps (Some place) }
    {
        // all cycles are over but the newest, which may wait
        let over = if self.waits() {
            self.cycles.saturating_sub(1)
        } else {
            self.cycles
        };
        stamp.cycles < over
    }

    /// Some processor is inside.
    pub fn is_active(&self) -> bool
        ensures { (lps : ℕ) (steps : List TrackStep) → HoldsSteps self.now lps steps
            → result ≡ list_any (inside_by steps) (range_with_len 0 lps) }
    {
        self.has_marked_inside()
    }

    // Some processor is marked as inside.
    fn has_marked_inside(&self) -> bool
        ensures { result ≡ list_any (λ inside. inside) self.now.inside }
    {
        self.inside.iter().any(|inside| *inside)
    }

    // The newest cycle waits for a processor.
    fn waits(&self) -> bool
        ensures { result ≡ list_any (λ waits. waits) self.now.waiting }
    {
        self.waiting.iter().any(|waits| *waits)
    }
}
