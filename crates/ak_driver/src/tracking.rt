// Who is inside, and which tracking cycle is the newest that is over (SDM volume 3D, ETRACK).
ghost use Rattle.std.specs.Prelude.{◌≡◌, ◌≤◌, [], None, find, is_some, slice_set};
ghost use Rattle.std.specs.List.{range_with_len};
ghost use Rattle.ak_core.specs.Layout.{Layout as Pages};
ghost use Rattle.ak_driver.specs.NotedCycles.{HasCycles, entered_after, entered_at, lp_number, newest_after, newest_over, with_entered};

use crate::changes::Change;
use ak_core::Lp;

/// The most logical processors that an enclave has.
const MAX_LPS: usize = 4;

/// Who is inside, and which cycles began.
///
/// A cycle waits for just those processors that entered before it and did not leave since. So the newest cycle that is over is
/// the newest that had begun when the first of those inside entered.
#[derive(Drop)]
pub(crate) struct Tracking {
    // The place of the newest cycle, or 0.
    newest: u64,
    // Of each processor inside: the place of the newest cycle when it entered, or 0.
    entered: [Option<u64>; MAX_LPS],
}

impl Tracking {
    /// Nobody is inside, and no cycle began.
    pub fn new() -> Tracking
        ensures { (layout : Pages) → layout.lps ≤ 4 → HasCycles result layout [] }
    {
        Tracking {
            newest: 0,
            entered: [None; MAX_LPS],
        }
    }

    /// One more change is told, at its place.
    pub fn note(&mut self, change: &Change, place: u64)
        ensures newest { self.new.newest ≡ newest_after change.now place self.old.newest }
        ensures entered { self.new.entered ≡ entered_after change.now self.old.newest self.old.entered }
    {
        match *change {
            Change::Cycles => self.newest = place,
            Change::Enters(lp, _) => self.enter(lp),
            Change::Resumes(lp) => self.enter(lp),
            Change::Exits(lp, _) => self.leave(lp),
            Change::Interrupts(lp) => self.leave(lp),
            _ => {}
        }
    }

    /// The first processor that is inside.
    pub fn first_inside(&self) -> Option<Lp>
        ensures { lp_number result ≡ find (λ lp. is_some (entered_at self.now.entered lp)) (range_with_len 0 4) }
    {
        for lp in 0..MAX_LPS {
            if self.entered[lp].is_some() {
                return Some(Lp(lp as u8));
            }
        }
        None
    }

    /// The place of the newest cycle that is over, or 0.
    pub fn newest_over(&self) -> u64
        ensures { result ≡ newest_over self.now.entered self.now.newest }
    {
        let mut newest = self.newest;
        for entered in self.entered {
            if let Some(before) = entered {
                newest = newest.min(before);
            }
        }
        newest
    }

    // A processor enters.
    fn enter(&mut self, lp: Lp)
        ensures newest { self.new.newest ≡ self.old.newest }
        ensures entered { self.new.entered ≡ with_entered self.old.entered lp.0 self.old.newest }
    {
        let q = usize::from(lp.0);
        if q < MAX_LPS && self.entered[q].is_none() {
            self.entered[q] = Some(self.newest);
        }
    }

    // A processor leaves.
    fn leave(&mut self, lp: Lp)
        ensures newest { self.new.newest ≡ self.old.newest }
        ensures entered { self.new.entered ≡ slice_set self.old.entered lp.0 None }
    {
        let q = usize::from(lp.0);
        if q < MAX_LPS {
            self.entered[q] = None;
        }
    }
}
