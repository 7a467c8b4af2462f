// The honest kernel.
ghost use Rattle.std.specs.Prelude.{◌≡◌, [], ◌∷◌, IfOk};
ghost use Rattle.ak_core.specs.Layout.{Layout as Pages};
ghost use Rattle.ak_model.specs.Kernels.HonestKernel.{drive, given_by};
ghost use Rattle.ak_model.specs.Paging.Histories.{History, change};
ghost use Rattle.ak_driver.specs.Duties.{rules_by};
ghost use Rattle.ak_driver.specs.Notes.{IsPlausible, Notes, refuses};

use crate::changes::change_by;
use crate::counts::Counts;
use crate::repeats::{is_done, is_same};
use crate::requests::Requests;
use crate::tables::Tables;
use crate::tracking::Tracking;
use ak_core::{Answer, Layout, Lp, Move, OutOfMemory};
use std::alloc::Global;

/// How many turns a run is given.
const TURNS: u32 = 1000;

/// How many contexts may be saved.
const MAX_SAVED: u64 = 3;

/// The honest kernel: it is told each move with its answer, and gives the next move.
///
/// Contracts speak of each history for which it stands. It keeps what the next move is read from, so that giving it costs no more
/// than the frames and pages that are looked at.
#[derive(Drop)]
pub struct Driver {
    pub(crate) tables: Tables,
    pub(crate) tracking: Tracking,
    counts: Counts,
    pub(crate) requests: Requests,
    place: u64,
    refused: Option<Move>,
}

impl Driver {
    /// Nothing was told yet. It takes all the memory that it will need.
    pub fn new(alloc: Global, layout: &Layout) -> Result<Driver, OutOfMemory>
        ensures { IfOk result (λ driver. Notes driver layout.now []) }
    {
        let tables = Tables::new(alloc, layout)?;
        Ok(Driver {
            tables,
            tracking: Tracking::new(),
            counts: Counts::new(),
            requests: Requests::new(),
            place: 0,
            refused: None,
        })
    }

    /// One more move is told, with its answer. What the answer names has to be there, fewer than 2^31 moves were told before, and 512
    /// clusters at most are in after it.
    pub fn note(&mut self, m: &Move, a: &Answer)
        ensures { (layout : Pages) (past : History) → Notes self.old layout past → IsPlausible layout past (change m.now a.now)
            → Notes self.new layout ((m.now, a.now) ∷ past) }
    {
        let change = change_by(m, a);
        self.place = self.place.saturating_add(1);
        self.tables.note(&change, self.place);
        self.tracking.note(&change, self.place);
        self.counts.note(&change);
        self.requests.note(&change);
        self.refused = if is_done(a) { None } else { Some(*m) };
    }

    /// The next move, if there is one, with these inputs for the program at hand.
    pub fn next(&self, layout: &Layout, inputs: &[u64]) -> Option<Move>
        ensures { (past : History) → Notes self.now layout.now past → result ≡ drive layout.now past inputs.now }
    {
        match self.ruled(layout, inputs) {
            Some(m) => { if self.was_refused(&m) { None } else { Some(m) } }
            None => None,
        }
    }

    // This very move was refused just now.
    fn was_refused(&self, m: &Move) -> bool
        ensures { result ≡ refuses self.now.refused m.now }
    {
        match self.refused {
            Some(refused) => is_same(&refused, m),
            None => false,
        }
    }

    // The move that the rules give.
    fn ruled(&self, layout: &Layout, inputs: &[u64]) -> Option<Move>
        ensures { result ≡ given_by (rules_by self.now layout.now inputs.now) }
    {
        if self.counts.is_ended {
            return None;
        }
        if let Some(lp) = self.tracking.first_inside() {
            return Some(Move::Run(lp, TURNS));
        }
        if self.counts.is_pending {
            return if self.counts.saved == MAX_SAVED {
                None
            } else {
                Some(Move::Eenter(Lp(0), 0))
            };
        }
        if self.counts.saved == 0 {
            return Some(Move::Eenter(Lp(0), self.counts.next_value(inputs)));
        }
        if self.counts.saved == 1 {
            if let Some(c) = self.requests.asked() {
                return self.serve(layout, c);
            }
        }
        Some(Move::Eresume(Lp(0)))
    }
}
