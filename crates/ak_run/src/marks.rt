// What is kept to blame a stop.
ghost use Rattle.std.specs.Prelude.{◌≡◌, ◌+◌, ◌*◌, ◌<◌, ◌≤◌, ◌^◌, [], true, length, replicate, slice_index, slice_set, IfOk, if◌then◌else◌};
ghost use Rattle.ak_core.specs.Layout.{Layout};
ghost use Rattle.ak_core.specs.Mem.{Access};
ghost use Rattle.ak_model.specs.Kernels.Counted.{saved_after};
ghost use Rattle.ak_model.specs.Paging.Histories.{History, change};
ghost use Rattle.ak_model.specs.Stops.Blame.{blame, enters_at_one, faults, resumes};
ghost use Rattle.ak_relation.specs.Relation.Stopping.{stop_by};
ghost use Rattle.ak_turns.specs.Running.{outcome_of};
ghost use Rattle.ak_run.specs.Blaming.{Marked, access_number};
ghost use Rattle.ak_run.specs.Watching.{watches};

use crate::watch::Watch;
use ak_core::{Answer, Exit, Fault, Kind, Move, OutOfMemory, Page, Stop, StopCause};
use ak_turns::RuntimeNote;
use std::alloc::Global;
use std::marker::Model;

/// With so many contexts saved, a fault of the runtime leaves no room for another.
const ALMOST_FULL: u32 = 2;

/// The places at which accesses were lost last, now and at the last page fault, and those of the last entering at CSSA 1 and of the
/// last resuming. A place is the number of a move, from 1, or 0 where there is none.
///
/// Contracts see it as the record of these numbers.
#[derive(Drop)]
pub(crate) struct Marks {
    lost: Vec<u32>,
    lost_at_fault: Vec<u32>,
    returned: u32,
    resumed: u32,
    saved: u32,
}

impl Model for Marks {
    ghost use Rattle.std.specs.Prelude.{◌≡◌, vec_len};
    ghost use Rattle.ak_run.specs.Blaming as blaming;

    ghost Value = { blaming.Marks };

    ghost view = { λ m. record {
      lost = m.lost.items;
      lost_at_fault = m.lost_at_fault.items;
      returned = m.returned;
      resumed = m.resumed;
      saved = m.saved;
    } };

    ghost invariant = { λ m. vec_len m.lost ≡ vec_len m.lost_at_fault };
}

impl Marks {
    /// Nothing has happened yet to an enclave of so many pages.
    pub fn new(alloc: Global, pages: u32) -> Result<Marks, OutOfMemory>
        ensures lost { IfOk result (λ marks. marks.lost ≡ replicate (3 * pages) 0) }
        ensures lost_at_fault { IfOk result (λ marks. marks.lost_at_fault ≡ replicate (3 * pages) 0) }
        ensures returned { IfOk result (λ marks. marks.returned ≡ 0) }
        ensures resumed { IfOk result (λ marks. marks.resumed ≡ 0) }
        ensures saved { IfOk result (λ marks. marks.saved ≡ 0) }
    {
        let accesses = 3 * pages as usize;
        let Ok(lost) = vec![in alloc; 0; accesses] else {
            return Err(OutOfMemory);
        };
        let Ok(lost_at_fault) = vec![in alloc; 0; accesses] else {
            return Err(OutOfMemory);
        };
        Ok(Marks {
            lost,
            lost_at_fault,
            returned: 0,
            resumed: 0,
            saved: 0,
        })
    }

    /// The stop that a move comes to by what the runtime did, with the move to blame, as the marks before it say.
    pub fn stop(&self, note: RuntimeNote) -> Option<Stop>
        ensures { (layout : Layout) (past : History) → Marked layout past self.now → result ≡ stop_by layout past (outcome_of note) }
    {
        match note {
            RuntimeNote::Quiet => None,
            RuntimeNote::Dead(cause) => Some(self.stop_for(cause)),
            RuntimeNote::Faulted(access) => {
                if self.saved == ALMOST_FULL {
                    Some(self.stop_for(StopCause::Stuck(access.page, access.kind)))
                } else {
                    None
                }
            }
        }
    }

    /// The stop for a cause.
    fn stop_for(&self, cause: StopCause) -> Stop
        ensures cause { result.cause ≡ cause }
        ensures blame { (layout : Layout) (past : History) → Marked layout past self.now → result.blame ≡ blame layout past cause }
    {
        let blame = match cause {
            StopCause::Unmapped(page, kind) | StopCause::RuntimeUnmapped(page, kind) => {
                place_of(&self.lost_at_fault, Fault { page, kind })
            }
            StopCause::FetchNotHonoured(page, kind) => {
                self.returned
                    .max(place_of(&self.lost_at_fault, Fault { page, kind }))
            }
            StopCause::ResumedEarly => self.resumed,
            StopCause::Stuck(page, kind) => place_of(&self.lost, Fault { page, kind }),
        };
        Stop { cause, blame }
    }

    /// A move is told, with its answer and its place, before the accesses that it lost. Fewer than 2^32 contexts are counted.
    pub fn note(&mut self, m: &Move, a: &Answer, place: u32)
        requires { self.old.saved + 1 < 2 ^ 32 }
        ensures lost { self.new.lost ≡ self.old.lost }
        ensures lost_at_fault { self.new.lost_at_fault ≡ (if faults (change m.now a.now) then self.old.lost else self.old.lost_at_fault) }
        ensures returned { self.new.returned ≡ (if enters_at_one (change m.now a.now) self.old.saved then place else self.old.returned) }
        ensures resumed { self.new.resumed ≡ (if resumes (change m.now a.now) then place else self.old.resumed) }
        ensures saved { self.new.saved ≡ saved_after (change m.now a.now) self.old.saved }
    {
        match (m, a) {
            (Move::Eenter(_, _), Answer::Ok) => {
                if self.saved == 1 {
                    self.returned = place;
                }
            }
            (Move::Eresume(_), Answer::Ok) => {
                self.resumed = place;
                self.saved = self.saved.saturating_sub(1);
            }
            (Move::Interrupt(_), Answer::Ok) => self.saved += 1,
            (Move::Run(_, _), Answer::Exit(Exit::Vector(_))) => self.saved += 1,
            (Move::Run(_, _), Answer::Exit(Exit::Pf(_, _))) => {
                self.saved += 1;
                self.lost_at_fault.copy_from_slice(&self.lost);
            }
            _ => {}
        }
    }

    /// These accesses were lost at this place. There is a place for each access of a page of the enclave.
    pub fn lose(&mut self, watch: &Watch, place: u32)
        ensures lost { ((t : Access) → watches watch.now t ≡ true → access_number t < length self.old.lost)
            → (t : Access) → slice_index self.new.lost (access_number t) ≡ (if watches watch.now t then place else slice_index self.old.lost (access_number t)) }
        ensures size { length self.new.lost ≡ length self.old.lost }
        ensures rest { self.new ≡ record self.old { lost = self.new.lost } }
    {
        let Watch { page, found } = *watch;
        self.lose_one(page, Kind::Read, found.read, place);
        self.lose_one(page, Kind::Write, found.write, place);
        self.lose_one(page, Kind::Exec, found.exec, place);
    }

    /// The access was lost at this place, if it was.
    fn lose_one(&mut self, page: Page, kind: Kind, is_lost: bool, place: u32)
        ensures lost { self.new.lost ≡ (if is_lost then slice_set self.old.lost (access_number (record { page = page; kind = kind })) place else self.old.lost) }
        ensures rest { self.new ≡ record self.old { lost = self.new.lost } }
    {
        let i = number_of(Fault { page, kind });
        if is_lost && i < self.lost.len() {
            self.lost[i] = place;
        }
    }
}

/// The number of an access: three for each page.
fn number_of(access: Fault) -> usize
    ensures { result ≡ access_number access }
{
    let kind = match access.kind {
        Kind::Read => 0,
        Kind::Write => 1,
        Kind::Exec => 2,
    };
    3 * access.page.0 as usize + kind
}

/// The place at which an access was lost last.
fn place_of(places: &[u32], access: Fault) -> u32
    ensures { result ≡ slice_index places.now (access_number access) }
{
    places.get(number_of(access)).copied().unwrap_or(0)
}
