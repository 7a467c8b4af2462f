// A machine with its journal.
ghost use Rattle.std.specs.Prelude.{◌≡◌, ◌+◌, ◌<◌, ◌≤◌, ◌^◌, ◌++◌, ◌∷◌, [], ℕ, List, None, IfOk, OnOk, OnErr, length};
ghost use Rattle.ak_machine.specs.Machines.{IsJustBuilt};
ghost use Rattle.ak_machine.specs.Moves.{turns_in};
ghost use Rattle.ak_run.specs.Runs.{Faithful, MachineMoves, MachineMovesOn, SameRun};

use crate::events::{event_of, output_of, serve};
use crate::marks::Marks;
use crate::watch::Watch;
use ak_cluster::Policy;
use ak_core::{Answer, Journal, Move, OutOfMemory, PAGE_SIZE, all_pages};
use ak_machine::Machine;
use std::alloc::Global;
use std::marker::Model;

/// A machine, and the journal of the moves that it was given.
///
/// Contracts see it as its parts, and ask and promise that it is faithful to an image: its journal tells just what happened to the
/// enclave of that image.
#[derive(Drop)]
pub struct Run {
    machine: Machine,
    journal: Journal,
    count: u64,
    queue: Policy,
    marks: Marks,
}

impl Model for Run {
    ghost use Rattle.ak_run.specs.Runs.{IsBounded, RunParts};

    ghost Value = { RunParts };

    ghost view = { λ r. record { machine = r.machine; journal = r.journal; count = r.count; queue = r.queue; marks = r.marks } };

    ghost invariant = { λ r. IsBounded (record { machine = r.machine; journal = r.journal; count = r.count; queue = r.queue; marks = r.marks }) };
}

impl Run {
    /// The machine with the empty journal. All that blame will need is taken now.
    pub fn new(alloc: Global, machine: Machine) -> Result<Run, OutOfMemory>
        requires handles { length machine.encls.handles.sealed_pages < 2 ^ 31 }
        requires cycles { machine.encls.track.cycles < 2 ^ 62 }
        ensures machine { IfOk result (λ run. run.machine ≡ machine) }
        ensures moves { IfOk result (λ run. run.journal.moves ≡ []) }
        ensures answers { IfOk result (λ run. run.journal.answers ≡ []) }
        ensures outputs { IfOk result (λ run. run.journal.outputs ≡ []) }
        ensures events { IfOk result (λ run. run.journal.events ≡ []) }
        ensures stop { IfOk result (λ run. run.journal.stop ≡ None) }
        ensures faithful { (image : List ℕ) → IsJustBuilt image machine → IfOk result (λ run. Faithful image run) }
    {
        let pages = all_pages(machine.layout().perms().len() as u32);
        let marks = Marks::new(alloc, pages)?;
        Ok(Run {
            machine,
            journal: Journal::new(alloc),
            count: 0,
            queue: no_clusters(),
            marks,
        })
    }

    /// Applies a move and writes it into the journal, with its answer, its event, its output and the stop, if it is the first. It
    /// gives the answer. All memory is taken first: where it runs out nothing is applied.
    pub fn apply(&mut self, m: &Move) -> Result<Answer, OutOfMemory>
        requires { length self.old.journal.moves < 2 ^ 31 }
        ensures faithful { (image : List ℕ) → Faithful image self.old → Faithful image self.new }
        ensures machine { IfOk result (λ a. MachineMovesOn self.old.machine m.now a self.new.machine) }
        ensures layout { self.new.machine.layout ≡ self.old.machine.layout }
        ensures moves { OnOk result (self.new.journal.moves ≡ self.old.journal.moves ++ m.now ∷ []) }
        ensures answers { IfOk result (λ a. self.new.journal.answers ≡ self.old.journal.answers ++ a ∷ []) }
        ensures unchanged { OnErr result (SameRun self.old self.new) }
    {
        if let Err(fault) = self.reserve() {
            return Err(fault);
        }
        Ok(self.make(m))
    }

    /// Takes the memory that one more move may need.
    fn reserve(&mut self) -> Result<(), OutOfMemory>
        requires { length self.old.journal.moves < 2 ^ 31 }
        ensures same { SameRun self.old self.new }
        ensures room { OnOk result (0 < self.new.journal.room) }
        ensures spare { OnOk result (0 < self.new.machine.encls.handles.spare) }
    {
        if let Err(fault) = self.journal.reserve() {
            return Err(fault);
        }
        self.machine.reserve(1)
    }

    /// Applies a move, in memory that was taken for it.
    fn make(&mut self, m: &Move) -> Answer
        requires few { length self.old.journal.moves < 2 ^ 31 }
        requires room { 0 < self.old.journal.room }
        requires spare { 0 < self.old.machine.encls.handles.spare }
        ensures faithful { (image : List ℕ) → Faithful image self.old → Faithful image self.new }
        ensures machine { MachineMoves self.old.machine m.now result self.new.machine }
        ensures layout { self.new.machine.layout ≡ self.old.machine.layout }
        ensures moves { self.new.journal.moves ≡ self.old.journal.moves ++ m.now ∷ [] }
        ensures answers { self.new.journal.answers ≡ self.old.journal.answers ++ result ∷ [] }
    {
        let place = self.journal.moves().len() as u32 + 1;
        let named = Watch::named(&self.machine, m);
        let framed = Watch::framed(&self.machine, m);
        are_few_turns(m);
        let applied = self.machine.apply(m);
        let stop = self.marks.stop(applied.runtime);
        self.marks.note(m, &applied.answer, place);
        self.marks.lose(&named.lost(&self.machine), place);
        self.marks.lose(&framed.lost(&self.machine), place);
        self.count += applied.completed;
        let layout = self.machine.layout();
        let event = event_of(layout, &self.queue, self.count, applied.program);
        serve(layout, &mut self.queue, event);
        self.journal
            .append(*m, applied.answer, event, output_of(applied.answer), stop);
        applied.answer
    }

    /// What happened.
    pub fn journal(&self) -> &Journal
        ensures { result.now ≡ self.now.journal }
    {
        &self.journal
    }

    /// The machine.
    pub fn machine(&self) -> &Machine
        ensures { result.now ≡ self.now.machine }
    {
        &self.machine
    }
}

/// No move makes 2^32 turns.
fn are_few_turns(m: &Move)
    ensures { turns_in m.now < 2 ^ 32 }
{
    if let Move::Run(_, turns) = *m {
        let _turns = turns;
    }
}

/// The queue in which no cluster is: that of a STATE page of zeros.
fn no_clusters() -> Policy
    ensures { result ≡ [] }
{
    Policy::load(&[0; PAGE_SIZE])
}
