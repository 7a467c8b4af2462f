// What happened, in order.
ghost use Rattle.std.specs.Prelude.{◌≡◌, ◌-◌, ◌<◌, ◌≤◌, [], ◌∷◌, ◌++◌, Some, None, OnOk, OnErr, length, min, vec_len, vec_capacity};
ghost use Rattle.ak_core.specs.Journal;
ghost use Rattle.ak_core.specs.Journal.{with_more, first_stop, SameLists};

use crate::{Answer, Event, Move, OutOfMemory, Stop};
use std::alloc::Global;
use std::marker::Model;

/// The kernel's moves and their answers, what the program put out and showed, and why the enclave stopped.
///
/// Contracts see it as the record of its lists, each oldest first, with the room for more. There are as many answers as
/// moves.
#[derive(Drop)]
pub struct Journal {
    moves: Vec<Move>,
    answers: Vec<Answer>,
    outputs: Vec<u64>,
    events: Vec<Event>,
    stop: Option<Stop>,
}

impl Model for Journal {
    ghost Value = { Journal.Journal };

    ghost view = { λ j. record {
      moves = j.moves.items;
      answers = j.answers.items;
      outputs = j.outputs.items;
      events = j.events.items;
      stop = j.stop;
      room = min (min (vec_capacity j.moves - vec_len j.moves) (vec_capacity j.answers - vec_len j.answers))
          (min (vec_capacity j.outputs - vec_len j.outputs) (vec_capacity j.events - vec_len j.events));
    } };

    ghost invariant = { λ j. vec_len j.moves ≡ vec_len j.answers };
}

impl Journal {
    /// The empty journal. It takes no memory.
    pub fn new(alloc: Global) -> Journal
        ensures moves { result.moves ≡ [] }
        ensures answers { result.answers ≡ [] }
        ensures outputs { result.outputs ≡ [] }
        ensures events { result.events ≡ [] }
        ensures stop { result.stop ≡ None }
    {
        Journal {
            moves: Vec::new(alloc),
            answers: Vec::new(alloc),
            outputs: Vec::new(alloc),
            events: Vec::new(alloc),
            stop: None,
        }
    }

    /// The kernel's moves.
    pub fn moves(&self) -> &[Move]
        ensures moves { result.now ≡ self.now.moves }
        ensures answered { length self.now.moves ≡ length self.now.answers }
    {
        &self.moves
    }

    /// The answer of each move.
    pub fn answers(&self) -> &[Answer]
        ensures { result.now ≡ self.now.answers }
    {
        &self.answers
    }

    /// The arguments of the calls with number 1 that the kernel was shown.
    pub fn outputs(&self) -> &[u64]
        ensures { result.now ≡ self.now.outputs }
    {
        &self.outputs
    }

    /// The events of the program.
    pub fn events(&self) -> &[Event]
        ensures { result.now ≡ self.now.events }
    {
        &self.events
    }

    /// Why the enclave stopped, if it did.
    pub fn stop(&self) -> Option<Stop>
        ensures { result ≡ self.now.stop }
    {
        self.stop
    }

    /// Makes room for one more of each list, and changes no list, also where memory runs out.
    pub fn reserve(&mut self) -> Result<(), OutOfMemory>
        ensures same { SameLists self.old self.new }
        ensures ok { OnOk result (0 < self.new.room) }
    {
        make_room(&mut self.moves)?;
        make_room(&mut self.answers)?;
        make_room(&mut self.outputs)?;
        make_room(&mut self.events)
    }

    /// Adds what a move brought, in room that was made for it. The first stop stays.
    pub fn append(
        &mut self,
        m: Move,
        a: Answer,
        event: Option<Event>,
        output: Option<u64>,
        stop: Option<Stop>,
    )
        requires { 0 < self.old.room }
        ensures moves { self.new.moves ≡ self.old.moves ++ m ∷ [] }
        ensures answers { self.new.answers ≡ self.old.answers ++ a ∷ [] }
        ensures outputs { self.new.outputs ≡ with_more self.old.outputs output }
        ensures events { self.new.events ≡ with_more self.old.events event }
        ensures stop { self.new.stop ≡ first_stop self.old.stop stop }
    {
        push(&mut self.moves, m);
        push(&mut self.answers, a);
        push_some(&mut self.outputs, output);
        push_some(&mut self.events, event);
        self.stop = self.stop.or(stop);
    }
}

fn make_room<T: Copy>(list: &mut Vec<T>) -> Result<(), OutOfMemory>
    ensures items { list.new.items ≡ list.old.items }
    ensures ok { OnOk result (vec_len list.new < vec_capacity list.new) }
{
    match list.reserve(1) {
        Ok(()) => Ok(()),
        Err(_) => Err(OutOfMemory),
    }
}

fn push<T: Copy>(list: &mut Vec<T>, item: T)
    requires { vec_len list.old < vec_capacity list.old }
    ensures { list.new.items ≡ list.old.items ++ item ∷ [] }
{
    match list.push(item) {
        Ok(()) => {}
        Err(_) => unreachable!(),
    }
}

fn push_some<T: Copy>(list: &mut Vec<T>, item: Option<T>)
    requires { vec_len list.old < vec_capacity list.old }
    ensures { list.new.items ≡ with_more list.old.items item }
{
    if let Some(item) = item {
        push(list, item);
    }
}
