// A sink in memory, for tests and for programs that keep what they write.
ghost use Rattle.std.specs.Prelude.{◌≡◌, ◌+◌, ◌≤◌, ◌||◌, ◌==◌, ℕ, [], true, false, Some, length, vec_len, vec_capacity, OnOk, OnErr, IsErr, IsTrue, ◌↔◌};
ghost use Rattle.ak_outside.specs.Causes.{Counts, one_more};
ghost use Rattle.ak_outside.specs.Taken.{with_more, TakesFront};

use crate::calls::Calls;
use crate::{Sink, SinkFault};
use ak_core::OutOfMemory;
use std::alloc::Global;

/// A sink in memory. It takes as many bytes as room was made for, and its writes fail where they are told to.
#[derive(Drop)]
pub struct MemSink {
    bytes: Vec<u8>,
    room: usize,
    calls: Calls,
    faults: u64,
    ghost reserved: { vec_len bytes + room ≤ vec_capacity bytes },
}

impl MemSink {
    ghost use Rattle.ak_outside.specs.MemSink.{taken_by, room_of, calls_of, faults_of, is_failing, KeepsAccount};

    /// Nothing is taken, there is room for no byte, and no call fails. It takes no memory.
    pub fn new(alloc: Global) -> Self
        ensures taken { taken_by result ≡ [] }
        ensures room { room_of result ≡ 0 }
        ensures failing { (call : ℕ) → is_failing result call ≡ false }
        ensures calls { calls_of result ≡ 0 }
        ensures faults { faults_of result ≡ 0 }
    {
        MemSink {
            bytes: Vec::new(alloc),
            room: 0,
            calls: Calls::new(alloc),
            faults: 0,
        }
    }

    /// Makes room for that many bytes more than the sink may take now.
    pub fn room(&mut self, bytes: usize) -> Result<(), OutOfMemory>
        ensures ok { OnOk result (room_of self.new ≡ room_of self.old + bytes) }
        ensures err { OnErr result (room_of self.new ≡ room_of self.old) }
        ensures failing { is_failing self.new ≡ is_failing self.old }
        ensures account { KeepsAccount self.old self.new }
    {
        let Some(room) = self.room.checked_add(bytes) else {
            return Err(OutOfMemory);
        };
        match self.bytes.reserve(room) {
            Ok(()) => {
                self.room = room;
                Ok(())
            }
            Err(_) => Err(OutOfMemory),
        }
    }

    /// Makes the numbered call of `write` fail. The first call since the object was made has number 1.
    pub fn fail_at(&mut self, call: u32) -> Result<(), OutOfMemory>
        ensures ok { OnOk result ((other : ℕ) → is_failing self.new other ≡ (is_failing self.old other || call == other)) }
        ensures err { OnErr result ((other : ℕ) → is_failing self.new other ≡ is_failing self.old other) }
        ensures room { room_of self.new ≡ room_of self.old }
        ensures account { KeepsAccount self.old self.new }
    {
        self.calls.fail_at(call)
    }

    /// The bytes taken so far.
    pub fn taken(&self) -> &[u8]
        ensures { result.now ≡ taken_by self.now }
    {
        &self.bytes
    }
}

impl Sink for MemSink {
    ghost use Rattle.ak_outside.specs.MemSink.{taken_by, room_of, calls_of, faults_of, is_failing, write_fails};

    ghost taken = { λ sink. Some (taken_by sink) };

    ghost faults = { faults_of };

    /// As `Sink::write`. A write that was made to fail, or that is longer than the room, fails and takes nothing.
    fn write(&mut self, piece: &[u8]) -> Result<(), SinkFault>
        ensures ok { OnOk result (Some (taken_by self.new) ≡ with_more (Some (taken_by self.old)) piece.now) }
        ensures err { OnErr result (TakesFront (Some (taken_by self.old)) (Some (taken_by self.new)) piece.now) }
        ensures count { Counts (faults_of self.old) (faults_of self.new) result }

        // It fails exactly there, and then takes nothing and keeps its room.
        ensures fails { IsErr result ↔ IsTrue (write_fails self.old piece.now) }
        ensures nothing { OnErr result (taken_by self.new ≡ taken_by self.old) }
        ensures room { OnOk result (room_of self.new + length piece.now ≡ room_of self.old) }
        ensures room_stays { OnErr result (room_of self.new ≡ room_of self.old) }

        // The call is counted, and which calls fail stays.
        ensures calls { calls_of self.new ≡ one_more (calls_of self.old) }
        ensures failing { is_failing self.new ≡ is_failing self.old }
    {
        let is_made_to_fail = self.calls.next_fails();
        if is_made_to_fail || self.room < piece.len() {
            self.faults = self.faults.saturating_add(1);
            return Err(SinkFault::Failed);
        }
        self.room -= piece.len();
        match self.bytes.extend_from_slice(piece) {
            Ok(()) => Ok(()),
            Err(_) => unreachable!(),
        }
    }
}
