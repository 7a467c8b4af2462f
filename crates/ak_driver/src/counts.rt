// What the kernel counts by the exits and entries that it is told.
ghost use Rattle.std.specs.Prelude.{◌≡◌, ◌||◌, ◌+◌, ◌<◌, ◌^◌, false};
ghost use Rattle.ak_model.specs.Kernels.Counted.{is_asynchronous, more_if, pending_after, saved_after};
ghost use Rattle.ak_model.specs.Kernels.HonestKernel.{input_after, is_end, is_input};
ghost use Rattle.ak_driver.specs.Changes.{told};
ghost use Rattle.ak_driver.specs.NotedCounts.{asked_after, ended_after, one_if, value_by};

use crate::changes::Change;
use ak_core::Exit;

/// The call by which the program asks for an input.
const INPUT_CALL: u64 = 2;

/// How many contexts are saved, whether resuming is refused, and which exits there were.
#[derive(Drop)]
pub(crate) struct Counts {
    pub saved: u64,
    pub is_pending: bool,
    pub is_ended: bool,
    pub last_is_input: bool,
    pub inputs_asked: u64,
}

impl Counts {
    /// Nothing was told yet.
    pub fn new() -> Counts
        ensures saved { result.saved ≡ 0 }
        ensures pending { result.is_pending ≡ false }
        ensures ended { result.is_ended ≡ false }
        ensures input { result.last_is_input ≡ false }
        ensures asked { result.inputs_asked ≡ 0 }
    {
        Counts {
            saved: 0,
            is_pending: false,
            is_ended: false,
            last_is_input: false,
            inputs_asked: 0,
        }
    }

    /// One more change is told. Fewer than 2^64 are counted.
    pub fn note(&mut self, change: &Change)
        ensures saved { self.old.saved + 1 < 2 ^ 64 → self.new.saved ≡ saved_after (told change.now) self.old.saved }
        ensures pending { self.new.is_pending ≡ pending_after (told change.now) self.old.is_pending }
        ensures ended { self.new.is_ended ≡ ended_after (told change.now) self.old.is_ended }
        ensures input { self.new.last_is_input ≡ input_after (told change.now) self.old.last_is_input }
        ensures asked { self.old.inputs_asked + 1 < 2 ^ 64 → self.new.inputs_asked ≡ asked_after (told change.now) self.old.inputs_asked }
    {
        match *change {
            Change::Enters(_, _) => self.is_pending = false,
            Change::Resumes(_) => self.saved = self.saved.saturating_sub(1),
            Change::Exits(_, exit) => self.exit(&exit),
            Change::Interrupts(_) => self.saved = self.saved.saturating_add(1),
            _ => {}
        }
    }

    // A processor leaves by itself.
    fn exit(&mut self, exit: &Exit)
        ensures saved { self.old.saved + 1 < 2 ^ 64 → self.new.saved ≡ more_if (is_asynchronous exit.now) self.old.saved }
        ensures pending { self.new.is_pending ≡ (is_asynchronous exit.now || self.old.is_pending) }
        ensures ended { self.new.is_ended ≡ (is_end exit.now || self.old.is_ended) }
        ensures input { self.new.last_is_input ≡ is_input exit.now }
        ensures asked { self.old.inputs_asked + 1 < 2 ^ 64 → self.new.inputs_asked ≡ one_if (is_input exit.now) + self.old.inputs_asked }
    {
        if is_asynchronous(exit) {
            self.saved = self.saved.saturating_add(1);
            self.is_pending = true;
        }
        if is_end(exit) {
            self.is_ended = true;
        }
        self.last_is_input = is_input(exit);
        if self.last_is_input {
            self.inputs_asked = self.inputs_asked.saturating_add(1);
        }
    }

    /// The value to enter with: the next input after a call for one, and 0 else.
    pub fn next_value(&self, inputs: &[u64]) -> u64
        ensures { result ≡ value_by self.now inputs.now }
    {
        if !self.last_is_input {
            return 0;
        }
        let place = self.inputs_asked.saturating_sub(1) as usize;
        inputs.get(place).copied().unwrap_or(0)
    }
}

// The exit saves the processor's context.
fn is_asynchronous(exit: &Exit) -> bool
    ensures { result ≡ is_asynchronous exit.now }
{
    matches!(*exit, Exit::Pf(_, _) | Exit::Vector(_))
}

// There is nothing to do after the exit.
fn is_end(exit: &Exit) -> bool
    ensures { result ≡ is_end exit.now }
{
    matches!(*exit, Exit::Ended(_) | Exit::Trapped(_) | Exit::Stopped)
}

// The exit is a call for an input.
fn is_input(exit: &Exit) -> bool
    ensures { result ≡ is_input exit.now }
{
    match *exit {
        Exit::Call(number, _) => number == INPUT_CALL,
        _ => false,
    }
}
