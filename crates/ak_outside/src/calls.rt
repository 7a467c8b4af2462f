// The calls of a method, counted, of which some are made to fail.
ghost use Rattle.std.specs.Prelude.{◌≡◌, [], ◌∷◌, ◌++◌, OnOk, OnErr};
ghost use Rattle.ak_outside.specs.Causes.{one_more};

use ak_core::OutOfMemory;
use std::alloc::Global;

/// How many calls were made, and the numbers of the calls that fail. The first call has number 1.
#[derive(Drop)]
pub struct Calls {
    made: u64,
    failing: Vec<u32>,
}

impl Calls {
    ghost use Rattle.ak_outside.specs.Calls.{is_failing};

    pub fn new(alloc: Global) -> Self
        ensures made { result.made ≡ 0 }
        ensures failing { result.failing.items ≡ [] }
    {
        Calls {
            made: 0,
            failing: Vec::new(alloc),
        }
    }

    /// Makes the numbered call fail.
    pub fn fail_at(&mut self, call: u32) -> Result<(), OutOfMemory>
        ensures made { self.new.made ≡ self.old.made }
        ensures ok { OnOk result (self.new.failing.items ≡ self.old.failing.items ++ call ∷ []) }
        ensures err { OnErr result (self.new.failing.items ≡ self.old.failing.items) }
    {
        match self.failing.push(call) {
            Ok(()) => Ok(()),
            Err(_) => Err(OutOfMemory),
        }
    }

    /// Counts a call, and says whether it is one that fails.
    pub fn next_fails(&mut self) -> bool
        ensures made { self.new.made ≡ one_more self.old.made }
        ensures failing { self.new.failing ≡ self.old.failing }
        ensures fails { result ≡ is_failing self.old (one_more self.old.made) }
    {
        self.made = self.made.saturating_add(1);
        self.failing
            .iter()
            .any(|number| u64::from(*number) == self.made)
    }
}
