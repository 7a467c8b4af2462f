// Files as the program sees them.
ghost use Rattle.std.specs.Prelude.{◌≡◌, ◌≤◌, ◌<◌, ◌^◌, ℕ, Bool, List, Option, None, Some, IsTrue, IfOk};
ghost use Rattle.ak_outside.specs.Causes.{Rose};
ghost use Rattle.ak_outside.specs.Reads.{Asks, CountsRead, Hands, held_length};

use std::alloc::Global;

/// Why a read gave no bytes.
#[derive(Clone, Copy, PartialEq, Eq, Debug)]
pub enum FilesFault {
    /// The name is missing, or the outside failed. The object's count of faults grew by one.
    Failed,
    /// The name holds more bytes than were asked for.
    TooLong,
    /// Memory ran out.
    OutOfMemory,
}

/// Something that holds bytes by name.
pub trait Files {
    /// Whether the object tells what its names hold, and which names were asked.
    ghost tells: { Self → Bool };

    /// The bytes that a name holds, `None` where it is missing. It counts only where the object tells.
    ghost content: { Self → List ℕ → Option (List ℕ) };

    /// The names asked so far, the oldest first. It counts only where the object tells.
    ghost asked: { Self → List (List ℕ) };

    /// The number of bytes that the last read handed over.
    ghost handed: { Self → ℕ };

    /// How often the outside failed. The count never falls.
    ghost faults: { Self → ℕ };

    /// The bytes that the name holds, where they are at most `limit`.
    ///
    /// A read reads at most `limit + 1` bytes, so a file without an end is answered by `TooLong` too.
    fn read(&mut self, alloc: Global, name: &str, limit: usize) -> Result<Vec<u8>, FilesFault>
        requires { limit < 2 ^ 32 }
        ensures bytes { IsTrue (tells self.old) → IfOk result (λ v. content self.old name.now ≡ Some v.items) }
        ensures keeps { content self.new ≡ content self.old }
        ensures tells { tells self.new ≡ tells self.old }
        ensures asked { IsTrue (tells self.old) → Asks (asked self.old) (asked self.new) name.now result }
        ensures handed { Hands limit (handed self.new) result }
        ensures within { IsTrue (tells self.old) → handed self.new ≤ held_length (content self.old name.now) }
        ensures missing { IsTrue (tells self.old) → content self.old name.now ≡ None → Rose (faults self.old) (faults self.new) }
        ensures count { CountsRead (faults self.old) (faults self.new) result };
}
