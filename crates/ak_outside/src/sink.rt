// A sink of bytes as the program sees it.
ghost use Rattle.std.specs.Prelude.{◌≡◌, ℕ, List, Option, OnOk, OnErr};
ghost use Rattle.ak_outside.specs.Causes.{Counts};
ghost use Rattle.ak_outside.specs.Taken.{with_more, TakesFront};

/// Why a sink did not take the whole piece.
#[derive(Clone, Copy, PartialEq, Eq, Debug)]
pub enum SinkFault {
    /// The outside failed. The object's count of faults grew by one.
    Failed,
}

/// Something that takes bytes.
pub trait Sink {
    /// The bytes that it took so far, where it tells them.
    ghost taken: { Self → Option (List ℕ) };

    /// How often the outside failed. The count never falls.
    ghost faults: { Self → ℕ };

    /// Takes the whole piece, or at a fault some front of it.
    fn write(&mut self, piece: &[u8]) -> Result<(), SinkFault>
        ensures ok { OnOk result (taken self.new ≡ with_more (taken self.old) piece.now) }
        ensures err { OnErr result (TakesFront (taken self.old) (taken self.new) piece.now) }
        ensures count { Counts (faults self.old) (faults self.new) result };
}
