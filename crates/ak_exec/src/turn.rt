// How a turn of the program ends.

use ak_core::Fault;

/// The vector of a division by zero, or of a quotient that is too large (SDM volume 3A, "Interrupt 0").
pub(crate) const DIVIDE_ERROR: u8 = 0;

/// The vector of an invalid opcode (SDM volume 3A, "Interrupt 6").
pub(crate) const INVALID_OPCODE: u8 = 6;

/// The vector of a general-protection exception (SDM volume 3A, "Interrupt 13").
pub(crate) const GENERAL_PROTECTION: u8 = 13;

/// How a turn of the program ends.
#[derive(Clone, Copy, PartialEq, Eq, Debug)]
pub enum Turn {
    /// An instruction was completed.
    Done,
    /// An ENCLU left the enclave: the number of a call, and its argument.
    Called(u64, u64),
    /// The instruction raises this vector: 0, 6 or 13 (SDM volume 3A, "Exception and Interrupt Vectors").
    Trapped(u8),
    /// This access was refused.
    Faulted(Fault),
}
