// How a step of the runtime ends.

use ak_core::{Exit, Fault, StopCause};

/// How a step of the runtime ends.
#[derive(Clone, Copy, PartialEq, Eq, Debug)]
pub enum RtTurn {
    /// The processor goes on inside, by the registers.
    Go,
    /// The processor leaves the enclave, and the kernel is shown this.
    Leave(Exit),
    /// The enclave dies of this cause. The processor leaves, and the kernel is shown `Exit::Stopped`.
    Dead(StopCause),
    /// This access was refused, and nothing changed.
    Faulted(Fault),
}
