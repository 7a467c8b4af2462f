// What a program shows, and why an enclave stops.

use crate::{Kind, Page};

/// What a program turn shows that is no ordinary completion, with the number of instructions that were complete before it.
#[derive(Clone, Copy, PartialEq, Eq, Debug)]
pub enum Event {
    /// The instruction is a call out: its number and its argument.
    Call(u64, u64, u64),
    /// An access faulted, and its cluster is out.
    Miss(u64, u32),
    /// The instruction gives this vector.
    Trap(u64, u8),
    /// An access faulted though its cluster is in.
    Break(u64),
}

/// Which rule the kernel broke.
#[derive(Clone, Copy, PartialEq, Eq, Debug)]
pub enum StopCause {
    /// The program accessed a page whose cluster is in, and no walk found it.
    Unmapped(Page, Kind),
    /// The runtime accessed a page, and no walk found it.
    RuntimeUnmapped(Page, Kind),
    /// A page of the asked cluster was not there when the kernel came back.
    FetchNotHonoured(Page, Kind),
    /// The kernel resumed while a cluster was asked for.
    ResumedEarly,
    /// The runtime faulted while it dealt with its own fault.
    Stuck(Page, Kind),
}

/// Why the enclave stopped, and the move that is to blame.
#[derive(Clone, Copy, PartialEq, Eq, Debug)]
pub struct Stop {
    /// The rule that was broken.
    pub cause: StopCause,
    /// The number of the blamed move, from 1.
    pub blame: u32,
}
