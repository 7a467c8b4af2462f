// What a turn came to.

use ak_core::{Exit, Fault, StopCause};

/// What the program showed in a turn.
#[derive(Clone, Copy, PartialEq, Eq, Debug)]
pub enum ProgramNote {
    /// Nothing: it completed an instruction that is no call, or did not run.
    Plain,
    /// It completed a call out: its number and its argument.
    Called(u64, u64),
    /// Its next instruction gives this vector.
    Trapped(u8),
    /// Its next instruction makes this access, which faulted: no walk found it, or its page does not allow it.
    Faulted(Fault),
}

/// What the runtime did in a turn that the kernel is not told.
#[derive(Clone, Copy, PartialEq, Eq, Debug)]
pub enum RuntimeNote {
    /// Nothing.
    Quiet,
    /// A step of it made this access, which faulted.
    Faulted(Fault),
    /// It stopped the enclave, for this cause.
    Dead(StopCause),
}

/// What a turn came to.
#[derive(Clone, Copy, PartialEq, Eq, Debug)]
pub struct Turned {
    /// The exit by which the processor left, if it did.
    pub exit: Option<Exit>,
    /// An instruction of the program was completed.
    pub completed: bool,
    /// What the program showed.
    pub program: ProgramNote,
    /// What the runtime did.
    pub runtime: RuntimeNote,
}

/// What a run of turns came to.
#[derive(Clone, Copy, PartialEq, Eq, Debug)]
pub struct Ran {
    /// The exit by which the processor left, or `Still`.
    pub exit: Exit,
    /// How many instructions of the program were completed.
    pub completed: u64,
    /// What the program showed.
    pub program: ProgramNote,
    /// What the runtime did.
    pub runtime: RuntimeNote,
}
