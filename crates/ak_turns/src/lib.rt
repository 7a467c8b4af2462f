//! Turns of a processor that is inside the enclave, each an instruction of the program or a step of the runtime; and runs of them.
#![tactic(auto)]

mod instruction;
mod leaving;
mod notes;
mod program;
mod running;
mod runtime;
mod turning;

pub use notes::{ProgramNote, Ran, RuntimeNote, Turned};
pub use running::run;
pub use turning::turn;
