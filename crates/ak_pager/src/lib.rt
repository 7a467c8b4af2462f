//! The steps of the runtime that pages the enclave's program, over any memory.
#![tactic(auto)]

mod effects;
mod entry;
mod leaving;
mod places;
mod probing;
mod state;
mod step;
mod turn;

pub use step::{leave_step, runtime_turn};
pub use turn::RtTurn;
