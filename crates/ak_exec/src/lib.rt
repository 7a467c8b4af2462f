//! One instruction of the enclave's program, over any memory.
#![tactic(auto)]

mod alu;
mod fetching;
mod interpreter;
mod operands;
mod plain;
mod transfers;
mod turn;

pub use interpreter::exec;
pub use turn::Turn;
