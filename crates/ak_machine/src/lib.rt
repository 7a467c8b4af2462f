//! The machine of one enclave that pages itself: its frames and the page table, its processors, and the moves of the kernel, one
//! after the other.
#![tactic(auto)]

mod applied;
mod build;
mod entering;
mod kernel;
pub mod laws;
mod machine;

pub use applied::Applied;
pub use machine::Machine;
