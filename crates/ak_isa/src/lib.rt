//! The decoder of the program's instructions (SDM volume 2, "Instruction Format").
#![tactic(auto)]

mod decoder;
mod jumps;
mod narrow;
mod operands;
#[cfg(test)]
mod tests;
mod wide;

pub use ak_core::{Cond, Decoded, Instr};
pub use decoder::decode;
