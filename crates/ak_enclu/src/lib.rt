//! Entering and leaving the enclave: EENTER, ERESUME, EEXIT and the asynchronous exit, over the bytes of the TCS and of the
//! saved-state areas (SDM volume 3D, "SGX Instruction References").
#![tactic(auto)]

mod areas;
mod cpu;
mod entering;
pub mod laws;
mod leaving;
mod tcs;

pub use cpu::Cpu;
pub use entering::{eenter, eresume};
pub use leaving::{aex, eexit};
pub use tcs::saved;
