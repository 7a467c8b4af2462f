//! The enclave's frames and what is known of them, and the kernel's leaf instructions over them (SDM volume 3D, "SGX Instruction
//! References").
#![tactic(auto)]

mod blocking;
mod building;
mod checks;
mod encls;
mod leaf;
mod loading;
mod removing;
mod slots;
mod tracking;
mod writing_out;

pub use building::InitFault;
pub use encls::Encls;
