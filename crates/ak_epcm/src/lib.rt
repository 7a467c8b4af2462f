//! The EPCM: what is known of each frame of the enclave page cache (SDM volume 3D, "Enclave Page Cache Map").
#![tactic(auto)]

mod epcm;
#[cfg(test)]
mod tests;

pub use epcm::Epcm;
