//! Walks: which accesses the page table and the EPCM let through, and what the kernel is shown of a page fault
//! (SDM volume 3D, "Access-control for EPC pages").
#![tactic(auto)]

#[cfg(test)]
mod tests;
mod walking;

pub use walking::{mask, walk, walk_tcs};
