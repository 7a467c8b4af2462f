//! The memory of the machine that pages itself: an access is granted by a cached translation, or by a walk over the page table and the
//! EPCM (SDM volume 3A, "Translation Lookaside Buffers (TLBs)"; SDM volume 3D, "Access-control for EPC pages").
#![tactic(auto)]

mod accesses;
mod caching;
mod frames;
pub mod laws;
mod memory;
mod spot;
mod touching;

pub use memory::Memory;
