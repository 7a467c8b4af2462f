//! Saved frames: the 200 bytes in which a processor's registers are saved, and why it left the enclave (SDM volume 3D, "State Save
//! Area").
#![tactic(auto)]

mod cause;
pub mod frame;
pub mod laws;
mod page;

pub use cause::Why;
pub use frame::FRAME_SIZE;
pub use page::{AREA_PLACE, STATE_PLACE, clear_valid, guard, load, save, why};
