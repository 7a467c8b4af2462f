//! Pages that left the enclave, sealed, and the versions in the slots of version arrays (SDM volume 3D, EWB).
#![tactic(auto)]

mod sealed;
mod slots;

pub use sealed::Sealed;
pub use slots::{SLOTS, set_slot, slot};
