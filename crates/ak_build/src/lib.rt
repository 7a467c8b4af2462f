//! The build of an enclave: its pages are added and measured, those of the program are written out, and EINIT compares the
//! measurement with what the signer signed (SDM volume 3D, "Enclave Life Cycle").
#![tactic(auto)]

mod adding;
mod building;
mod mapping;
mod runtime;

pub use building::{Built, build};
