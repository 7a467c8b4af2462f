//! The steps of tracking: which processors entered and left, and which cycles began (SDM volume 3D, ETRACK).
#![tactic(auto)]

pub mod laws;
mod track;

pub use track::{Incomplete, MAX_LPS, Stamp, Track};
