//! Large images, each made from a number.
#![tactic(auto)]

mod generator;
mod laws;
mod numbers;
mod program;

pub use generator::{generate, own_signers};
pub use laws::{generated_images_are_whole, words_are_in_place};
