//! The words of the command line, read by clap: which command they give, its files and its options.
#![tactic(auto)]

mod asked;
mod commands;
mod numbers;
mod words;

pub use asked::{Asked, RunAsked};
pub use words::read_words;
