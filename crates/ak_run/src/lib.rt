//! The machine of one enclave with the journal of the moves that it was given: it keeps what blames a stop as it goes.
#![tactic(auto)]

mod events;
pub mod laws;
mod marks;
mod run;
mod watch;

pub use run::Run;
