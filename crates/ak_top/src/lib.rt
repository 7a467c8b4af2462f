//! The program as one call over the files and sinks that are handed in: it reads an image and a script, applies the
//! script's moves to the image's enclave, and writes the report of its journal; or it makes the image of a number, and writes the summary
//! of the honest kernel's moves.
#![tactic(auto)]

mod demo;
mod inputs;
pub mod laws;
mod left;
mod measure;
mod run;
mod session;
mod top;
mod trouble;

pub use left::Left;
pub use top::autarky;
