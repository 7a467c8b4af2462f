//! The texts of a journal: its report, and the summary of a run that was asked for by a number.
#![tactic(auto)]

pub mod laws;
mod line;
mod report;
mod summary;
mod writing;

pub use report::write_report;
pub use summary::write_summary;
