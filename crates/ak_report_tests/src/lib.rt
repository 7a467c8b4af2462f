//! Tests of `ak_report`: the texts of journals, by tables.
#![tactic(auto)]

#[cfg(test)]
mod report;
#[cfg(test)]
mod summary;
