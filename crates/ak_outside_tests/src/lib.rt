//! Tests of `ak_outside`, of what no clause says: that calls succeed where memory is left, how many writes a text takes, and
//! what the system does.
#![tactic(auto)]

#[cfg(test)]
mod files;
#[cfg(test)]
mod sinks;
