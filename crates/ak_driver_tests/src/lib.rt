//! Tests of `ak_driver`: whole runs, told move by move.
#![tactic(auto)]

#[cfg(test)]
mod runs;
