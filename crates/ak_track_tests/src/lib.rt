//! Tests of `ak_track`: what a kernel sees of ETRACK, step by step.
#![tactic(auto)]

#[cfg(test)]
mod track;
