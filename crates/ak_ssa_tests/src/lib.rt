//! Tests of `ak_ssa`: saved frames byte by byte.
#![tactic(auto)]

#[cfg(test)]
mod frames;
#[cfg(test)]
mod pages;
