//! Tests of `ak_sealed`: that room is made, and what sealed pages and slots hold.
#![tactic(auto)]

#[cfg(test)]
mod sealed;
#[cfg(test)]
mod slots;
