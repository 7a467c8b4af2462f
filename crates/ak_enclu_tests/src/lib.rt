//! Tests of `ak_enclu`, through its public calls: answers of EENTER and ERESUME, and what entering and leaving leave.
#![tactic(auto)]

#[cfg(test)]
mod enclave;
#[cfg(test)]
mod frames;
#[cfg(test)]
mod passing;
#[cfg(test)]
mod refusals;
