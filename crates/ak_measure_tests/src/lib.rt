//! Tests of `ak_measure`: a measurement that was computed elsewhere, and signers files of each kind.
#![tactic(auto)]

#[cfg(test)]
mod measurement;
#[cfg(test)]
mod signers;
