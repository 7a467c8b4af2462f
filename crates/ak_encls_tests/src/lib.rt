//! Tests of `ak_encls`, through its public calls: scripts of leaves with the answers that are expected.
#![tactic(auto)]

#[cfg(test)]
mod building;
#[cfg(test)]
mod scripts;
#[cfg(test)]
mod stage;
