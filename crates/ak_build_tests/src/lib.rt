//! Tests of `ak_build`: a build whose measurement another program computed, and the refusals of EINIT.
#![tactic(auto)]

#[cfg(test)]
mod building;
