//! Tests of `ak_script`, by tables: what scripts say, and how they are written.
#![tactic(auto)]

#[cfg(test)]
mod printing;
#[cfg(test)]
mod reading;
