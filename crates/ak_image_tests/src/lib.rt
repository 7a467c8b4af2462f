//! Tests of `ak_image`. The rows of its proofs have each refusal once; here are the limits, the order of the refusals, what
//! TOML lets in, and the measurements of two images.
#![tactic(auto)]

#[cfg(test)]
mod built;
#[cfg(test)]
mod pages;
#[cfg(test)]
mod reading;
#[cfg(test)]
mod spelling;
