//! Tests of `ak_exec`: each encoding, each trap and each fault, over a memory of four pages.
#![tactic(auto)]

#[cfg(test)]
mod four_pages;
#[cfg(test)]
mod instructions;
