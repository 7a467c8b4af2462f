//! Tests of `ak_pager`: each row of the table of the runtime's steps over a memory of pages, each refused touch, and clusters and
//! queues of the greatest size.
#![tactic(auto)]

#[cfg(test)]
mod defined;
#[cfg(test)]
mod fields;
#[cfg(test)]
mod large;
#[cfg(test)]
mod memory;
mod phase;
#[cfg(test)]
mod saved;
#[cfg(test)]
mod states;
#[cfg(test)]
mod steps;

pub use phase::Phase;
