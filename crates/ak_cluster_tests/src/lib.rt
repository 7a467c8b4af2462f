//! Tests of `ak_cluster`: queues that are stored and loaded, and clusters that leave them.
#![tactic(auto)]

#[cfg(test)]
mod queues;
