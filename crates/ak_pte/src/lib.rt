//! The kernel's page table: one entry for each page of the enclave (SDM volume 3A, "Paging").
#![tactic(auto)]

mod table;
#[cfg(test)]
mod tests;

pub use table::{PageTable, Pte};
