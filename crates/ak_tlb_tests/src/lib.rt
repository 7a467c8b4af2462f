//! Tests of `ak_tlb`: translations that are overwritten, dropped and flushed.
#![tactic(auto)]

#[cfg(test)]
mod translations;
