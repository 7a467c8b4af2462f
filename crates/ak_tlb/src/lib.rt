//! The translations that a processor has cached (SDM volume 3A, "Translation Lookaside Buffers (TLBs)").
#![tactic(auto)]

mod tlb;
mod translation;

pub use tlb::Tlb;
pub use translation::Translation;
