//! The clusters that are in, as the runtime keeps them in its STATE page: first in, first out, within the budget of pages.
#![tactic(auto)]

mod policy;
mod state_bytes;

pub use policy::Policy;
