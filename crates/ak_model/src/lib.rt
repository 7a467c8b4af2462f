//! What the enclave, its runtime and its kernel do, as definitions, and the laws over them. A law is a function with an
//! empty body: its clause is what is proved.
#![tactic(auto)]

pub mod laws;
