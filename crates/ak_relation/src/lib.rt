//! The relation between the final machine and the definitions: what a machine's tables, pages and processors stand for, at which
//! places of a trace; and the laws by which each move and each turn of the machine keeps it. A law is a function with an empty body:
//! its clause is what is proved.
#![tactic(auto)]

pub mod laws;
