//! Scripts: what the kernel does and what the program is given, a line each, read from bytes and written.
#![tactic(auto)]

mod fault;
mod flags;
mod items;
pub mod laws;
mod line;
mod operands;
mod printing;
mod script;
mod splitting;
mod text;

pub use fault::{Refusal, ScriptFault};
pub use items::Item;
pub use operands::number_in;
pub use script::Script;
pub use text::{LineText, entry_line, flags_line, move_line, words_line};
