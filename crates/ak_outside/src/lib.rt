//! The outside: where the bytes come from, and where they go. A fault of the outside is told from a fault of the program
//! by a count that each object keeps and that only the outside raises.
#![tactic(auto)]

mod calls;
mod counted;
mod files;
mod memory_files;
mod memory_sink;
mod real_files;
mod real_sink;
mod sink;
mod writing;

pub use files::{Files, FilesFault};
pub use memory_files::MemFiles;
pub use memory_sink::MemSink;
pub use real_files::RealFiles;
pub use real_sink::RealSink;
pub use sink::{Sink, SinkFault};
pub use writing::{write_lines, write_three, write_two};
