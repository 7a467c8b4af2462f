//! The types that every crate speaks of: pages and frames, kernel moves and their answers, events, stops, registers,
//! instructions; what contracts see of layouts and journals; and memory as a turn sees it.
#![tactic(auto)]

mod event;
mod failure;
mod instruction;
mod journal;
mod layout;
mod memory;
mod moves;
mod page;
mod registers;
mod runtime_pages;

pub use event::{Event, Stop, StopCause};
pub use failure::{BuildFault, OutOfMemory};
pub use instruction::{Cond, Decoded, Instr};
pub use journal::Journal;
pub use layout::Layout;
pub use memory::Mem;
pub use moves::{Answer, Exit, Move};
pub use page::{Entry, Fault, Flags, Frame, Handle, Kind, Lp, PAGE_SIZE, Page, PageType, Perm};
pub use registers::{Mode, Regs};
pub use runtime_pages::{
    PROGRAM_FRAME, RUNTIME_FRAME, RUNTIME_PAGES, SSA_AREAS, all_pages, code_page, ssa_page,
    state_page, tcs_page,
};
