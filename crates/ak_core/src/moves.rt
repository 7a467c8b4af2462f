// The moves of the kernel and their answers (SDM volume 3D, "SGX Instruction References").

use crate::{Flags, Frame, Handle, Lp, Page};

/// A move of the kernel.
#[derive(Clone, Copy, PartialEq, Eq, Debug)]
pub enum Move {
    /// Sets a page's entry in the page table: a frame and flags.
    SetPte(Page, Frame, Flags),
    /// Reads a page's entry in the page table.
    ReadPte(Page),
    /// EBLOCK of a frame.
    Eblock(Frame),
    /// ETRACK of the enclave.
    Etrack,
    /// EWB of a frame, into a slot of a VA frame.
    Ewb(Frame, Frame, u16),
    /// ELDU into a frame: a handle, the page that it is to be, and the slot of a VA frame.
    Eldu(Frame, Handle, Page, Frame, u16),
    /// ELDB: as ELDU, and the frame is blocked.
    Eldb(Frame, Handle, Page, Frame, u16),
    /// EREMOVE of a frame.
    Eremove(Frame),
    /// EPA: a free frame becomes a VA page.
    Epa(Frame),
    /// The kernel gives up a sealed page.
    Discard(Handle),
    /// EENTER on a processor, with a value for the enclave.
    Eenter(Lp, u64),
    /// ERESUME on a processor.
    Eresume(Lp),
    /// Up to so many turns of a processor that is inside.
    Run(Lp, u32),
    /// An interrupt of a processor that is inside: an asynchronous exit.
    Interrupt(Lp),
}

/// What the kernel sees when a run is over.
#[derive(Clone, Copy, PartialEq, Eq, Debug)]
pub enum Exit {
    /// The processor is still inside.
    Still,
    /// A page fault, by its address and error code.
    Pf(u64, u8),
    /// Another vector.
    Vector(u8),
    /// A call out: its number and its argument.
    Call(u64, u64),
    /// The runtime drops so many clusters and asks for one.
    Ask(u32, u32),
    /// The asked cluster is in.
    Ready,
    /// The runtime had nothing to do.
    Nothing,
    /// The enclave has stopped for ever.
    Stopped,
    /// The program has ended, with its status.
    Ended(u64),
    /// The program has trapped, by its vector.
    Trapped(u8),
}

/// What a move is answered. Each but `Ok`, `OkHandle`, `Pte` and `Exit` is a refusal, and changes nothing.
#[derive(Clone, Copy, PartialEq, Eq, Debug)]
pub enum Answer {
    /// It was done.
    Ok,
    /// The page was written out, under this handle.
    OkHandle(Handle),
    /// The page-table entry, as last set.
    Pte(Frame, Flags),
    /// How a run ended.
    Exit(Exit),
    /// The enclave has no such page.
    NoPage,
    /// The page cache has no such frame.
    NotEpc,
    /// The frame holds the SECS.
    IsSecs,
    /// The frame is free.
    Free,
    /// The frame holds a page of another type.
    WrongType,
    /// The frame is not free.
    InUse,
    /// The frame is blocked already.
    Blocked,
    /// The frame is not blocked.
    NotBlocked,
    /// A processor may still have a translation to the frame.
    NotTracked,
    /// The last tracking cycle is not complete.
    PrevIncomplete,
    /// No such slot of a VA page.
    BadVa,
    /// The slot holds a version.
    SlotOccupied,
    /// The slot holds no version.
    SlotEmpty,
    /// The version or the page is not the handle's.
    MacFail,
    /// A processor is inside.
    EnclaveActive,
    /// The handle was never given, or is discarded.
    NoHandle,
    /// No such processor.
    NoLp,
    /// The processor is inside.
    Inside,
    /// The processor is outside.
    Outside,
    /// No walk finds the TCS.
    TcsFault,
    /// Another processor is inside.
    Busy,
    /// No saved-state area is left to enter with, or none is saved to resume.
    Gp,
    /// Resuming is refused until the next entry.
    Pending,
    /// No walk finds the saved-state area.
    SsaFault,
}
