// Pages, frames and what is allowed of them (SDM volume 3D, "Enclave Access Control and Data Structures").

/// The bytes of a page.
pub const PAGE_SIZE: usize = 4096;

/// The number of a page of the enclave. Page `p` has the linear address base + 4096 p.
#[derive(Clone, Copy, PartialEq, Eq, Debug, Default)]
pub struct Page(pub u32);

/// The number of a frame of the enclave page cache. A frame has 4096 bytes.
#[derive(Clone, Copy, PartialEq, Eq, Debug)]
pub struct Frame(pub u32);

/// The number of a logical processor.
#[derive(Clone, Copy, PartialEq, Eq, Debug)]
pub struct Lp(pub u8);

/// The number of a sealed page, given by the write-out.
#[derive(Clone, Copy, PartialEq, Eq, Debug)]
pub struct Handle(pub u32);

/// What an access does.
#[derive(Clone, Copy, PartialEq, Eq, Debug, Default)]
pub enum Kind {
    /// It loads data.
    #[default]
    Read,
    /// It stores data.
    Write,
    /// It fetches an instruction.
    Exec,
}

/// What a page allows. Each allows reading.
#[derive(Clone, Copy, PartialEq, Eq, Debug)]
pub enum Perm {
    /// Reading alone.
    R,
    /// Reading and writing.
    Rw,
    /// Reading and executing.
    Rx,
}

/// The type of a frame's page (SDM volume 3D, "PAGE_TYPE").
#[derive(Clone, Copy, PartialEq, Eq, Debug)]
pub enum PageType {
    /// The enclave's control structure.
    Secs,
    /// A thread's control structure.
    Tcs,
    /// A regular page.
    Reg,
    /// A version array: 512 slots of 8 bytes.
    Va,
}

/// The flags of a page-table entry. No access sets one of them.
#[derive(Clone, Copy, PartialEq, Eq, Debug)]
pub struct Flags {
    /// Present.
    pub p: bool,
    /// Writable.
    pub w: bool,
    /// Executable.
    pub x: bool,
    /// Accessed.
    pub a: bool,
    /// Dirty.
    pub d: bool,
}

/// What the EPCM says of a frame (SDM volume 3D, "Enclave Page Cache Map").
#[derive(Clone, Copy, PartialEq, Eq, Debug)]
pub struct Entry {
    /// The frame is in use.
    pub valid: bool,
    /// The type of its page.
    pub kind: PageType,
    /// Its page.
    pub page: Page,
    /// Reading is allowed.
    pub r: bool,
    /// Writing is allowed.
    pub w: bool,
    /// Executing is allowed.
    pub x: bool,
    /// EBLOCK was applied to it.
    pub blocked: bool,
}

/// An access: a page, and what is done to it. A refused one is a fault.
#[derive(Clone, Copy, PartialEq, Eq, Debug, Default)]
pub struct Fault {
    /// The page that is accessed.
    pub page: Page,
    /// What the access does.
    pub kind: Kind,
}
