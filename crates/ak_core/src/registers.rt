// The registers of a processor (SDM volume 1, "Basic Program Execution Registers").

/// Who runs: the enclave's program, or the runtime that pages it.
#[derive(Clone, Copy, PartialEq, Eq, Debug)]
pub enum Mode {
    /// The program.
    Program,
    /// The runtime.
    Runtime,
}

/// Registers and flags.
#[derive(Clone, Copy, PartialEq, Eq, Debug)]
pub struct Regs {
    /// RAX, RCX, RDX, RBX, RSP, RBP, RSI, RDI, R8 to R15.
    pub gpr: [u64; 16],
    /// The address of the next instruction.
    pub rip: u64,
    /// The carry flag.
    pub cf: bool,
    /// The zero flag.
    pub zf: bool,
    /// The sign flag.
    pub sf: bool,
    /// The overflow flag.
    pub of: bool,
    /// Who runs.
    pub mode: Mode,
}
