// The instructions of the program, one variant for each row of the table of encodings (SDM volume 2).

/// When a conditional jump is taken (SDM volume 2, "Jcc").
#[derive(Clone, Copy, PartialEq, Eq, Debug)]
pub enum Cond {
    /// CF.
    Below,
    /// Not CF.
    NotBelow,
    /// ZF.
    Equal,
    /// Not ZF.
    NotEqual,
    /// SF differs from OF.
    Less,
    /// SF equals OF.
    NotLess,
    /// ZF, or SF differs from OF.
    NotGreater,
    /// Not ZF, and SF equals OF.
    Greater,
}

/// An instruction. `reg` and `rm` are register numbers from 0 to 15, `disp` a displacement from the register `rm`, `rel`
/// one from the next instruction, and `by` the byte of a shift as it stands.
#[derive(Clone, Copy, PartialEq, Eq, Debug)]
pub enum Instr {
    /// MOV of a number of 64 bits into a register.
    MovImm { reg: u8, imm: u64 },
    /// MOV of `reg` into `rm`.
    MovTo { rm: u8, reg: u8 },
    /// MOV of `rm` into `reg`.
    MovFrom { reg: u8, rm: u8 },
    /// MOV of a register into 8 bytes of memory.
    Store { rm: u8, disp: i32, reg: u8 },
    /// MOV of 8 bytes of memory into a register.
    Load { reg: u8, rm: u8, disp: i32 },
    /// MOV of a register's low byte into memory.
    StoreByte { rm: u8, disp: i32, reg: u8 },
    /// MOV of a byte of memory into a register's low byte.
    LoadByte { reg: u8, rm: u8, disp: i32 },
    /// ADD of `reg` to `rm`.
    Add { rm: u8, reg: u8 },
    /// SUB of `reg` from `rm`.
    Sub { rm: u8, reg: u8 },
    /// AND of `rm` and `reg`.
    And { rm: u8, reg: u8 },
    /// OR of `rm` and `reg`.
    Or { rm: u8, reg: u8 },
    /// XOR of `rm` and `reg`.
    Xor { rm: u8, reg: u8 },
    /// CMP of `rm` with `reg`.
    Compare { rm: u8, reg: u8 },
    /// TEST of `rm` and `reg`.
    Test { rm: u8, reg: u8 },
    /// IMUL of `reg` by `rm`.
    Multiply { reg: u8, rm: u8 },
    /// SHL of `rm`.
    ShiftLeft { rm: u8, by: u8 },
    /// SHR of `rm`.
    ShiftRight { rm: u8, by: u8 },
    /// DIV of RDX:RAX by `rm`.
    Divide { rm: u8 },
    /// JMP.
    Jump { rel: i32 },
    /// CALL.
    CallNear { rel: i32 },
    /// Jcc.
    JumpIf { cond: Cond, rel: i32 },
    /// RET.
    Return,
    /// PUSH of a register.
    Push { reg: u8 },
    /// POP into a register.
    Pop { reg: u8 },
    /// NOP.
    Nop,
    /// UD2.
    Undefined,
    /// ENCLU (SDM volume 3D, "ENCLU").
    Enclu,
}

/// What bytes begin with.
#[derive(Clone, Copy, PartialEq, Eq, Debug)]
pub enum Decoded {
    /// A whole instruction, and its length in bytes.
    Whole(Instr, u8),
    /// They are the beginning of an instruction.
    NeedMore,
    /// Neither.
    Illegal,
}
