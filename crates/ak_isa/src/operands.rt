// What a REX prefix and a ModRM byte say of an instruction's operands (SDM volume 2, "REX Prefixes" and "ModR/M and SIB
// Bytes").
ghost use Rattle.std.specs.Prelude.{◌≡◌, ◌+◌, ◌*◌, ◌/◌, ◌%◌, ◌==◌};
ghost use Rattle.ak_isa.specs.Opcodes.{names_memory};

/// The three bits of ModRM's reg.
pub(crate) fn digit(operands: u8) -> u8
    ensures { result ≡ operands / 8 % 8 }
{
    operands / 8 % 8
}

/// The register in ModRM's reg, with the prefix's R.
pub(crate) fn reg(prefix: u8, operands: u8) -> u8
    ensures { result ≡ 8 * (prefix / 4 % 2) + operands / 8 % 8 }
{
    8 * (prefix / 4 % 2) + digit(operands)
}

/// The register in the low three bits of a ModRM byte or of an opcode, with the prefix's B.
pub(crate) fn rm(prefix: u8, operands: u8) -> u8
    ensures { result ≡ 8 * (prefix % 2) + operands % 8 }
{
    8 * (prefix % 2) + operands % 8
}

/// Both operands are registers.
pub(crate) fn is_registers(operands: u8) -> bool
    ensures { result ≡ (operands / 64 == 3) }
{
    operands / 64 == 3
}

/// An operand is memory, at a register with a displacement of 32 bits, and no SIB byte follows.
pub(crate) fn is_memory(operands: u8) -> bool
    ensures { result ≡ names_memory operands }
{
    operands / 64 == 2 && operands % 8 != 4
}

/// The prefix leaves ModRM's reg as it is.
pub(crate) fn has_no_r(prefix: u8) -> bool
    ensures { result ≡ (prefix / 4 % 2 == 0) }
{
    prefix / 4 % 2 == 0
}
