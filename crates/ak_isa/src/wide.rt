// Instructions of 64 bits: those that begin with a REX prefix 0100 1R0B (SDM volume 2, "REX Prefixes").
ghost use Rattle.std.specs.Prelude.{◌≡◌, ◌∷◌, ◌/◌, ◌%◌, ◌*◌, ◌+◌, IsTrue};
ghost use Rattle.ak_model.specs.Flat.Encodings.{decode_by, table, is_prefix};
ghost use Rattle.ak_isa.specs.Opcodes.{is_one_of, arithmetic_opcodes, move_opcodes, names_memory};

use crate::operands::{digit, has_no_r, is_memory, is_registers, reg, rm};
use ak_core::{Decoded, Instr};

/// After a prefix 0100 1R0B.
pub(crate) fn decode_wide(prefix: u8, rest: &[u8]) -> Decoded
    requires { IsTrue (is_prefix prefix 9) }
    ensures { result ≡ decode_by table (prefix ∷ rest.now) }
{
    match rest {
        [] => Decoded::NeedMore,
        [opcode, rest @ ..] => match *opcode {
            0x01 | 0x09 | 0x21 | 0x29 | 0x31 | 0x39 | 0x85 => {
                decode_arithmetic(prefix, *opcode, rest)
            }
            0x0f => decode_multiply(prefix, rest),
            0x89 | 0x8b => decode_move(prefix, *opcode, rest),
            0xb8..=0xbf if has_no_r(prefix) => decode_move_number(prefix, *opcode, rest),
            0xc1 if has_no_r(prefix) => decode_shift(prefix, rest),
            0xf7 if has_no_r(prefix) => decode_divide(prefix, rest),
            _ => Decoded::Illegal,
        },
    }
}

/// ADD, OR, AND, SUB, XOR, CMP and TEST of registers.
fn decode_arithmetic(prefix: u8, opcode: u8, rest: &[u8]) -> Decoded
    requires prefix { IsTrue (is_prefix prefix 9) }
    requires opcode { IsTrue (is_one_of arithmetic_opcodes opcode) }
    ensures { result ≡ decode_by table (prefix ∷ opcode ∷ rest.now) }
{
    match rest {
        [] => Decoded::NeedMore,
        [operands, ..] if is_registers(*operands) => {
            let rm = rm(prefix, *operands);
            let reg = reg(prefix, *operands);
            let instr = match opcode {
                0x01 => Instr::Add { rm, reg },
                0x09 => Instr::Or { rm, reg },
                0x21 => Instr::And { rm, reg },
                0x29 => Instr::Sub { rm, reg },
                0x31 => Instr::Xor { rm, reg },
                0x39 => Instr::Compare { rm, reg },
                _ => Instr::Test { rm, reg },
            };
            Decoded::Whole(instr, 3)
        }
        _ => Decoded::Illegal,
    }
}

/// MOV from a register, or into one (SDM volume 2, "MOV").
fn decode_move(prefix: u8, opcode: u8, rest: &[u8]) -> Decoded
    requires prefix { IsTrue (is_prefix prefix 9) }
    requires opcode { IsTrue (is_one_of move_opcodes opcode) }
    ensures { result ≡ decode_by table (prefix ∷ opcode ∷ rest.now) }
{
    match rest {
        [] => Decoded::NeedMore,
        [operands, ..] if is_registers(*operands) => {
            let rm = rm(prefix, *operands);
            let reg = reg(prefix, *operands);
            let instr = match opcode {
                0x89 => Instr::MovTo { rm, reg },
                _ => Instr::MovFrom { reg, rm },
            };
            Decoded::Whole(instr, 3)
        }
        [operands, rest @ ..] if is_memory(*operands) => {
            decode_memory_move(prefix, opcode, *operands, rest)
        }
        _ => Decoded::Illegal,
    }
}

/// MOV of 8 bytes into memory, or from there.
fn decode_memory_move(prefix: u8, opcode: u8, operands: u8, rest: &[u8]) -> Decoded
    requires prefix { IsTrue (is_prefix prefix 9) }
    requires opcode { IsTrue (is_one_of move_opcodes opcode) }
    requires operands { IsTrue (names_memory operands) }
    ensures { result ≡ decode_by table (prefix ∷ opcode ∷ operands ∷ rest.now) }
{
    match rest.first_chunk() {
        None => Decoded::NeedMore,
        Some(disp) => {
            let disp = i32::from_le_bytes(*disp);
            let rm = rm(prefix, operands);
            let reg = reg(prefix, operands);
            let instr = match opcode {
                0x89 => Instr::Store { rm, disp, reg },
                _ => Instr::Load { reg, rm, disp },
            };
            Decoded::Whole(instr, 7)
        }
    }
}

/// MOV of a number of 64 bits (SDM volume 2, "MOV").
fn decode_move_number(prefix: u8, opcode: u8, rest: &[u8]) -> Decoded
    requires prefix { IsTrue (is_prefix prefix 9) }
    requires no_r { prefix / 4 % 2 ≡ 0 }
    requires opcode { opcode / 8 ≡ 23 }
    ensures { result ≡ decode_by table (prefix ∷ opcode ∷ rest.now) }
{
    match rest.first_chunk() {
        None => Decoded::NeedMore,
        Some(imm) => {
            let reg = rm(prefix, opcode);
            let imm = u64::from_le_bytes(*imm);
            Decoded::Whole(Instr::MovImm { reg, imm }, 10)
        }
    }
}

/// IMUL of registers (SDM volume 2, "IMUL").
fn decode_multiply(prefix: u8, rest: &[u8]) -> Decoded
    requires { IsTrue (is_prefix prefix 9) }
    ensures { result ≡ decode_by table (prefix ∷ 0x0f ∷ rest.now) }
{
    match rest {
        [] | [0xaf] => Decoded::NeedMore,
        [0xaf, operands, ..] if is_registers(*operands) => {
            let reg = reg(prefix, *operands);
            let rm = rm(prefix, *operands);
            Decoded::Whole(Instr::Multiply { reg, rm }, 4)
        }
        _ => Decoded::Illegal,
    }
}

/// SHL and SHR by a byte (SDM volume 2, "SAL/SAR/SHL/SHR").
fn decode_shift(prefix: u8, rest: &[u8]) -> Decoded
    requires prefix { IsTrue (is_prefix prefix 9) }
    requires no_r { prefix / 4 % 2 ≡ 0 }
    ensures { result ≡ decode_by table (prefix ∷ 0xc1 ∷ rest.now) }
{
    match rest {
        [] => Decoded::NeedMore,
        [operands, rest @ ..] if is_registers(*operands) => {
            let rm = rm(prefix, *operands);
            match (digit(*operands), rest) {
                (4 | 5, []) => Decoded::NeedMore,
                (4, [by, ..]) => Decoded::Whole(Instr::ShiftLeft { rm, by: *by }, 4),
                (5, [by, ..]) => Decoded::Whole(Instr::ShiftRight { rm, by: *by }, 4),
                _ => Decoded::Illegal,
            }
        }
        _ => Decoded::Illegal,
    }
}

/// DIV (SDM volume 2, "DIV").
fn decode_divide(prefix: u8, rest: &[u8]) -> Decoded
    requires prefix { IsTrue (is_prefix prefix 9) }
    requires no_r { prefix / 4 % 2 ≡ 0 }
    ensures { result ≡ decode_by table (prefix ∷ 0xf7 ∷ rest.now) }
{
    match rest {
        [] => Decoded::NeedMore,
        [operands, ..] if is_registers(*operands) && digit(*operands) == 6 => {
            let rm = rm(prefix, *operands);
            Decoded::Whole(Instr::Divide { rm }, 3)
        }
        _ => Decoded::Illegal,
    }
}
