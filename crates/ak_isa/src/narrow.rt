// Instructions that begin with a REX prefix 0100 0R0B (SDM volume 2, "REX Prefixes").
ghost use Rattle.std.specs.Prelude.{◌≡◌, ◌∷◌, IsTrue};
ghost use Rattle.ak_model.specs.Flat.Encodings.{decode_by, table, is_prefix};
ghost use Rattle.ak_isa.specs.Opcodes.{is_one_of, byte_opcodes, names_memory};

use crate::operands::{is_memory, reg, rm};
use ak_core::{Decoded, Instr};

/// The prefix of PUSH and POP of the registers from 8 on.
const HIGH: u8 = 0x41;

/// After a prefix 0100 0R0B.
pub(crate) fn decode_narrow(prefix: u8, rest: &[u8]) -> Decoded
    requires { IsTrue (is_prefix prefix 8) }
    ensures { result ≡ decode_by table (prefix ∷ rest.now) }
{
    match rest {
        [] => Decoded::NeedMore,
        [opcode, rest @ ..] => match *opcode {
            0x50..=0x57 if prefix == HIGH => {
                let reg = rm(prefix, *opcode);
                Decoded::Whole(Instr::Push { reg }, 2)
            }
            0x58..=0x5f if prefix == HIGH => {
                let reg = rm(prefix, *opcode);
                Decoded::Whole(Instr::Pop { reg }, 2)
            }
            0x88 | 0x8a => decode_byte_move(prefix, *opcode, rest),
            _ => Decoded::Illegal,
        },
    }
}

/// MOV of a byte into memory, or from there (SDM volume 2, "MOV").
fn decode_byte_move(prefix: u8, opcode: u8, rest: &[u8]) -> Decoded
    requires prefix { IsTrue (is_prefix prefix 8) }
    requires opcode { IsTrue (is_one_of byte_opcodes opcode) }
    ensures { result ≡ decode_by table (prefix ∷ opcode ∷ rest.now) }
{
    match rest {
        [] => Decoded::NeedMore,
        [operands, rest @ ..] if is_memory(*operands) => {
            decode_memory_byte(prefix, opcode, *operands, rest)
        }
        _ => Decoded::Illegal,
    }
}

/// After the ModRM byte.
fn decode_memory_byte(prefix: u8, opcode: u8, operands: u8, rest: &[u8]) -> Decoded
    requires prefix { IsTrue (is_prefix prefix 8) }
    requires opcode { IsTrue (is_one_of byte_opcodes opcode) }
    requires operands { IsTrue (names_memory operands) }
    ensures { result ≡ decode_by table (prefix ∷ opcode ∷ operands ∷ rest.now) }
{
    match rest.first_chunk() {
        None => Decoded::NeedMore,
        Some(disp) => {
            let disp = i32::from_le_bytes(*disp);
            let rm = rm(prefix, operands);
            let reg = reg(prefix, operands);
            let instr = match opcode {
                0x88 => Instr::StoreByte { rm, disp, reg },
                _ => Instr::LoadByte { reg, rm, disp },
            };
            Decoded::Whole(instr, 7)
        }
    }
}
