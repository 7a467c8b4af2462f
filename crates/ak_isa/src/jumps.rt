// Jumps and calls by a displacement of 32 bits from the next instruction.
ghost use Rattle.std.specs.Prelude.{◌≡◌, ◌∷◌, []};
ghost use Rattle.ak_model.specs.Flat.Encodings.{decode_by, table, jump_row};

use ak_core::{Cond, Decoded, Instr};

/// After the byte E8 (SDM volume 2, "CALL").
pub(crate) fn decode_call(rest: &[u8]) -> Decoded
    ensures { result ≡ decode_by table (0xe8 ∷ rest.now) }
{
    match rest.first_chunk() {
        None => Decoded::NeedMore,
        Some(rel) => {
            let rel = i32::from_le_bytes(*rel);
            Decoded::Whole(Instr::CallNear { rel }, 5)
        }
    }
}

/// After the byte E9 (SDM volume 2, "JMP").
pub(crate) fn decode_jump(rest: &[u8]) -> Decoded
    ensures { result ≡ decode_by table (0xe9 ∷ rest.now) }
{
    match rest.first_chunk() {
        None => Decoded::NeedMore,
        Some(rel) => {
            let rel = i32::from_le_bytes(*rel);
            Decoded::Whole(Instr::Jump { rel }, 5)
        }
    }
}

/// After the byte 0F and the condition's opcode, whichever it is (SDM volume 2, "Jcc").
pub(crate) fn decode_jump_if(cond: Cond, rest: &[u8]) -> Decoded
    ensures { result ≡ decode_by (jump_row 0x82 cond ∷ []) (0x0f ∷ 0x82 ∷ rest.now) }
{
    match rest.first_chunk() {
        None => Decoded::NeedMore,
        Some(rel) => {
            let rel = i32::from_le_bytes(*rel);
            Decoded::Whole(Instr::JumpIf { cond, rel }, 6)
        }
    }
}
