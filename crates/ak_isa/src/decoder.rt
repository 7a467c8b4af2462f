// What bytes begin with (SDM volume 2, "Instruction Format").
ghost use Rattle.std.specs.Prelude.{◌≡◌, ◌≤◌, ◌∷◌, length};
ghost use Rattle.ak_model.specs.Flat.Encodings.{decode_by, table};
ghost use Rattle.ak_model.specs.Flat.Beginnings.{Decodes, IfWhole};
ghost use Rattle.ak_model.specs.Flat.Instructions.{HasRegisters};

use crate::jumps::{decode_call, decode_jump, decode_jump_if};
use crate::narrow::decode_narrow;
use crate::wide::decode_wide;
use ak_core::{Cond, Decoded, Instr};

/// What the bytes begin with: a whole instruction, with its length; a part of one, so that more bytes are wanted; or neither.
/// Bytes after the instruction don't matter.
pub fn decode(bytes: &[u8]) -> Decoded
    ensures table { result ≡ decode_by table bytes.now }
    ensures both_ways { Decodes bytes.now result }

    // Of a whole instruction.
    ensures length { IfWhole result (λ instr n. (n ≤ 10) × (n ≤ length bytes.now)) }
    ensures registers { IfWhole result (λ instr n. HasRegisters instr) }
{
    match bytes {
        [] => Decoded::NeedMore,
        [first, rest @ ..] => decode_first(*first, rest),
    }
}

/// By the first byte, a prefix or an opcode.
fn decode_first(first: u8, rest: &[u8]) -> Decoded
    ensures { result ≡ decode_by table (first ∷ rest.now) }
{
    match first {
        0x0f => decode_escaped(rest),
        0x40 | 0x41 | 0x44 | 0x45 => decode_narrow(first, rest),
        0x48 | 0x49 | 0x4c | 0x4d => decode_wide(first, rest),
        0x50..=0x57 => Decoded::Whole(Instr::Push { reg: first % 8 }, 1),
        0x58..=0x5f => Decoded::Whole(Instr::Pop { reg: first % 8 }, 1),
        0x90 => Decoded::Whole(Instr::Nop, 1),
        0xc3 => Decoded::Whole(Instr::Return, 1),
        0xe8 => decode_call(rest),
        0xe9 => decode_jump(rest),
        _ => Decoded::Illegal,
    }
}

/// After the byte 0F.
fn decode_escaped(rest: &[u8]) -> Decoded
    ensures { result ≡ decode_by table (0x0f ∷ rest.now) }
{
    match rest {
        [] | [0x01] => Decoded::NeedMore,
        [0x01, 0xd7, ..] => Decoded::Whole(Instr::Enclu, 3),
        [0x0b, ..] => Decoded::Whole(Instr::Undefined, 2),
        [0x82, rest @ ..] => decode_jump_if(Cond::Below, rest),
        [0x83, rest @ ..] => decode_jump_if(Cond::NotBelow, rest),
        [0x84, rest @ ..] => decode_jump_if(Cond::Equal, rest),
        [0x85, rest @ ..] => decode_jump_if(Cond::NotEqual, rest),
        [0x8c, rest @ ..] => decode_jump_if(Cond::Less, rest),
        [0x8d, rest @ ..] => decode_jump_if(Cond::NotLess, rest),
        [0x8e, rest @ ..] => decode_jump_if(Cond::NotGreater, rest),
        [0x8f, rest @ ..] => decode_jump_if(Cond::Greater, rest),
        _ => Decoded::Illegal,
    }
}
