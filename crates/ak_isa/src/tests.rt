// Each encoding once, by the SDM's tables (volume 2, the page of each instruction), and bytes at the edges.
use crate::{Cond, Decoded, Instr, decode};

/// Bytes that begin with an instruction, and its length.
const WHOLE: [(&[u8], Instr, u8); 39] = [
    (
        &[0x49, 0xbd, 0x88, 0x77, 0x66, 0x55, 0x44, 0x33, 0x22, 0x11],
        Instr::MovImm {
            reg: 13,
            imm: 0x1122_3344_5566_7788,
        },
        10,
    ),
    (&[0x4c, 0x89, 0xea], Instr::MovTo { rm: 2, reg: 13 }, 3),
    (&[0x49, 0x8b, 0xc7], Instr::MovFrom { reg: 0, rm: 15 }, 3),
    (
        &[0x4c, 0x89, 0x87, 0x00, 0x02, 0x00, 0x00],
        Instr::Store {
            rm: 7,
            disp: 512,
            reg: 8,
        },
        7,
    ),
    (
        &[0x49, 0x8b, 0x8d, 0xf0, 0xff, 0xff, 0xff],
        Instr::Load {
            reg: 1,
            rm: 13,
            disp: -16,
        },
        7,
    ),
    (
        &[0x44, 0x88, 0x8a, 0x00, 0x00, 0x00, 0x80],
        Instr::StoreByte {
            rm: 2,
            disp: -0x8000_0000,
            reg: 9,
        },
        7,
    ),
    (
        &[0x41, 0x8a, 0xb6, 0xff, 0xff, 0xff, 0x7f],
        Instr::LoadByte {
            reg: 6,
            rm: 14,
            disp: 0x7fff_ffff,
        },
        7,
    ),
    (&[0x48, 0x01, 0xd8], Instr::Add { rm: 0, reg: 3 }, 3),
    (&[0x4c, 0x29, 0xc1], Instr::Sub { rm: 1, reg: 8 }, 3),
    (&[0x49, 0x21, 0xf0], Instr::And { rm: 8, reg: 6 }, 3),
    (&[0x48, 0x09, 0xfa], Instr::Or { rm: 2, reg: 7 }, 3),
    (&[0x4d, 0x31, 0xd2], Instr::Xor { rm: 10, reg: 10 }, 3),
    (&[0x48, 0x39, 0xc8], Instr::Compare { rm: 0, reg: 1 }, 3),
    (&[0x4d, 0x85, 0xf6], Instr::Test { rm: 14, reg: 14 }, 3),
    (
        &[0x4c, 0x0f, 0xaf, 0xe3],
        Instr::Multiply { reg: 12, rm: 3 },
        4,
    ),
    (
        &[0x49, 0xc1, 0xe2, 0x3f],
        Instr::ShiftLeft { rm: 10, by: 63 },
        4,
    ),
    (
        &[0x48, 0xc1, 0xed, 0xff],
        Instr::ShiftRight { rm: 5, by: 255 },
        4,
    ),
    (&[0x49, 0xf7, 0xf1], Instr::Divide { rm: 9 }, 3),
    (&[0xe9, 0x10, 0x00, 0x00, 0x00], Instr::Jump { rel: 16 }, 5),
    (
        &[0xe8, 0xfb, 0xff, 0xff, 0xff],
        Instr::CallNear { rel: -5 },
        5,
    ),
    (
        &[0x0f, 0x82, 0x01, 0, 0, 0],
        Instr::JumpIf {
            cond: Cond::Below,
            rel: 1,
        },
        6,
    ),
    (
        &[0x0f, 0x83, 0, 0x01, 0, 0],
        Instr::JumpIf {
            cond: Cond::NotBelow,
            rel: 256,
        },
        6,
    ),
    (
        &[0x0f, 0x84, 0, 0, 0x01, 0],
        Instr::JumpIf {
            cond: Cond::Equal,
            rel: 65_536,
        },
        6,
    ),
    (
        &[0x0f, 0x85, 0, 0, 0, 0x01],
        Instr::JumpIf {
            cond: Cond::NotEqual,
            rel: 16_777_216,
        },
        6,
    ),
    (
        &[0x0f, 0x8c, 0, 0, 0, 0],
        Instr::JumpIf {
            cond: Cond::Less,
            rel: 0,
        },
        6,
    ),
    (
        &[0x0f, 0x8d, 0, 0, 0, 0],
        Instr::JumpIf {
            cond: Cond::NotLess,
            rel: 0,
        },
        6,
    ),
    (
        &[0x0f, 0x8e, 0, 0, 0, 0],
        Instr::JumpIf {
            cond: Cond::NotGreater,
            rel: 0,
        },
        6,
    ),
    (
        &[0x0f, 0x8f, 0, 0, 0, 0],
        Instr::JumpIf {
            cond: Cond::Greater,
            rel: 0,
        },
        6,
    ),
    (&[0xc3], Instr::Return, 1),
    (&[0x55], Instr::Push { reg: 5 }, 1),
    (&[0x41, 0x54], Instr::Push { reg: 12 }, 2),
    (&[0x5f], Instr::Pop { reg: 7 }, 1),
    (&[0x41, 0x58], Instr::Pop { reg: 8 }, 2),
    (&[0x90], Instr::Nop, 1),
    (&[0x0f, 0x0b], Instr::Undefined, 2),
    (&[0x0f, 0x01, 0xd7], Instr::Enclu, 3),
    // More bytes come after it.
    (&[0xc3, 0x4c, 0xb8], Instr::Return, 1),
    (&[0x49, 0xf7, 0xf1, 0x00], Instr::Divide { rm: 9 }, 3),
    (
        &[0x48, 0xb8, 1, 0, 0, 0, 0, 0, 0, 0, 0x06, 0x06],
        Instr::MovImm { reg: 0, imm: 1 },
        10,
    ),
];

/// Bytes that are not whole yet.
const SHORT: [&[u8]; 9] = [
    &[],
    &[0x4d],
    &[0x41],
    &[0x0f, 0x01],
    &[0x4c, 0x0f, 0xaf],
    &[0x49, 0xc1, 0xe2],
    &[0xe9, 0, 0, 0],
    &[0x48, 0x89, 0x83, 0, 0, 0],
    &[0x49, 0xbd, 0, 0, 0, 0, 0, 0, 0],
];

/// Bytes that the last one makes no encoding.
const ILLEGAL: [&[u8]; 14] = [
    &[0x06],
    &[0x4a],
    &[0x4c, 0xb8],
    &[0x4c, 0xc1],
    &[0x4d, 0xf7],
    &[0x48, 0x90],
    &[0x40, 0x50],
    &[0x0f, 0x80],
    &[0x0f, 0xaf],
    &[0x48, 0xc1, 0xc0],
    &[0x48, 0x89, 0x84],
    &[0x49, 0x8b, 0x84],
    &[0x40, 0x88, 0xc3],
    &[0x0f, 0x01, 0xd0],
];

#[test]
fn reads_the_table(rt: HostRuntime) {
    for (bytes, instr, size) in WHOLE {
        assert_eq!(rt; decode(bytes), Decoded::Whole(instr, size), "{bytes:?}");
    }
    for bytes in SHORT {
        assert_eq!(rt; decode(bytes), Decoded::NeedMore, "{bytes:?}");
    }
    for bytes in ILLEGAL {
        assert_eq!(rt; decode(bytes), Decoded::Illegal, "{bytes:?}");
    }
}
