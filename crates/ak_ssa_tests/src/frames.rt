// The 200 bytes of saved frames, field by field.
ghost use Rattle.std.specs.Prelude.{◌+◌, ◌≤◌, length};

use ak_core::{Kind, Mode, Regs};
use ak_ssa::{FRAME_SIZE, Why, frame};

// Registers with all clear.
pub const CLEAR: Regs = Regs {
    gpr: [0; 16],
    rip: 0,
    cf: false,
    zf: false,
    sf: false,
    of: false,
    mode: Mode::Program,
};

// Registers of the greatest numbers, with all set.
pub const FULL: Regs = Regs {
    gpr: [u64::MAX; 16],
    rip: u64::MAX,
    cf: true,
    zf: true,
    sf: true,
    of: true,
    mode: Mode::Runtime,
};

// A number whose bytes all differ, and the bytes.
const MIXED: u64 = 0x8877_6655_4433_2211;

const MIXED_BYTES: [u8; 8] = [0x11, 0x22, 0x33, 0x44, 0x55, 0x66, 0x77, 0x88];

pub const ZEROS: [u8; 8] = [0; 8];

// The bytes of a frame that is saved over others.
fn saved(regs: &Regs, why: Why) -> [u8; FRAME_SIZE] {
    let mut bytes = [0xaa; FRAME_SIZE];
    frame::save(&mut bytes, regs, why);
    bytes
}

// Puts a field at its place.
fn put(bytes: &mut [u8; FRAME_SIZE], place: usize, field: &[u8])
    requires { place + length field.now ≤ 200 }
{
    bytes[place..place + field.len()].copy_from_slice(field);
}

// The bytes of a frame whose sixteen registers are zero, by MADDR, ERRCD, RFLAGS, RIP, EXITINFO and the mode.
pub fn laid_out(
    address: [u8; 8],
    code: u8,
    flags: [u8; 2],
    rip: [u8; 8],
    info: [u8; 4],
    mode: u8,
) -> [u8; FRAME_SIZE] {
    let mut bytes = [0; FRAME_SIZE];
    put(&mut bytes, 0, &address);
    put(&mut bytes, 8, &[code]);
    put(&mut bytes, 144, &flags);
    put(&mut bytes, 152, &rip);
    put(&mut bytes, 176, &info);
    put(&mut bytes, 180, &[mode]);
    bytes
}

#[test]
fn each_field_alone(rt: HostRuntime) {
    const NONE: [u8; 4] = [0; 4];
    const INVALID_OPCODE: [u8; 4] = [6, 3, 0, 0x80];
    const PAGE_FAULT: [u8; 4] = [14, 3, 0, 0x80];
    let (cf, zf) = (Regs { cf: true, ..CLEAR }, Regs { zf: true, ..CLEAR });
    let (sf, of) = (Regs { sf: true, ..CLEAR }, Regs { of: true, ..CLEAR });
    let rip = Regs {
        rip: MIXED,
        ..CLEAR
    };
    let runtime = Regs {
        mode: Mode::Runtime,
        ..CLEAR
    };
    let fault = |kind| Why::PageFault(MIXED, kind);
    let cases = [
        (
            CLEAR,
            Why::Interrupt,
            laid_out(ZEROS, 0, [2, 0], ZEROS, NONE, 0),
        ),
        (
            cf,
            Why::Interrupt,
            laid_out(ZEROS, 0, [3, 0], ZEROS, NONE, 0),
        ),
        (
            zf,
            Why::Interrupt,
            laid_out(ZEROS, 0, [0x42, 0], ZEROS, NONE, 0),
        ),
        (
            sf,
            Why::Interrupt,
            laid_out(ZEROS, 0, [0x82, 0], ZEROS, NONE, 0),
        ),
        (
            of,
            Why::Interrupt,
            laid_out(ZEROS, 0, [2, 8], ZEROS, NONE, 0),
        ),
        (
            rip,
            Why::Interrupt,
            laid_out(ZEROS, 0, [2, 0], MIXED_BYTES, NONE, 0),
        ),
        (
            runtime,
            Why::Interrupt,
            laid_out(ZEROS, 0, [2, 0], ZEROS, NONE, 1),
        ),
        (
            CLEAR,
            Why::Vector(6),
            laid_out(ZEROS, 0, [2, 0], ZEROS, INVALID_OPCODE, 0),
        ),
        (
            CLEAR,
            fault(Kind::Read),
            laid_out(MIXED_BYTES, 4, [2, 0], ZEROS, PAGE_FAULT, 0),
        ),
        (
            CLEAR,
            fault(Kind::Write),
            laid_out(MIXED_BYTES, 6, [2, 0], ZEROS, PAGE_FAULT, 0),
        ),
        (
            CLEAR,
            fault(Kind::Exec),
            laid_out(MIXED_BYTES, 20, [2, 0], ZEROS, PAGE_FAULT, 0),
        ),
    ];
    for (regs, why, bytes) in cases {
        assert_eq!(rt; saved(&regs, why), bytes, "{regs:?} {why:?}");
        assert_eq!(rt; frame::load(&bytes), regs);
        assert_eq!(rt; frame::why(&bytes), why);
    }
}

#[test]
fn each_register_alone(rt: HostRuntime) {
    for i in 0..16 {
        let mut regs = CLEAR;
        regs.gpr[i] = MIXED;
        let mut bytes = laid_out(ZEROS, 0, [2, 0], ZEROS, [0; 4], 0);
        bytes[16 + 8 * i..24 + 8 * i].copy_from_slice(&MIXED_BYTES);
        assert_eq!(rt; saved(&regs, Why::Interrupt), bytes, "register {i}");
        assert_eq!(rt; frame::load(&bytes), regs, "register {i}");
    }
}

#[test]
fn the_greatest_numbers(rt: HostRuntime) {
    let greatest = [0xff; 8];
    let why = Why::PageFault(u64::MAX, Kind::Exec);
    let mut bytes = laid_out(greatest, 20, [0xc3, 8], greatest, [14, 3, 0, 0x80], 1);
    bytes[16..144].fill(0xff);
    assert_eq!(rt; saved(&FULL, why), bytes);
    assert_eq!(rt; frame::load(&bytes), FULL);
    assert_eq!(rt; frame::why(&bytes), why);
    // Whatever the bytes are, registers and a reason are read.
    assert_eq!(rt; frame::load(&[0xff; FRAME_SIZE]), FULL);
    assert_eq!(rt; frame::why(&[0xff; FRAME_SIZE]), why);
}

#[test]
fn every_vector(rt: HostRuntime) {
    for vector in 0..=255 {
        let bytes = saved(&FULL, Why::Vector(vector));
        assert_eq!(rt;
            &bytes[176..180],
            [vector, 3, 0, 0x80].as_slice(),
            "vector {vector}"
        );
        assert_eq!(rt; &bytes[..16], [0; 16].as_slice(), "vector {vector}");
        assert_eq!(rt; frame::why(&bytes), Why::Vector(vector));
    }
}
