// The bytes of TCS and areas, field by field.
use ak_core::{Mode, PAGE_SIZE, Regs};
use ak_ssa::{AREA_PLACE, FRAME_SIZE};

/// Registers of the program.
pub const REGS: Regs = Regs {
    gpr: [
        1,
        2,
        3,
        4,
        5,
        6,
        7,
        8,
        9,
        10,
        11,
        12,
        13,
        14,
        15,
        18446744073709551615,
    ],
    rip: 65541,
    cf: true,
    zf: false,
    sf: true,
    of: false,
    mode: Mode::Program,
};

/// What is saved of an exit: MADDR, ERRCD and EXITINFO.
#[derive(Clone, Copy)]
pub struct Noted {
    pub address: [u8; 8],
    pub code: u8,
    pub info: [u8; 4],
}

/// A TCS that says how many contexts are saved, and whether resuming is refused.
pub fn tcs_bytes(saved: u8, pending: bool) -> [u8; PAGE_SIZE] {
    let mut bytes = [0xa5; PAGE_SIZE];
    bytes[24..28].copy_from_slice(&[saved, 0, 0, 0]);
    bytes[72] = u8::from(pending);
    bytes
}

/// An area into which nothing was saved.
pub fn unused_area(area: u8) -> [u8; PAGE_SIZE] {
    [0xb0 | area; PAGE_SIZE]
}

/// An area into which `REGS` were saved.
pub fn saved_area(area: u8, noted: Noted) -> [u8; PAGE_SIZE] {
    let mut bytes = unused_area(area);
    bytes[AREA_PLACE..].copy_from_slice(&saved_frame(noted));
    bytes
}

// The frame of `REGS`: EXINFO, the sixteen registers, RFLAGS, RIP, EXITINFO, and the mode of the program.
fn saved_frame(noted: Noted) -> [u8; FRAME_SIZE] {
    let mut bytes = [0; FRAME_SIZE];
    bytes[..8].copy_from_slice(&noted.address);
    bytes[8] = noted.code;
    for i in 0..15u8 {
        bytes[16 + 8 * usize::from(i)] = i + 1;
    }
    bytes[136..144].fill(0xff);
    bytes[144] = 0x83;
    bytes[152..155].copy_from_slice(&[5, 0, 1]);
    bytes[176..180].copy_from_slice(&noted.info);
    bytes
}
