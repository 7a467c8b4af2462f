// Saved frames in their pages.
ghost use Rattle.std.specs.Prelude.{◌+◌, ◌<◌, ◌^◌};

use crate::frames::{CLEAR, FULL, ZEROS, laid_out};
use ak_core::{Kind, Mode, PAGE_SIZE, Regs};
use ak_ssa::{
    AREA_PLACE, FRAME_SIZE, STATE_PLACE, Why, clear_valid, frame, guard, load, save, why,
};

#[test]
fn saved_loaded_and_cleared(rt: HostRuntime) {
    let reasons = [
        Why::Interrupt,
        Why::Vector(0),
        Why::Vector(14),
        Why::Vector(255),
        Why::PageFault(0, Kind::Read),
        Why::PageFault(0x1000_3000, Kind::Write),
        Why::PageFault(u64::MAX, Kind::Exec),
    ];
    for regs in [CLEAR, FULL] {
        for reason in reasons {
            let mut page = [0xaa; PAGE_SIZE];
            save(&mut page, &regs, reason);
            assert_eq!(rt; load(&page), regs);
            assert_eq!(rt; why(&page), reason);
            clear_valid(&mut page);
            assert_eq!(rt; load(&page), regs);
            assert_eq!(rt; why(&page), Why::Interrupt, "cleared: {reason:?}");
            assert_eq!(rt; &page[3896..3912], [0; 16].as_slice());
            assert_eq!(rt; &page[4072..4076], [0; 4].as_slice());
            assert_eq!(rt; &page[..3896], [0xaa; 3896].as_slice());
        }
    }
}

// The last 200 bytes of a page with the guard's frame, and whether the bytes below stayed.
fn guarded(code: u64) -> ([u8; FRAME_SIZE], bool)
    requires { code + 16 < 2 ^ 64 }
{
    let mut page = [0xaa; PAGE_SIZE];
    guard(&mut page, code);
    let mut bytes = [0; FRAME_SIZE];
    bytes.copy_from_slice(&page[AREA_PLACE..]);
    (bytes, page[..AREA_PLACE].iter().all(|byte| *byte == 0xaa))
}

// The bytes of a guard's frame with this RIP.
fn guard_at(rip: [u8; 8]) -> ([u8; FRAME_SIZE], bool) {
    (laid_out(ZEROS, 0, [2, 0], rip, [0; 4], 1), true)
}

#[test]
fn the_guard(rt: HostRuntime) {
    assert_eq!(rt; guarded(0), guard_at([16, 0, 0, 0, 0, 0, 0, 0]));
    assert_eq!(rt;
        guarded(0x1000_5000),
        guard_at([0x10, 0x50, 0, 0x10, 0, 0, 0, 0])
    );
    assert_eq!(rt; guarded(0xffff_ffff_ffff_ffef), guard_at([0xff; 8]));
    let (bytes, _) = guarded(0x1000_5000);
    let regs = Regs {
        rip: 0x1000_5010,
        mode: Mode::Runtime,
        ..CLEAR
    };
    assert_eq!(rt; frame::load(&bytes), regs);
    assert_eq!(rt; frame::why(&bytes), Why::Interrupt);
}

#[test]
fn the_frame_in_state(rt: HostRuntime) {
    let mut state = [0xaa; PAGE_SIZE];
    const END: usize = STATE_PLACE + FRAME_SIZE;
    frame::save(&mut state[STATE_PLACE..END], &FULL, Why::Vector(3));
    assert_eq!(rt; &state[..2048], [0xaa; 2048].as_slice());
    assert_eq!(rt; &state[2248..], [0xaa; 1848].as_slice());
    // The same bytes in an area are the same frame.
    let mut page = [0; PAGE_SIZE];
    page[AREA_PLACE..].copy_from_slice(&state[STATE_PLACE..END]);
    assert_eq!(rt; load(&page), FULL);
    assert_eq!(rt; why(&page), Why::Vector(3));
    frame::clear_valid(&mut state[STATE_PLACE..END]);
    assert_eq!(rt; frame::load(&state[STATE_PLACE..END]), FULL);
    assert_eq!(rt; frame::why(&state[STATE_PLACE..END]), Why::Interrupt);
}
