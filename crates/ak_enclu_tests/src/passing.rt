// What entering and leaving leave.
ghost use Rattle.std.specs.Prelude.{◌<◌};

use crate::enclave::{AREA_FRAME, Parts, TCS_FRAME, built};
use crate::frames::{Noted, REGS, saved_area, tcs_bytes, unused_area};
use ak_core::{Answer, Frame, Kind, Mode, Move, PAGE_SIZE, Regs};
use ak_ssa::Why;
use std::alloc::Global;
use std::process::Abort;
use std::test::Fail;

// The registers at an entry.
fn at_entry(saved: u8, value: u64) -> Regs {
    Regs {
        gpr: [
            u64::from(saved),
            0,
            0,
            0,
            0,
            0,
            0,
            value,
            0,
            0,
            0,
            0,
            0,
            0,
            0,
            0,
        ],
        rip: 98304,
        cf: false,
        zf: false,
        sf: false,
        of: false,
        mode: Mode::Runtime,
    }
}

// The TCS has these bytes, one area has these, and the others are unused.
fn have_bytes(
    rt: &impl Abort,
    parts: &Parts,
    tcs: &[u8; PAGE_SIZE],
    area: u8,
    bytes: &[u8; PAGE_SIZE],
) -> Result<(), &'static str> {
    assert!(rt; parts.bytes(TCS_FRAME)? == *tcs, "the TCS");
    for i in 0..3u8 {
        let now = parts.bytes(AREA_FRAME + u32::from(i))?;
        let is_right = if i == area {
            now == *bytes
        } else {
            now == unused_area(i)
        };
        assert!(rt; is_right, "area {i}");
    }
    Ok(())
}

// A cycle of tracking waits for the processor.
fn is_waited_for(parts: &mut Parts) -> bool {
    parts.encls.leaf(&Move::Etrack);
    parts.encls.leaf(&Move::Etrack) == Answer::PrevIncomplete
}

// The processor is inside, holds the TCS and this area, and nothing is cached.
fn is_inside(rt: &impl Abort, parts: &mut Parts, area: u8) {
    let held = (parts.cpu.tcs, parts.cpu.ssa);
    let area = Frame(AREA_FRAME + u32::from(area));
    assert!(rt; parts.cpu.inside);
    assert_eq!(rt; held, (Frame(TCS_FRAME), area));
    assert_eq!(rt; parts.cached(), 0);
    assert!(rt; is_waited_for(parts));
}

// The processor is outside, and nothing is cached.
fn is_outside(rt: &impl Abort, parts: &mut Parts) {
    assert!(rt; !parts.cpu.inside);
    assert_eq!(rt; parts.cached(), 0);
    assert!(rt; !is_waited_for(parts));
}

// Enters with so many contexts saved, and leaves by EEXIT after resuming was refused again or not.
fn enters_and_quits(
    rt: &impl Abort,
    alloc: Global,
    saved: u8,
    pending: bool,
    later: bool,
) -> Result<(), Fail> {
    let mut parts = built(alloc)?;
    parts.say(saved, pending)?;
    parts.cpu.regs = REGS;
    parts.cache();
    assert_eq!(rt; parts.enter(9, false)?, Answer::Ok);
    assert_eq!(rt; parts.cpu.regs, at_entry(saved, 9));
    is_inside(rt, &mut parts, saved);
    have_bytes(rt, &parts, &tcs_bytes(saved, false), 0, &unused_area(0))?;
    parts.say(saved, later)?;
    parts.cpu.regs = REGS;
    parts.cache();
    parts.quit();
    assert_eq!(rt; parts.cpu.regs, REGS);
    is_outside(rt, &mut parts);
    have_bytes(rt, &parts, &tcs_bytes(saved, later), 0, &unused_area(0))?;
    Ok(())
}

#[test]
fn entering_and_quitting(rt: HostRuntime) -> Result<(), Fail> {
    for saved in 0..3u8 {
        for pending in [false, true] {
            for later in [false, true] {
                enters_and_quits(&rt, rt.alloc(), saved, pending, later)?;
            }
        }
    }
    Ok(())
}

// Each reason with whether it refuses resuming, and what is noted of it.
fn reasons() -> [(Why, bool, Noted); 6] {
    const NONE: [u8; 8] = [0; 8];
    const MIXED: [u8; 8] = [0x11, 0x22, 0x33, 0x44, 0x55, 0x66, 0x77, 0x88];
    let noted = |address, code, info| Noted {
        address,
        code,
        info,
    };
    let fault = |kind| Why::PageFault(0x8877_6655_4433_2211, kind);
    let vector = |v| [v, 3, 0, 0x80];
    [
        (Why::Interrupt, false, noted(NONE, 0, [0; 4])),
        (Why::Vector(0), true, noted(NONE, 0, vector(0))),
        (Why::Vector(13), true, noted(NONE, 0, vector(13))),
        (fault(Kind::Read), true, noted(MIXED, 4, vector(14))),
        (fault(Kind::Write), true, noted(MIXED, 6, vector(14))),
        (fault(Kind::Exec), true, noted(MIXED, 20, vector(14))),
    ]
}

// Leaves for a reason with so many contexts saved, and resumes.
fn leaves_and_resumes(
    rt: &impl Abort,
    alloc: Global,
    saved: u8,
    pending: bool,
    reason: (Why, bool, Noted),
) -> Result<(), Fail>
    requires { saved < 3 }
{
    let (why, refuses, noted) = reason;
    let bytes = saved_area(saved, noted);
    let mut parts = built(alloc)?;
    parts.say(saved, false)?;
    assert_eq!(rt; parts.enter(0, false)?, Answer::Ok);
    parts.say(saved, pending)?;
    parts.cpu.regs = REGS;
    parts.cache();
    parts.exit(why)?;
    let refused = pending || refuses;
    have_bytes(rt, &parts, &tcs_bytes(saved + 1, refused), saved, &bytes)?;
    is_outside(rt, &mut parts);
    if refused {
        assert_eq!(rt; parts.resume(false)?, Answer::Pending);
        parts.say(saved + 1, false)?;
    }
    parts.cpu.regs = at_entry(7, 7);
    parts.cache();
    assert_eq!(rt; parts.resume(false)?, Answer::Ok, "{why:?}");
    assert_eq!(rt; parts.cpu.regs, REGS, "{why:?}");
    is_inside(rt, &mut parts, saved);
    have_bytes(rt, &parts, &tcs_bytes(saved, false), saved, &bytes)?;
    Ok(())
}

#[test]
fn leaving_and_resuming(rt: HostRuntime) -> Result<(), Fail> {
    for saved in 0..3u8 {
        for pending in [false, true] {
            for reason in reasons() {
                leaves_and_resumes(&rt, rt.alloc(), saved, pending, reason)?;
            }
        }
    }
    Ok(())
}

// Enters, and leaves for a reason with this value in RIP.
fn leaves(rt: &impl Abort, parts: &mut Parts, rip: u64, why: Why) -> Result<(), &'static str> {
    assert_eq!(rt; parts.enter(0, false)?, Answer::Ok);
    parts.cpu.regs = Regs { rip, ..REGS };
    parts.exit(why)
}

#[test]
fn contexts_are_resumed_newest_first(rt: HostRuntime) -> Result<(), Fail> {
    let mut parts = built(rt.alloc())?;
    leaves(&rt, &mut parts, 10, Why::Interrupt)?;
    leaves(&rt, &mut parts, 11, Why::Vector(13))?;
    assert_eq!(rt; parts.resume(false)?, Answer::Pending);
    // an entry lets resume again, and an interrupt does not change that
    leaves(&rt, &mut parts, 12, Why::Interrupt)?;
    assert_eq!(rt; parts.enter(0, false)?, Answer::Gp);
    for (rip, area) in [(12, 2), (11, 1), (10, 0)] {
        assert_eq!(rt; parts.resume(false)?, Answer::Ok);
        assert_eq!(rt; parts.cpu.regs, Regs { rip, ..REGS });
        assert_eq!(rt; parts.cpu.ssa, Frame(AREA_FRAME + area));
        parts.quit();
    }
    assert_eq!(rt; parts.resume(false)?, Answer::Gp);
    Ok(())
}
