// Each answer of EENTER and of ERESUME, where the refusals that would come later hold too, and what makes a walk find no TCS and no area.
ghost use Rattle.std.specs.Prelude.{◌<◌};

use crate::enclave::{AREA_FRAME, MAPPED, Parts, TCS_FRAME, UNMAPPED, built, built_of};
use crate::frames::{REGS, tcs_bytes, unused_area};
use ak_core::{Answer, Flags, Frame, Move, PageType, Perm};
use std::alloc::Global;
use std::process::Abort;
use std::test::Fail;

// Parts of which these words hold: the processor is inside, the TCS or the areas are unmapped, another processor is inside, resuming is
// refused.
fn parts_with(alloc: Global, words: &str, saved: u8) -> Result<Parts, Fail> {
    let mut parts = built(alloc)?;
    parts.say(saved, words.contains("pending"))?;
    parts.cpu.inside = words.contains("inside");
    if words.contains("tcs") {
        parts.map(3, TCS_FRAME, UNMAPPED);
    }
    if words.contains("ssa") {
        parts.unmap_areas();
    }
    parts.cpu.regs = REGS;
    parts.cache();
    Ok(parts)
}

// A refusal left the parts as they were.
fn stayed(rt: &impl Abort, parts: &Parts, words: &str, saved: u8) -> Result<(), &'static str> {
    assert_eq!(rt; parts.cpu.inside, words.contains("inside"), "{words}");
    assert_eq!(rt; parts.cpu.regs, REGS, "{words}");
    assert_eq!(rt; (parts.cpu.tcs, parts.cpu.ssa), (Frame(0), Frame(0)));
    assert_eq!(rt; parts.cached(), 2, "{words}");
    let tcs = tcs_bytes(saved, words.contains("pending"));
    assert_eq!(rt; parts.bytes(TCS_FRAME)?, tcs, "{words}");
    for area in 0..3u8 {
        let bytes = parts.bytes(AREA_FRAME + u32::from(area))?;
        assert_eq!(rt; bytes, unused_area(area), "{words}");
    }
    Ok(())
}

// EENTER and ERESUME are answered so, each to parts of its own.
fn are_answered(
    rt: &impl Abort,
    alloc: Global,
    words: &str,
    saved: u8,
    answers: [Answer; 2],
) -> Result<(), Fail> {
    let busy = words.contains("busy");
    let [entered, resumed] = answers;
    let mut parts = parts_with(alloc, words, saved)?;
    assert_eq!(rt; parts.enter(0, busy)?, entered, "{words} {saved}");
    if entered != Answer::Ok {
        stayed(rt, &parts, words, saved)?;
    }
    let mut parts = parts_with(alloc, words, saved)?;
    assert_eq!(rt; parts.resume(busy)?, resumed, "{words} {saved}");
    if resumed != Answer::Ok {
        stayed(rt, &parts, words, saved)?;
    }
    Ok(())
}

#[test]
fn the_first_refusal_is_the_answer(rt: HostRuntime) -> Result<(), Fail> {
    let alloc = rt.alloc();
    use Answer::{Busy, Gp, Inside, Pending, SsaFault, TcsFault};
    const DONE: Answer = Answer::Ok;
    let cases = [
        ("inside tcs busy pending ssa", 0, [Inside, Inside]),
        ("inside tcs busy pending ssa", 3, [Inside, Inside]),
        ("inside", 1, [Inside, Inside]),
        ("tcs busy pending ssa", 0, [TcsFault, TcsFault]),
        ("tcs busy pending ssa", 3, [TcsFault, TcsFault]),
        ("tcs", 1, [TcsFault, TcsFault]),
        ("busy pending ssa", 0, [Busy, Busy]),
        ("busy pending ssa", 3, [Busy, Busy]),
        ("busy", 1, [Busy, Busy]),
        ("pending ssa", 0, [SsaFault, Gp]),
        ("pending ssa", 1, [SsaFault, Pending]),
        ("pending ssa", 2, [SsaFault, Pending]),
        ("pending ssa", 3, [Gp, Pending]),
        ("ssa", 0, [SsaFault, Gp]),
        ("ssa", 1, [SsaFault, SsaFault]),
        ("ssa", 2, [SsaFault, SsaFault]),
        ("ssa", 3, [Gp, SsaFault]),
        ("pending", 0, [DONE, Gp]),
        ("pending", 1, [DONE, Pending]),
        ("pending", 2, [DONE, Pending]),
        ("pending", 3, [Gp, Pending]),
        ("", 0, [DONE, Gp]),
        ("", 1, [DONE, DONE]),
        ("", 2, [DONE, DONE]),
        ("", 3, [Gp, DONE]),
    ];
    for (words, saved, answers) in cases {
        are_answered(&rt, alloc, words, saved, answers)?;
    }
    Ok(())
}

// Flags that lack one of those that each walk wants.
fn lacking() -> [Flags; 3] {
    [
        Flags { p: false, ..MAPPED },
        Flags { a: false, ..MAPPED },
        Flags { d: false, ..MAPPED },
    ]
}

// EENTER, which wants an area, and ERESUME, which wants the same with one context more, are answered so.
fn both(rt: &impl Abort, mut parts: Parts, area: u8, answer: Answer) -> Result<(), &'static str>
    requires { area < 3 }
{
    parts.say(area, false)?;
    assert_eq!(rt; parts.enter(0, false)?, answer, "area {area}");
    if answer == Answer::Ok {
        parts.quit();
    }
    parts.say(area + 1, false)?;
    assert_eq!(rt; parts.resume(false)?, answer, "area {area}");
    Ok(())
}

// Parts of which a page is mapped so.
fn mapped(alloc: Global, p: u32, frame: u32, flags: Flags) -> Result<Parts, Fail>
    requires { p < 10 }
{
    let mut parts = built(alloc)?;
    parts.map(p, frame, flags);
    Ok(parts)
}

// Parts of which a frame is blocked.
fn blocked(alloc: Global, frame: u32) -> Result<Parts, Fail> {
    let mut parts = built(alloc)?;
    match parts.encls.leaf(&Move::Eblock(Frame(frame))) {
        Answer::Ok => Ok(parts),
        _ => Err(Fail::new("the frame is not blocked")),
    }
}

#[test]
fn the_tcs_is_found_in_its_own_frame(rt: HostRuntime) -> Result<(), Fail> {
    let alloc = rt.alloc();
    // the SECS, a VA page, an area, another TCS, a free frame, and two that there are not
    for frame in [0, 1, 3, 8, 9, 10, 4294967295] {
        let parts = mapped(alloc, 3, frame, MAPPED)?;
        both(&rt, parts, 1, Answer::TcsFault)?;
    }
    for flags in lacking() {
        let parts = mapped(alloc, 3, TCS_FRAME, flags)?;
        both(&rt, parts, 1, Answer::TcsFault)?;
    }
    both(&rt, blocked(alloc, TCS_FRAME)?, 1, Answer::TcsFault)?;
    // a regular page in the place of the TCS
    let parts = built_of(alloc, PageType::Reg, PageType::Reg, Perm::Rw)?;
    both(&rt, parts, 1, Answer::TcsFault)?;
    // its entry need not let writes through
    let read_only = Flags { w: false, ..MAPPED };
    both(&rt, mapped(alloc, 3, TCS_FRAME, read_only)?, 1, Answer::Ok)?;
    Ok(())
}

#[test]
fn an_area_is_found_in_its_own_frame(rt: HostRuntime) -> Result<(), Fail> {
    let alloc = rt.alloc();
    for area in 0..3u8 {
        let p = 4 + u32::from(area);
        let own = AREA_FRAME + u32::from(area);
        // the SECS, a VA page, the TCS, the areas, STATE, CODE, another TCS, a free frame, and two that there are not
        for frame in [0, 1, 2, 3, 4, 5, 6, 7, 8, 9, 10, 4294967295] {
            let found = if frame == own {
                Answer::Ok
            } else {
                Answer::SsaFault
            };
            both(&rt, mapped(alloc, p, frame, MAPPED)?, area, found)?;
        }
        both(&rt, blocked(alloc, own)?, area, Answer::SsaFault)?;
        // another area, or CODE, does not matter
        let other = 4 + (u32::from(area) + 1) % 3;
        both(&rt, mapped(alloc, other, 9, MAPPED)?, area, Answer::Ok)?;
        both(&rt, mapped(alloc, 8, 9, UNMAPPED)?, area, Answer::Ok)?;
    }
    Ok(())
}

#[test]
fn an_area_is_found_for_writing(rt: HostRuntime) -> Result<(), Fail> {
    let alloc = rt.alloc();
    let read_only = Flags { w: false, ..MAPPED };
    // a TCS in the place of an area, and pages that do not allow writing
    let kinds = [
        (PageType::Tcs, Perm::R),
        (PageType::Reg, Perm::R),
        (PageType::Reg, Perm::Rx),
    ];
    for area in 0..3u8 {
        let p = 4 + u32::from(area);
        let own = AREA_FRAME + u32::from(area);
        let parts = mapped(alloc, p, own, read_only)?;
        both(&rt, parts, area, Answer::SsaFault)?;
        for flags in lacking() {
            let parts = mapped(alloc, p, own, flags)?;
            both(&rt, parts, area, Answer::SsaFault)?;
        }
        for (kind, perm) in kinds {
            let parts = built_of(alloc, PageType::Tcs, kind, perm)?;
            both(&rt, parts, area, Answer::SsaFault)?;
        }
    }
    Ok(())
}
