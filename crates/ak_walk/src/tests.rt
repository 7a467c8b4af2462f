// Walks over a hand-made EPCM, with a flag missing or a frame that will not do.
ghost use Rattle.std.specs.Prelude.{◌≡◌, ◌<◌, length, IfOk};

use crate::{mask, walk, walk_tcs};
use ak_core::{Entry, Exit, Fault, Flags, Frame, Kind, Page, PageType};
use ak_epcm::Epcm;
use ak_pte::Pte;
use std::alloc::Global;
use std::test::Fail;

const ALL: Flags = Flags {
    p: true,
    w: true,
    x: true,
    a: true,
    d: true,
};

// A page that allows everything.
const OPEN: Entry = Entry {
    valid: true,
    kind: PageType::Reg,
    page: Page(1),
    r: true,
    w: true,
    x: true,
    blocked: false,
};

const TCS: Entry = Entry {
    kind: PageType::Tcs,
    page: Page(9),
    ..OPEN
};

const KINDS: [Kind; 3] = [Kind::Read, Kind::Write, Kind::Exec];

// Sets a frame's entry, where the frame is free and no frame has the page.
fn put(epcm: &mut Epcm, f: Frame, e: Entry) -> Result<(), &'static str>
    requires { f.0 < length epcm.old }
    ensures { length epcm.new ≡ length epcm.old }
{
    if epcm.entry(f).valid {
        return Err("the frame is in use");
    }
    match epcm.frame_of(e.page) {
        Some(_) => Err("the page is in a frame"),
        None => {
            epcm.set(f, e);
            Ok(())
        }
    }
}

// Frame 0: an open page 1; 1, 2 and 3: pages 2, 3 and 4, for reading, reading and writing, reading and executing; 4: page 5
// that allows nothing; 5: page 6, blocked; 6: a version array; 7: free; 8: the TCS, page 9; 9: another TCS, blocked;
// 10: the control structure.
fn frames(alloc: Global) -> Result<Epcm, Fail> {
    let mut epcm = Epcm::new(alloc, 11)?;
    put(&mut epcm, Frame(0), OPEN)?;
    put(&mut epcm, Frame(1), allowing(Page(2), true, false, false))?;
    put(&mut epcm, Frame(2), allowing(Page(3), true, true, false))?;
    put(&mut epcm, Frame(3), allowing(Page(4), true, false, true))?;
    put(&mut epcm, Frame(4), allowing(Page(5), false, false, false))?;
    put(
        &mut epcm,
        Frame(5),
        Entry {
            page: Page(6),
            blocked: true,
            ..OPEN
        },
    )?;
    put(
        &mut epcm,
        Frame(6),
        Entry {
            page: Page(7),
            kind: PageType::Va,
            ..OPEN
        },
    )?;
    put(&mut epcm, Frame(8), TCS)?;
    put(
        &mut epcm,
        Frame(9),
        Entry {
            page: Page(10),
            blocked: true,
            ..TCS
        },
    )?;
    put(
        &mut epcm,
        Frame(10),
        Entry {
            page: Page(11),
            kind: PageType::Secs,
            ..OPEN
        },
    )?;
    Ok(epcm)
}

fn allowing(page: Page, r: bool, w: bool, x: bool) -> Entry {
    Entry {
        page,
        r,
        w,
        x,
        ..OPEN
    }
}

fn at(frame: u32, flags: Flags) -> Pte {
    Pte {
        frame: Frame(frame),
        flags,
    }
}

fn answer(found: bool, frame: u32, page: Page, kind: Kind) -> Result<Frame, Fault> {
    if found {
        Ok(Frame(frame))
    } else {
        Err(Fault { page, kind })
    }
}

// For each set of flags, which of reading, writing and executing it lets through, and whether entering.
fn flag_rows() -> [(Flags, [bool; 3], bool); 6] {
    [
        (ALL, [true, true, true], true),
        (Flags { p: false, ..ALL }, [false, false, false], false),
        (Flags { w: false, ..ALL }, [true, false, true], true),
        (Flags { x: false, ..ALL }, [true, true, false], true),
        (Flags { a: false, ..ALL }, [false, false, false], false),
        (Flags { d: false, ..ALL }, [false, false, false], false),
    ]
}

#[test]
fn each_flag_counts(rt: HostRuntime) -> Result<(), Fail> {
    let epcm = frames(rt.alloc())?;
    for (flags, lets, enters) in flag_rows() {
        for (kind, found) in KINDS.into_iter().zip(lets) {
            assert_eq!(rt;
                walk(at(0, flags), &epcm, Page(1), kind),
                answer(found, 0, Page(1), kind),
                "{flags:?} {kind:?}"
            );
        }
        assert_eq!(rt;
            walk_tcs(at(8, flags), &epcm, Page(9)),
            answer(enters, 8, Page(9), Kind::Write),
            "{flags:?}"
        );
    }
    Ok(())
}

#[test]
fn the_page_allows_the_kind(rt: HostRuntime) -> Result<(), Fail> {
    let epcm = frames(rt.alloc())?;
    let rows = [
        (1, 2, [true, false, false]),
        (2, 3, [true, true, false]),
        (3, 4, [true, false, true]),
        (4, 5, [false, false, false]),
    ];
    for (frame, page, allows) in rows {
        for (kind, found) in KINDS.into_iter().zip(allows) {
            assert_eq!(rt;
                walk(at(frame, ALL), &epcm, Page(page), kind),
                answer(found, frame, Page(page), kind),
                "{frame} {kind:?}"
            );
        }
    }
    Ok(())
}

#[test]
fn the_frame_holds_the_page(rt: HostRuntime) -> Result<(), Fail> {
    let epcm = frames(rt.alloc())?;
    // another page's, blocked, a version array, free, a TCS, the control structure, and two that there are not
    let rows = [
        (0, 2),
        (1, 1),
        (5, 6),
        (6, 7),
        (7, 0),
        (7, 8),
        (8, 9),
        (10, 11),
        (11, 0),
        (4294967295, 0),
    ];
    for (frame, page) in rows {
        for kind in KINDS {
            assert_eq!(rt;
                walk(at(frame, ALL), &epcm, Page(page), kind),
                answer(false, 0, Page(page), kind),
                "{frame} {kind:?}"
            );
        }
    }
    Ok(())
}

#[test]
fn entering_wants_the_tcs(rt: HostRuntime) -> Result<(), Fail> {
    let epcm = frames(rt.alloc())?;
    // another page's, blocked, a regular page, a version array, free, the control structure, and one that there is not
    let rows = [
        (8, 8),
        (8, 1),
        (9, 10),
        (0, 1),
        (6, 7),
        (7, 0),
        (10, 11),
        (11, 9),
    ];
    for (frame, page) in rows {
        assert_eq!(rt;
            walk_tcs(at(frame, ALL), &epcm, Page(page)),
            answer(false, 0, Page(page), Kind::Write),
            "{frame}"
        );
    }
    Ok(())
}

#[test]
fn faults_are_masked(rt: HostRuntime) {
    assert_eq!(rt; mask(0), Exit::Pf(0, 4));
    assert_eq!(rt; mask(0x7fff_ffe0_0000), Exit::Pf(0x7fff_ffe0_0000, 4));
}
