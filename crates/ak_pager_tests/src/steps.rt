// Each row of the table of steps, with the bytes before and after, and each refused touch.

use crate::defined::step;
use crate::memory::Pages;
use crate::states::{BASE, KEPT, PROGRAM, at_step, number, put_phase, put_queue, saved};
use ak_core::{Fault, Kind, Layout, Mode, PAGE_SIZE, Page, Perm, Regs};
use ak_pager::RtTurn;
use ak_ssa::{Why, frame, guard, save};
use std::test::Fail;

/// The first saved-state area, after eight pages of the program and the TCS.
const AREA: usize = 9;

/// The page STATE.
const STATE: usize = 12;

/// How many pages there are.
const ALL: usize = 14;

/// The address of CODE.
const CODE: u64 = BASE + 4096 * 13;

/// A layout of eight program pages, in clusters of two pages, 0 and 2, 1 and 3, and of one page each. Six pages may be in.
#[tactic(auto, unfolding(ak_core::specs::Layout::enclave_size))]
fn eight_pages(rt: &HostRuntime) -> Result<Layout, Fail> {
    let perms = [
        Perm::Rx,
        Perm::R,
        Perm::Rw,
        Perm::R,
        Perm::Rw,
        Perm::Rw,
        Perm::Rw,
        Perm::Rw,
    ]
    .to_vec(rt.alloc())?;
    let cluster_of = [0, 1, 0, 1, 2, 3, 4, 5].to_vec(rt.alloc())?;
    Ok(Layout::new(BASE, 8, perms, cluster_of, 6, 6, 16, 1))
}

/// A line a row: the step; phase and queue before it; the saved frames of the areas, the oldest first; how the step ends; phase
/// and queue after it; and how many areas have the guard's frame after it.
const ROWS: &str = "\
entry 0 5 | ended 77 | 0 | | Leave(Ended(77)) | ended 77 | 0 | 0
entry 1 5 | ended 77 | 0 | program none | Leave(Ended(77)) | ended 77 | 0 | 0
entry 0 5 | trapped 6 | 0 | | Leave(Trapped(6)) | trapped 6 | 0 | 0
entry 2 5 | trapped 255 | 0 | program none; runtime none | Leave(Trapped(255)) | trapped 255 | 0 | 0
entry 0 5 | dead | 1 | | Leave(Stopped) | dead | 1 | 0
entry 1 5 | dead | 1 | program page 0 read | Leave(Stopped) | dead | 1 | 0
entry 0 5 | new | | | Go | running | | 0
entry 0 5 | calling | 0 2 | | Go | running | 0 2 | 0
entry 1 5 | asked 1 | 0 | guard none | Go | asked 1 | 0 | 0
entry 1 5 | running | 0 | program none | Leave(Nothing) | running | 0 | 0
entry 1 5 | new | | runtime none | Leave(Nothing) | new | | 0
entry 2 5 | asked 1 | 0 | guard none; runtime none | Leave(Nothing) | asked 1 | 0 | 0
entry 2 5 | asked 1 | 0 | guard none; runtime page 1 read | Dead(FetchNotHonoured(Page(1), Read)) | dead | 0 | 2
entry 2 5 | asked 1 | 0 | guard none; runtime page 12 write | Dead(RuntimeUnmapped(Page(12), Write)) | dead | 0 | 2
entry 2 5 | running | 0 | program page 1 read; runtime page 13 exec | Dead(RuntimeUnmapped(Page(13), Exec)) | dead | 0 | 2
entry 1 5 | running | 0 | runtime page 12 write | Dead(RuntimeUnmapped(Page(12), Write)) | dead | 0 | 1
entry 1 5 | new | | runtime page 13 exec | Dead(RuntimeUnmapped(Page(13), Exec)) | dead | | 1
entry 1 5 | running | 0 | program vector 6 | Leave(Trapped(6)) | trapped 6 | 0 | 1
entry 1 5 | running | 0 | program vector 0 | Leave(Trapped(0)) | trapped 0 | 0 | 1
entry 1 5 | running | 0 | program page 1 write | Leave(Trapped(14)) | trapped 14 | 0 | 1
entry 1 5 | running | 0 1 | program page 2 exec | Leave(Trapped(14)) | trapped 14 | 0 1 | 1
entry 1 5 | running | 0 1 | program page 13 write | Leave(Trapped(14)) | trapped 14 | 0 1 | 1
entry 1 5 | running | 2 1 | program page 3 read | Dead(Unmapped(Page(3), Read)) | dead | 2 1 | 1
entry 1 5 | running | 0 2 | program page 0 exec | Dead(Unmapped(Page(0), Exec)) | dead | 0 2 | 1
entry 1 5 | running | | program page 4 write | Leave(Ask(0, 2)) | asked 2 | | 1
entry 1 5 | running | 0 1 | program page 4 write | Leave(Ask(0, 2)) | asked 2 | 0 1 | 1
entry 1 5 | running | 2 0 | program page 3 read | Leave(Ask(0, 1)) | asked 1 | 2 0 | 1
entry 1 5 | running | 0 1 2 3 | program page 6 write | Leave(Ask(1, 4)) | asked 4 | 1 2 3 | 1
entry 1 5 | running | 2 3 4 5 0 | program page 3 read | Leave(Ask(2, 1)) | asked 1 | 4 5 0 | 1
probe 0 | asked 1 | 0 | guard none | Go | asked 1 | 0 | 0
probe 1 | asked 1 | 0 | guard none | Go | asked 1 | 0 | 0
probe 1 | asked 0 | 1 | guard none | Go | asked 0 | 1 | 0
probe 0 | asked 2 | | guard none | Go | asked 2 | | 0
probe 2 | asked 1 | 0 2 | guard none | Leave(Ready) | running | 0 2 1 | 0
probe 1 | asked 2 | | guard none | Leave(Ready) | running | 2 | 0
guard | asked 1 | 0 | | Dead(ResumedEarly) | dead | 0 | 0
guard | trapped 13 | 0 | | Leave(Trapped(13)) | trapped 13 | 0 | 0
guard | dead | 0 | | Leave(Stopped) | dead | 0 | 0
leave 0 9 | running | 0 1 | | Leave(Ended(9)) | ended 9 | 0 1 | 0
leave 1 9 | running | 0 1 | | Leave(Call(1, 9)) | calling | 0 1 | 0
leave 18446744073709551615 0 | running | | | Leave(Call(18446744073709551615, 0)) | calling | | 0
";

/// A row of the table: pages, the step's registers and the program's before the step, and what is expected.
#[derive(Drop)]
struct Row {
    regs: Regs,
    program: Regs,
    before: Pages,
    ending: &'static str,
    after: Pages,
}

/// The pages, of which STATE has these bytes, and the areas these.
fn pages(
    rt: &HostRuntime,
    areas: &[[u8; PAGE_SIZE]; 3],
    state: &[u8; PAGE_SIZE],
) -> Result<Pages, Fail> {
    let mut pages = Pages::new(rt.alloc(), ALL)?;
    for (i, area) in areas.iter().enumerate() {
        pages.put(AREA + i, area);
    }
    pages.put(STATE, state);
    Ok(pages)
}

/// Areas with these saved frames, the oldest first.
fn saved_areas(words: &str) -> Result<[[u8; PAGE_SIZE]; 3], Fail> {
    let mut areas = [[9u8; PAGE_SIZE]; 3];
    for (i, words) in words.split(';').enumerate() {
        let (regs, why) = saved(CODE, words)?;
        if i < 2 && !words.trim().is_empty() {
            save(&mut areas[i], &regs, why);
        }
    }
    Ok(areas)
}

/// The program's registers before a step.
fn program_of(phase: &str, regs: Regs, line: &str) -> Regs {
    if line.starts_with("leave") {
        regs
    } else if phase.starts_with("asked") || phase.starts_with("calling") {
        KEPT
    } else {
        PROGRAM
    }
}

/// Puts what a step writes, beside phase and queue, into STATE and the areas.
fn change(
    state: &mut [u8; PAGE_SIZE],
    areas: &mut [[u8; PAGE_SIZE]; 3],
    regs: Regs,
    line: &str,
    guards: u64,
) {
    if line.contains("Leave(Ask") {
        state[2048..2248].copy_from_slice(&areas[0][3896..]);
    }
    if line.contains("Leave(Ready") {
        save(&mut areas[0], &KEPT, Why::Interrupt);
    }
    if line.starts_with("leave") {
        let left = Regs {
            rip: regs.gpr[1],
            mode: Mode::Program,
            ..regs
        };
        frame::save(&mut state[2048..2248], &left, Why::Interrupt);
    }
    for (i, area) in areas.iter_mut().enumerate() {
        if (i as u64) < guards {
            guard(area, CODE);
        }
    }
}

/// The row that a line says.
fn read_row(rt: &HostRuntime, line: &'static str) -> Result<Row, Fail> {
    let mut columns = line.split('|');
    let regs = at_step(CODE, columns.next().unwrap_or(""))?;
    let phase = columns.next().unwrap_or("").trim();
    let mut state = [7u8; PAGE_SIZE];
    put_phase(&mut state, phase)?;
    put_queue(&mut state, columns.next().unwrap_or(""))?;
    let kept = Why::PageFault(BASE, Kind::Write);
    frame::save(&mut state[2048..2248], &KEPT, kept);
    let mut areas = saved_areas(columns.next().unwrap_or(""))?;
    let before = pages(rt, &areas, &state)?;
    let ending = columns.next().unwrap_or("").trim();
    put_phase(&mut state, columns.next().unwrap_or(""))?;
    put_queue(&mut state, columns.next().unwrap_or(""))?;
    let guards = number(columns.next().unwrap_or("").trim())?;
    change(&mut state, &mut areas, regs, line, guards);
    Ok(Row {
        regs,
        program: program_of(phase, regs, line),
        before,
        ending,
        after: pages(rt, &areas, &state)?,
    })
}

/// The accesses of a step, by its line.
fn accesses(line: &str) -> [Option<Fault>; 4] {
    let access = |page: u32, kind: Kind| Some(Fault {
        page: Page(page),
        kind,
    });
    let code = access(13, Kind::Exec);
    let state = access(12, Kind::Write);
    let (third, fourth) = if line.starts_with("entry 1") {
        (access(9, Kind::Write), None)
    } else if line.starts_with("entry 2") {
        (access(9, Kind::Write), access(10, Kind::Write))
    } else if line.contains("Ready") {
        (access(9, Kind::Write), None)
    } else if line.starts_with("probe 0 | asked 1") {
        (access(1, Kind::Read), None)
    } else if line.starts_with("probe 1 | asked 1") {
        (access(3, Kind::Read), None)
    } else if line.starts_with("probe 1 | asked 0") {
        (access(2, Kind::Write), None)
    } else if line.starts_with("probe 0 | asked 2") {
        (access(4, Kind::Write), None)
    } else {
        (None, None)
    };
    [code, state, third, fourth]
}

/// The registers after a step that goes on.
fn goes_on(line: &str, before: Regs) -> Regs {
    if line.starts_with("entry 0 5 | new") {
        return Regs {
            rip: BASE + 8,
            gpr: [0; 16],
            cf: false,
            zf: false,
            sf: false,
            of: false,
            mode: Mode::Program,
        };
    }
    let mut regs = before;
    if line.starts_with("entry 0") {
        regs = KEPT;
        regs.gpr[0] = 5;
        return regs;
    }
    if line.starts_with("entry") {
        regs.rip = CODE + 48;
        regs.gpr[1] = 0;
        return regs;
    }
    regs.gpr[1] = regs.gpr[1].wrapping_add(1);
    regs
}

#[test]
fn does_each_row(rt: HostRuntime) -> Result<(), Fail> {
    let layout = eight_pages(&rt)?;
    for line in ROWS.lines() {
        let row = read_row(&rt, line)?;
        let mut regs = row.regs;
        let mut mem = row.before;
        let turn = step(&layout, &row.program, &mut regs, &mut mem).ok_or(line)?;
        assert_eq!(rt;
            format!(in rt.alloc(); "{turn:?}")?.as_str(),
            row.ending,
            "{line}"
        );
        assert!(rt; mem.pages() == row.after.pages(), "{line}");
        let mut touched = mem.granted().iter();
        for access in accesses(line) {
            assert!(rt; touched.next().copied() == access, "{line}");
        }
        if matches!(turn, RtTurn::Go) {
            assert_eq!(rt; regs, goes_on(line, row.regs), "{line}");
        }
    }
    Ok(())
}

/// Whichever touch is refused, the step faults, and nothing changes.
#[test]
fn faults_at_each_touch(rt: HostRuntime) -> Result<(), Fail> {
    let layout = eight_pages(&rt)?;
    for line in ROWS.lines() {
        for (k, access) in accesses(line).iter().enumerate() {
            let Some(access) = *access else {
                break;
            };
            let row = read_row(&rt, line)?;
            let mut regs = row.regs;
            let mut mem = row.before;
            mem.refuse(k);
            let turn = step(&layout, &row.program, &mut regs, &mut mem);
            assert!(rt; turn == Some(RtTurn::Faulted(access)), "{line}");
            assert_eq!(rt; regs, row.regs, "{line}");
            let before = read_row(&rt, line)?.before;
            assert!(rt; mem.pages() == before.pages(), "{line}");
        }
    }
    Ok(())
}
