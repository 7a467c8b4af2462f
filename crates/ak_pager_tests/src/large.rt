// A cluster of 512 pages, and a queue of 512 clusters of one page each.
ghost use Rattle.std.specs.Prelude.{◌≡◌, ◌≤◌, Some, IfOk, length};
ghost use Rattle.ak_core.specs.Layout.{four_largest, numbers_from};

use crate::defined::step;
use crate::memory::Pages;
use crate::states::{BASE, KEPT, PROGRAM, at_step, put_cluster, put_length, put_phase, saved};
use ak_core::{Exit, Fault, Kind, Layout, PAGE_SIZE, Page, Perm, StopCause};
use ak_pager::RtTurn;
use ak_ssa::{Why, frame, guard, save};
use std::test::Fail;

/// The first saved-state area, after 512 pages of the program and the TCS.
const AREA: usize = 513;

/// The page STATE.
const STATE: usize = 516;

/// How many pages there are.
const ALL: usize = 518;

/// The address of CODE.
const CODE: u64 = BASE + 4096 * 517;

/// A layout of 512 pages that are only read, all of which may be in, by the cluster of each.
#[tactic(auto, unfolding(ak_core::specs::Layout::enclave_size))]
fn many_pages(perms: Vec<Perm>, cluster_of: Vec<u32>, clusters: u32) -> Layout
    requires pages { length perms.items ≡ 512 }
    requires clustered { length cluster_of.items ≡ 512 }
    requires numbered { numbers_from cluster_of.items 0 ≡ Some clusters }
    requires large { four_largest clusters cluster_of.items ≤ 512 }
{
    Layout::new(BASE, 0, perms, cluster_of, clusters, 512, 16, 1)
}

/// The permissions of so many pages that are only read.
fn perms_of(rt: &HostRuntime, count: usize) -> Result<Vec<Perm>, Fail>
    ensures { IfOk result (λ perms. length perms.items ≡ count) }
{
    let mut perms = Vec::new(rt.alloc());
    for _page in 0..count {
        perms.push(Perm::R)?;
    }
    Ok(perms)
}

/// So many pages, all in one cluster.
fn in_one(rt: &HostRuntime, count: u32) -> Result<Layout, Fail>
    requires { count ≡ 512 }
{
    let mut cluster_of = Vec::new(rt.alloc());
    for _page in 0..count {
        cluster_of.push(0)?;
    }
    Ok(many_pages(perms_of(rt, count as usize)?, cluster_of, 1))
}

/// So many pages, each in a cluster of its own.
fn one_each(rt: &HostRuntime, count: u32) -> Result<Layout, Fail>
    requires { count ≡ 512 }
{
    let mut cluster_of = Vec::new(rt.alloc());
    for page in 0..count {
        cluster_of.push(page)?;
    }
    Ok(many_pages(perms_of(rt, count as usize)?, cluster_of, count))
}

/// The bytes of STATE: a phase, the first clusters as the queue, and the program's frame.
fn state_of(phase: &str, queue: u64) -> Result<[u8; PAGE_SIZE], Fail> {
    let mut state = [7u8; PAGE_SIZE];
    put_phase(&mut state, phase)?;
    for c in 0..queue {
        put_cluster(&mut state, c as usize, c);
    }
    put_length(&mut state, queue);
    frame::save(&mut state[2048..2248], &KEPT, Why::Interrupt);
    Ok(state)
}

/// The bytes of an area that has this frame.
fn area_of(words: &str) -> Result<[u8; PAGE_SIZE], Fail> {
    let mut area = [9u8; PAGE_SIZE];
    let (regs, why) = saved(CODE, words)?;
    save(&mut area, &regs, why);
    Ok(area)
}

/// Pages of which STATE has these bytes, and the first area these.
fn pages(rt: &HostRuntime, state: &[u8; PAGE_SIZE], area: &[u8; PAGE_SIZE]) -> Result<Pages, Fail> {
    let mut pages = Pages::new(rt.alloc(), ALL)?;
    pages.put(AREA, area);
    pages.put(STATE, state);
    Ok(pages)
}

/// The third access of the last step, if there was no fourth.
fn third(mem: &Pages) -> Option<Fault> {
    let granted = mem.granted();
    if granted.len() == 3 {
        granted.get(2).copied()
    } else {
        None
    }
}

/// Each page of a cluster of 512 is probed, in ascending order; then the cluster is in.
#[test]
fn probes_a_cluster_of_512(rt: HostRuntime) -> Result<(), Fail> {
    let layout = in_one(&rt, 512)?;
    let mut state = state_of("asked 0", 0)?;
    let mut mem = pages(&rt, &state, &area_of("guard none")?)?;
    let mut regs = at_step(CODE, "probe 0")?;
    for page in 0..512 {
        let turn = step(&layout, &KEPT, &mut regs, &mut mem);
        assert!(rt; turn == Some(RtTurn::Go), "{page}");
        let page = Page(page);
        let kind = Kind::Read;
        assert!(rt; third(&mem) == Some(Fault { page, kind }));
    }
    let untouched = pages(&rt, &state, &area_of("guard none")?)?;
    assert!(rt; mem.pages() == untouched.pages());
    let turn = step(&layout, &KEPT, &mut regs, &mut mem);
    assert!(rt; turn == Some(RtTurn::Leave(Exit::Ready)));
    put_phase(&mut state, "running")?;
    put_cluster(&mut state, 0, 0);
    put_length(&mut state, 1);
    let mut area = area_of("guard none")?;
    save(&mut area, &KEPT, Why::Interrupt);
    let after = pages(&rt, &state, &area)?;
    assert!(rt; mem.pages() == after.pages());
    Ok(())
}

/// A cluster of one page is probed once, and comes into the queue as its last of 512.
#[test]
fn a_queue_of_512(rt: HostRuntime) -> Result<(), Fail> {
    let layout = one_each(&rt, 512)?;
    let mut state = state_of("asked 511", 511)?;
    let mut mem = pages(&rt, &state, &area_of("guard none")?)?;
    let mut regs = at_step(CODE, "probe 0")?;
    let turn = step(&layout, &KEPT, &mut regs, &mut mem);
    assert!(rt; turn == Some(RtTurn::Go));
    let page = Page(511);
    let kind = Kind::Read;
    assert!(rt; third(&mem) == Some(Fault { page, kind }));
    let turn = step(&layout, &KEPT, &mut regs, &mut mem);
    assert!(rt; turn == Some(RtTurn::Leave(Exit::Ready)));
    put_phase(&mut state, "running")?;
    put_cluster(&mut state, 511, 511);
    put_length(&mut state, 512);
    let mut area = area_of("guard none")?;
    save(&mut area, &KEPT, Why::Interrupt);
    let after = pages(&rt, &state, &area)?;
    assert!(rt; mem.pages() == after.pages());
    Ok(())
}

/// With 512 clusters in the queue, a page fault of the program in any of them is a break.
#[test]
fn breaks_in_a_queue_of_512(rt: HostRuntime) -> Result<(), Fail> {
    let layout = one_each(&rt, 512)?;
    for (page, words) in [
        (0, "program page 0 read"),
        (300, "program page 300 read"),
        (511, "program page 511 read"),
    ] {
        let mut state = state_of("running", 512)?;
        let mut area = area_of(words)?;
        let mut mem = pages(&rt, &state, &area)?;
        let mut regs = at_step(CODE, "entry 1 5")?;
        let turn = step(&layout, &PROGRAM, &mut regs, &mut mem);
        let cause = StopCause::Unmapped(Page(page), Kind::Read);
        assert!(rt; turn == Some(RtTurn::Dead(cause)), "{page}");
        put_phase(&mut state, "dead")?;
        guard(&mut area, CODE);
        let after = pages(&rt, &state, &area)?;
        assert!(rt; mem.pages() == after.pages(), "{page}");
    }
    Ok(())
}
