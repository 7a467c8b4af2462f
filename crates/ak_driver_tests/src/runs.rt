// Runs of the honest kernel: the moves that it gives, where each is answered as here.
use ak_core::{Answer, Exit, Flags, Frame, Handle, Layout, Lp, Move, OutOfMemory, Page, Perm};
use ak_driver::Driver;
use std::alloc::Global;
use std::test::Fail;

const NO_FLAGS: Flags = Flags {
    p: false,
    w: false,
    x: false,
    a: false,
    d: false,
};

const EXECUTABLE: Flags = Flags {
    p: true,
    w: false,
    x: true,
    a: true,
    d: true,
};

const WRITABLE: Flags = Flags {
    p: true,
    w: true,
    x: false,
    a: true,
    d: true,
};

const READABLE: Flags = Flags {
    p: true,
    w: false,
    x: false,
    a: true,
    d: true,
};

const ENTER: (Move, Answer) = (Move::Eenter(Lp(0), 0), Answer::Ok);

const RESUME: (Move, Answer) = (Move::Eresume(Lp(0)), Answer::Ok);

const TRACK: (Move, Answer) = (Move::Etrack, Answer::Ok);

fn run(exit: Exit) -> (Move, Answer) {
    (Move::Run(Lp(0), 1000), Answer::Exit(exit))
}

fn faults() -> (Move, Answer) {
    run(Exit::Pf(65536, 4))
}

fn load(f: u32, p: u8) -> (Move, Answer) {
    let page = u32::from(p);
    (
        Move::Eldu(Frame(f), Handle(page), Page(page), Frame(1), u16::from(p)),
        Answer::Ok,
    )
}

fn unmap(p: u32) -> (Move, Answer) {
    (Move::SetPte(Page(p), Frame(0), NO_FLAGS), Answer::Ok)
}

fn write_out(f: u32, p: u16, k: u32) -> (Move, Answer) {
    (
        Move::Ewb(Frame(f), Frame(1), p),
        Answer::OkHandle(Handle(k)),
    )
}

fn map(p: u32, f: u32) -> (Move, Answer) {
    (Move::SetPte(Page(p), Frame(f), EXECUTABLE), Answer::Ok)
}

// One page, and room for it.
#[tactic(auto, unfolding(ak_core::specs::Layout::enclave_size))]
fn one_page(alloc: Global) -> Result<Layout, OutOfMemory> {
    let Ok(perms) = vec![in alloc; Perm::Rx] else {
        return Err(OutOfMemory);
    };
    let Ok(cluster_of) = vec![in alloc; 0] else {
        return Err(OutOfMemory);
    };
    Ok(Layout::new(65536, 0, perms, cluster_of, 1, 1, 9, 1))
}

// Five clusters of one page, of which four may be in.
#[tactic(auto, unfolding(ak_core::specs::Layout::enclave_size))]
fn five_pages(alloc: Global) -> Result<Layout, OutOfMemory> {
    let Ok(perms) = vec![in alloc; Perm::Rx; 5] else {
        return Err(OutOfMemory);
    };
    let Ok(cluster_of) = vec![in alloc; 0, 1, 2, 3, 4] else {
        return Err(OutOfMemory);
    };
    Ok(Layout::new(65536, 0, perms, cluster_of, 5, 4, 12, 1))
}

// Two clusters of two pages, which differ in what they allow.
#[tactic(auto, unfolding(ak_core::specs::Layout::enclave_size))]
fn two_pages_each(alloc: Global) -> Result<Layout, OutOfMemory> {
    let Ok(perms) = vec![in alloc; Perm::Rx, Perm::Rw, Perm::R, Perm::Rw] else {
        return Err(OutOfMemory);
    };
    let Ok(cluster_of) = vec![in alloc; 0, 1, 1, 0] else {
        return Err(OutOfMemory);
    };
    Ok(Layout::new(65536, 0, perms, cluster_of, 2, 4, 12, 2))
}

// The first move that is another than this, by its number.
fn first_wrong(
    driver: &mut Driver,
    layout: &Layout,
    inputs: &[u64],
    pairs: &[(Move, Answer)],
) -> Option<usize> {
    for (i, (m, a)) in pairs.iter().enumerate() {
        if driver.next(layout, inputs) != Some(*m) {
            return Some(i);
        }
        driver.note(m, a);
    }
    None
}

#[test]
fn a_run_over_one_page_comes_to_its_end(rt: HostRuntime) -> Result<(), Fail> {
    let layout = one_page(rt.alloc())?;
    let mut driver = Driver::new(rt.alloc(), &layout)?;
    let pairs = [
        ENTER,
        faults(),
        ENTER,
        run(Exit::Ask(0, 0)),
        load(8, 0),
        map(0, 8),
        ENTER,
        run(Exit::Ready),
        RESUME,
        run(Exit::Call(1, 7)),
        ENTER,
        run(Exit::Call(2, 0)),
        (Move::Eenter(Lp(0), 9), Answer::Ok),
        run(Exit::Call(2, 0)),
        (Move::Eenter(Lp(0), 5), Answer::Ok),
        run(Exit::Call(2, 0)),
        ENTER,
        run(Exit::Ended(0)),
    ];
    assert_eq!(rt; first_wrong(&mut driver, &layout, &[9, 5], &pairs), None);
    assert_eq!(rt; driver.next(&layout, &[9, 5]), None);
    Ok(())
}

// The moves by which a cluster of one page comes in.
fn comes_in(p: u8, f: u32) -> [(Move, Answer); 8] {
    [
        faults(),
        ENTER,
        run(Exit::Ask(0, u32::from(p))),
        load(f, p),
        map(u32::from(p), f),
        ENTER,
        run(Exit::Ready),
        RESUME,
    ]
}

#[test]
fn a_full_enclave_is_paged(rt: HostRuntime) -> Result<(), Fail> {
    let layout = five_pages(rt.alloc())?;
    let mut driver = Driver::new(rt.alloc(), &layout)?;
    assert_eq!(rt; first_wrong(&mut driver, &layout, &[], &[ENTER]), None);
    for p in 0..4u8 {
        let pairs = comes_in(p, u32::from(p) + 8);
        assert_eq!(rt; first_wrong(&mut driver, &layout, &[], &pairs), None);
    }
    // the first cluster leaves for the fifth, and comes back for the second, from its newest copy
    let pairs = [
        faults(),
        ENTER,
        run(Exit::Ask(1, 4)),
        unmap(0),
        (Move::Eblock(Frame(8)), Answer::Ok),
        TRACK,
        write_out(8, 0, 5),
        load(8, 4),
        map(4, 8),
        ENTER,
        run(Exit::Ready),
        RESUME,
        faults(),
        ENTER,
        run(Exit::Ask(1, 0)),
        unmap(1),
        (Move::Eblock(Frame(9)), Answer::Ok),
        TRACK,
        write_out(9, 1, 6),
        (
            Move::Eldu(Frame(9), Handle(5), Page(0), Frame(1), 0),
            Answer::Ok,
        ),
        map(0, 9),
        ENTER,
        run(Exit::Ready),
        RESUME,
    ];
    assert_eq!(rt; first_wrong(&mut driver, &layout, &[], &pairs), None);
    Ok(())
}

#[test]
fn pages_of_a_cluster_leave_and_come_together(rt: HostRuntime) -> Result<(), Fail> {
    let layout = two_pages_each(rt.alloc())?;
    let mut driver = Driver::new(rt.alloc(), &layout)?;
    let pairs = [
        ENTER,
        faults(),
        ENTER,
        run(Exit::Ask(0, 0)),
        load(8, 0),
        load(9, 3),
        map(0, 8),
        (Move::SetPte(Page(3), Frame(9), WRITABLE), Answer::Ok),
        ENTER,
        run(Exit::Ready),
        RESUME,
        faults(),
        ENTER,
        run(Exit::Ask(1, 1)),
        unmap(0),
        unmap(3),
        (Move::Eblock(Frame(8)), Answer::Ok),
        (Move::Eblock(Frame(9)), Answer::Ok),
        TRACK,
        write_out(8, 0, 4),
        write_out(9, 3, 5),
        load(8, 1),
        load(9, 2),
        (Move::SetPte(Page(1), Frame(8), WRITABLE), Answer::Ok),
        (Move::SetPte(Page(2), Frame(9), READABLE), Answer::Ok),
        ENTER,
    ];
    assert_eq!(rt; first_wrong(&mut driver, &layout, &[], &pairs), None);
    Ok(())
}

// A cycle waits for the other processor, which entered before it.
#[test]
fn a_frame_is_tracked_once_those_inside_have_left(rt: HostRuntime) -> Result<(), Fail> {
    let layout = two_pages_each(rt.alloc())?;
    let mut driver = Driver::new(rt.alloc(), &layout)?;
    let pairs = [
        ENTER,
        faults(),
        ENTER,
        run(Exit::Ask(0, 0)),
        load(8, 0),
        load(9, 3),
        map(0, 8),
        (Move::SetPte(Page(3), Frame(9), WRITABLE), Answer::Ok),
        ENTER,
        run(Exit::Ready),
    ];
    assert_eq!(rt; first_wrong(&mut driver, &layout, &[], &pairs), None);
    // another kernel's moves: a cycle begins while the second processor is inside
    let others = [
        (Move::Eresume(Lp(1)), Answer::Ok),
        (Move::Eblock(Frame(8)), Answer::Ok),
        (Move::Eblock(Frame(9)), Answer::Ok),
        TRACK,
        (Move::Etrack, Answer::PrevIncomplete),
        (Move::Run(Lp(1), 1), Answer::Exit(Exit::Pf(65536, 4))),
        ENTER,
        run(Exit::Ask(1, 1)),
        unmap(0),
    ];
    for (m, a) in &others {
        driver.note(m, a);
    }
    let pairs = [unmap(3), write_out(8, 0, 4), write_out(9, 3, 5)];
    assert_eq!(rt; first_wrong(&mut driver, &layout, &[], &pairs), None);
    Ok(())
}

#[test]
fn a_refused_move_is_not_made_again(rt: HostRuntime) -> Result<(), Fail> {
    let layout = one_page(rt.alloc())?;
    let mut driver = Driver::new(rt.alloc(), &layout)?;
    driver.note(&Move::Eenter(Lp(0), 0), &Answer::TcsFault);
    assert_eq!(rt; driver.next(&layout, &[]), None);
    driver.note(&Move::ReadPte(Page(0)), &Answer::NoPage);
    assert_eq!(rt; driver.next(&layout, &[]), Some(Move::Eenter(Lp(0), 0)));
    Ok(())
}
