// Reports of journals with each move, answer, event and stop, also those that no run gives.
use ak_core::{
    Answer, Event, Exit, Flags, Frame, Handle, Journal, Kind, Lp, Move, OutOfMemory, Page, Stop,
    StopCause,
};
use ak_outside::{MemSink, SinkFault};
use ak_report::write_report;
use std::alloc::Global;
use std::test::Fail;

const NO_FLAGS: Flags = Flags {
    p: false,
    w: false,
    x: false,
    a: false,
    d: false,
};

const SOME_FLAGS: Flags = Flags {
    p: true,
    w: false,
    x: true,
    a: true,
    d: false,
};

/// A journal of these moves with their answers and this stop; an output and an event stand with the first moves, as many as there are.
fn journal_of(
    alloc: Global,
    lines: &[(Move, Answer)],
    outputs: &[u64],
    events: &[Event],
    stop: Option<Stop>,
) -> Result<Journal, OutOfMemory> {
    let mut journal = Journal::new(alloc);
    for (i, (m, answer)) in lines.iter().enumerate() {
        journal.reserve()?;
        let event = events.get(i).copied();
        let output = outputs.get(i).copied();
        journal.append(*m, *answer, event, output, stop);
    }
    Ok(journal)
}

/// Whether the journal has this report.
fn has_report(alloc: Global, journal: &Journal, want: &str) -> Result<bool, OutOfMemory> {
    let mut out = MemSink::new(alloc);
    out.room(want.len())?;
    Ok(write_report(journal, &mut out).is_ok() && out.taken() == want.as_bytes())
}

#[test]
fn writes_lines(rt: HostRuntime) -> Result<(), Fail> {
    let lines = [
        (Move::SetPte(Page(1), Frame(2), SOME_FLAGS), Answer::Ok),
        (Move::ReadPte(Page(3)), Answer::Pte(Frame(4), NO_FLAGS)),
        (Move::Eblock(Frame(5)), Answer::Blocked),
        (Move::Etrack, Answer::PrevIncomplete),
        (
            Move::Ewb(Frame(6), Frame(7), 511),
            Answer::OkHandle(Handle(8)),
        ),
        (
            Move::Eldu(Frame(9), Handle(10), Page(11), Frame(12), 13),
            Answer::MacFail,
        ),
        (
            Move::Eldb(Frame(14), Handle(15), Page(16), Frame(17), 18),
            Answer::InUse,
        ),
        (Move::Eremove(Frame(19)), Answer::EnclaveActive),
        (Move::Epa(Frame(20)), Answer::NotEpc),
        (Move::Discard(Handle(21)), Answer::NoHandle),
        (Move::Eenter(Lp(0), u64::MAX), Answer::Exit(Exit::Still)),
        (Move::Eresume(Lp(1)), Answer::NoLp),
        (Move::Run(Lp(0), 1_000_000), Answer::Exit(Exit::Call(1, 22))),
        (Move::Interrupt(Lp(255)), Answer::Outside),
    ];
    let events = [
        Event::Call(0, 1, 22),
        Event::Miss(1, 2),
        Event::Trap(3, 14),
        Event::Break(4),
    ];
    let journal = journal_of(rt.alloc(), &lines, &[22, 0], &events, None)?;
    let want = "autarky 1
1 setpte 1 2 pxa -> ok
2 readpte 3 -> pte 4 -
3 eblock 5 -> blocked
4 etrack -> previncomplete
5 ewb 6 7 511 -> handle 8
6 eldu 9 10 11 12 13 -> macfail
7 eldb 14 15 16 17 18 -> inuse
8 eremove 19 -> enclaveactive
9 epa 20 -> notepc
10 drop 21 -> nohandle
11 eenter 0 18446744073709551615 -> in
12 eresume 1 -> nolp
13 run 0 1000000 -> call 1 22
14 interrupt 255 -> outside
output 22
output 0
event call 0 1 22
event miss 1 2
event trap 3 14
event break 4
stop none
";
    assert!(rt; has_report(rt.alloc(), &journal, want)?);
    let empty = Journal::new(rt.alloc());
    assert!(rt; has_report(rt.alloc(), &empty, "autarky 1\nstop none\n")?);
    Ok(())
}

#[test]
fn names_answers(rt: HostRuntime) -> Result<(), Fail> {
    let cases = [
        (Answer::NoPage, "nopage"),
        (Answer::IsSecs, "issecs"),
        (Answer::Free, "free"),
        (Answer::WrongType, "wrongtype"),
        (Answer::NotBlocked, "notblocked"),
        (Answer::NotTracked, "nottracked"),
        (Answer::BadVa, "badva"),
        (Answer::SlotOccupied, "slotoccupied"),
        (Answer::SlotEmpty, "slotempty"),
        (Answer::Inside, "inside"),
        (Answer::TcsFault, "tcsfault"),
        (Answer::Busy, "busy"),
        (Answer::Gp, "gp"),
        (Answer::Pending, "pending"),
        (Answer::SsaFault, "ssafault"),
        (Answer::Exit(Exit::Pf(4096, 7)), "pf 4096 7"),
        (Answer::Exit(Exit::Vector(6)), "vector 6"),
        (Answer::Exit(Exit::Ask(1, 2)), "ask 1 2"),
        (Answer::Exit(Exit::Ready), "ready"),
        (Answer::Exit(Exit::Nothing), "nothing"),
        (Answer::Exit(Exit::Stopped), "stopped"),
        (Answer::Exit(Exit::Ended(3)), "ended 3"),
        (Answer::Exit(Exit::Trapped(13)), "trapped 13"),
    ];
    for (answer, want) in cases {
        let lines = [(Move::Etrack, answer)];
        let journal = journal_of(rt.alloc(), &lines, &[], &[], None)?;
        let report = format!(in rt.alloc(); "autarky 1\n1 etrack -> {want}\nstop none\n")?;
        assert!(rt; has_report(rt.alloc(), &journal, report.as_str())?);
    }
    Ok(())
}

#[test]
fn names_stops(rt: HostRuntime) -> Result<(), Fail> {
    let cases = [
        (
            StopCause::Unmapped(Page(0), Kind::Exec),
            10,
            "unmapped 0 exec blame 10",
        ),
        (
            StopCause::RuntimeUnmapped(Page(7), Kind::Write),
            1,
            "runtime 7 write blame 1",
        ),
        (
            StopCause::FetchNotHonoured(Page(511), Kind::Read),
            2,
            "fetch 511 read blame 2",
        ),
        (StopCause::ResumedEarly, 20_000, "resumed blame 20000"),
        (
            StopCause::Stuck(Page(5), Kind::Write),
            3,
            "stuck 5 write blame 3",
        ),
    ];
    for (cause, blame, want) in cases {
        let lines = [(Move::Etrack, Answer::Ok)];
        let stop = Some(Stop { cause, blame });
        let journal = journal_of(rt.alloc(), &lines, &[], &[], stop)?;
        let report = format!(in rt.alloc(); "autarky 1\n1 etrack -> ok\nstop {want}\n")?;
        assert!(rt; has_report(rt.alloc(), &journal, report.as_str())?);
    }
    Ok(())
}

#[test]
fn stops_at_a_fault(rt: HostRuntime) -> Result<(), Fail> {
    let lines = [(Move::Etrack, Answer::Ok), (Move::Etrack, Answer::NoLp)];
    let journal = journal_of(rt.alloc(), &lines, &[5], &[], None)?;
    let mut out = MemSink::new(rt.alloc());
    out.room(1000)?;
    out.fail_at(3)?;
    assert_eq!(rt; write_report(&journal, &mut out), Err(SinkFault::Failed));
    assert_eq!(rt; out.taken(), b"autarky 1\n1 etrack -> ok\n".as_slice());
    Ok(())
}
