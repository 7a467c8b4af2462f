// What a move changed, by its answer.
ghost use Rattle.std.specs.Prelude.{◌≡◌};
ghost use Rattle.ak_model.specs.Paging.Histories.{change, if_exit, if_handle, if_ok, Exits, WritesOut};
ghost use Rattle.ak_driver.specs.Changes.{told};

use ak_core::{Answer, Exit, Flags, Frame, Handle, Lp, Move, Page};

/// What a move changed. A refused move changed nothing.
#[derive(Clone, Copy, Debug)]
pub(crate) enum Change {
    /// Nothing.
    Unchanged,
    /// A page's entry in the page table is set.
    Maps(Page, Frame, Flags),
    /// A frame is blocked.
    Blocks(Frame),
    /// A tracking cycle begins.
    Cycles,
    /// A frame's page is written out into a slot of a VA frame, under a handle.
    WritesOut(Frame, Frame, u16, Handle),
    /// A handle's page is loaded into a frame, out of a slot of a VA frame; the frame is blocked or not.
    Loads(Frame, Handle, Page, Frame, u16, bool),
    /// A frame's page is removed.
    Removes(Frame),
    /// A free frame becomes a VA page.
    MakesVa(Frame),
    /// A sealed page is given up.
    Discards(Handle),
    /// A processor enters, with a value.
    Enters(Lp, u64),
    /// A processor resumes.
    Resumes(Lp),
    /// A processor leaves by itself.
    Exits(Lp, Exit),
    /// A processor is interrupted.
    Interrupts(Lp),
}

/// What a move changed, by its answer.
pub(crate) fn change_by(m: &Move, a: &Answer) -> Change
    ensures { told result ≡ change m.now a.now }
{
    match *m {
        Move::SetPte(p, f, flags) => if_ok(a, Change::Maps(p, f, flags)),
        Move::ReadPte(_) => Change::Unchanged,
        Move::Eblock(f) => if_ok(a, Change::Blocks(f)),
        Move::Etrack => if_ok(a, Change::Cycles),
        Move::Ewb(f, va, i) => written(a, f, va, i),
        Move::Eldu(f, k, p, va, i) => if_ok(a, Change::Loads(f, k, p, va, i, false)),
        Move::Eldb(f, k, p, va, i) => if_ok(a, Change::Loads(f, k, p, va, i, true)),
        Move::Eremove(f) => if_ok(a, Change::Removes(f)),
        Move::Epa(f) => if_ok(a, Change::MakesVa(f)),
        Move::Discard(k) => if_ok(a, Change::Discards(k)),
        Move::Eenter(lp, value) => if_ok(a, Change::Enters(lp, value)),
        Move::Eresume(lp) => if_ok(a, Change::Resumes(lp)),
        Move::Run(lp, _) => left(a, lp),
        Move::Interrupt(lp) => if_ok(a, Change::Interrupts(lp)),
    }
}

// The change, where the answer is Ok.
fn if_ok(a: &Answer, change: Change) -> Change
    ensures { told result ≡ if_ok a.now (told change) }
{
    match *a {
        Answer::Ok => change,
        _ => Change::Unchanged,
    }
}

// The page is written out, where the answer gives a handle.
fn written(a: &Answer, f: Frame, va: Frame, i: u16) -> Change
    ensures { told result ≡ if_handle a.now (λ k. WritesOut f.0 va.0 i k) }
{
    match *a {
        Answer::OkHandle(k) => Change::WritesOut(f, va, i, k),
        _ => Change::Unchanged,
    }
}

// The processor leaves, where the answer shows an exit by which it does.
fn left(a: &Answer, lp: Lp) -> Change
    ensures { told result ≡ if_exit a.now (λ exit. Exits lp.0 exit) }
{
    match *a {
        Answer::Exit(Exit::Still) => Change::Unchanged,
        Answer::Exit(exit) => Change::Exits(lp, exit),
        _ => Change::Unchanged,
    }
}
