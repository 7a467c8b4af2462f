// The accesses that a move may make fail.
ghost use Rattle.std.specs.Prelude.{◌≡◌, ◌&&◌, ◌<◌, true, nat_lt, not};
ghost use Rattle.ak_core.specs.Mem.{Access};
ghost use Rattle.ak_model.specs.Paging.Histories.{History};
ghost use Rattle.ak_model.specs.Paging.Pages.{all_pages as count_pages};
ghost use Rattle.ak_model.specs.Paging.Walk.{walkable as is_walkable};
ghost use Rattle.ak_core.specs.declared.page.Kind.{Kind as TheKind};
ghost use Rattle.ak_relation.specs.State.MachineState.{State};
ghost use Rattle.ak_relation.specs.State.Tables.{TablesStand};
ghost use Rattle.ak_machine.specs.Machines.{IsState};
ghost use Rattle.ak_run.specs.Watching.{AreLeft, IsWatched, finds, frame_by, framed_by, named_by, page_in, watches};

use ak_core::{Entry, Frame, Kind, Move, Page, PageType, all_pages};
use ak_machine::Machine;

/// Of which kinds a walk finds a page.
#[derive(Clone, Copy, Debug)]
pub(crate) struct Found {
    /// A read finds it.
    pub read: bool,
    /// A write finds it.
    pub write: bool,
    /// A fetch finds it.
    pub exec: bool,
}

/// Accesses of one page.
#[derive(Clone, Copy, Debug)]
pub(crate) struct Watch {
    /// The page.
    pub page: Page,
    /// The kinds.
    pub found: Found,
}

/// No kind.
const NOTHING: Found = Found {
    read: false,
    write: false,
    exec: false,
};

/// Of which kinds walks find this page of the enclave now.
fn walk(machine: &Machine, p: Page) -> Found
    ensures { (past : History) (state : State) → IsState machine.now state → TablesStand machine.now.layout past state → p.0 < count_pages machine.now.layout
        → (kind : TheKind) → finds result kind ≡ is_walkable machine.now.layout past p.0 kind }
{
    Found {
        read: machine.walkable(p, Kind::Read),
        write: machine.walkable(p, Kind::Write),
        exec: machine.walkable(p, Kind::Exec),
    }
}

impl Watch {
    /// The accesses of a page that walks find now. A page that the enclave does not have has none.
    fn of(machine: &Machine, page: Option<Page>) -> Watch
        ensures { (past : History) (state : State) → IsState machine.now state → TablesStand machine.now.layout past state
            → IsWatched machine.now.layout past page result }
    {
        match page {
            Some(page) if has_page(machine, page) => Watch {
                page,
                found: walk(machine, page),
            },
            _ => Watch {
                page: Page(0),
                found: NOTHING,
            },
        }
    }

    /// The accesses of the page that the move names.
    pub fn named(machine: &Machine, m: &Move) -> Watch
        ensures { (past : History) (state : State) → IsState machine.now state → TablesStand machine.now.layout past state
            → IsWatched machine.now.layout past (named_by m.now) result }
    {
        Watch::of(machine, named_page(m))
    }

    /// The accesses of the page in the frame that the move would block, empty or fill.
    pub fn framed(machine: &Machine, m: &Move) -> Watch
        ensures { (past : History) (state : State) → IsState machine.now state → TablesStand machine.now.layout past state
            → IsWatched machine.now.layout past (framed_by machine.now.encls.entries m.now) result }
    {
        Watch::of(machine, framed_page(machine, m))
    }

    /// Those that walks do not find any more, of a page of the enclave.
    pub fn lost(&self, machine: &Machine) -> Watch
        ensures { (past : History) (state : State) → IsState machine.now state → TablesStand machine.now.layout past state
            → ((t : Access) → watches self.now t ≡ true → t.page.0 < count_pages machine.now.layout) → AreLeft machine.now.layout past self.now result }
    {
        let Watch { page, found } = *self;
        Watch {
            page,
            found: Found {
                read: is_lost(machine, found.read, page, Kind::Read),
                write: is_lost(machine, found.write, page, Kind::Write),
                exec: is_lost(machine, found.exec, page, Kind::Exec),
            },
        }
    }
}

/// A walk found the page for this kind, and none does now. It walks only where one did.
fn is_lost(machine: &Machine, was_found: bool, p: Page, kind: Kind) -> bool
    ensures { (past : History) (state : State) → IsState machine.now state → TablesStand machine.now.layout past state
        → (was_found ≡ true → p.0 < count_pages machine.now.layout) → result ≡ (was_found && not (is_walkable machine.now.layout past p.0 kind)) }
{
    was_found && !machine.walkable(p, kind)
}

/// The enclave has this page.
fn has_page(machine: &Machine, p: Page) -> bool
    ensures { result ≡ nat_lt p.0 (count_pages machine.now.layout) }
{
    p.0 < all_pages(machine.layout().perms().len() as u32)
}

/// The page that a move names.
fn named_page(m: &Move) -> Option<Page>
    ensures { result ≡ named_by m.now }
{
    match *m {
        Move::SetPte(p, _, _) | Move::Eldu(_, _, p, _, _) | Move::Eldb(_, _, p, _, _) => Some(p),
        _ => None,
    }
}

/// The frame that a move would block, empty or fill.
fn frame_of(m: &Move) -> Option<Frame>
    ensures { result ≡ frame_by m.now }
{
    match *m {
        Move::Eblock(f)
        | Move::Ewb(f, _, _)
        | Move::Eldu(f, _, _, _, _)
        | Move::Eldb(f, _, _, _, _)
        | Move::Eremove(f)
        | Move::Epa(f) => Some(f),
        _ => None,
    }
}

/// The page of the enclave in a frame with this entry.
fn page_of(entry: Entry) -> Option<Page>
    ensures { result ≡ page_in entry }
{
    if entry.valid && matches!(entry.kind, PageType::Reg | PageType::Tcs) {
        Some(entry.page)
    } else {
        None
    }
}

/// The page of the enclave in the frame that the move would block, empty or fill.
fn framed_page(machine: &Machine, m: &Move) -> Option<Page>
    ensures { result ≡ framed_by machine.now.encls.entries m.now }
{
    match frame_of(m) {
        Some(f) => page_of(machine.leaves().epcm().entry(f)),
        None => None,
    }
}
