// What a move brings to the journal.
ghost use Rattle.std.specs.Prelude.{◌≡◌, ◌<◌, ◌&&◌, false, nat_lt, not};
ghost use Rattle.ak_model.specs.Clusters.Queue.{after_miss, is_in};
ghost use Rattle.ak_model.specs.Flat.FlatRuns.{is_forbidden as forbids};
ghost use Rattle.ak_model.specs.Paging.Pages.{cluster_at as cluster_in, perm_of as page_perm};
ghost use Rattle.ak_model.specs.Sound.Outputs.{shown_by};
ghost use Rattle.ak_relation.specs.Program.FaultedTurns.{fault_event as event_by};
ghost use Rattle.ak_turns.specs.WholeRuns.{event_after};
ghost use Rattle.ak_run.specs.Events.{IsServable, queue_by_event};

use ak_cluster::Policy;
use ak_core::{Answer, Event, Exit, Fault, Kind, Layout, Page, Perm, code_page, tcs_page};
use ak_turns::ProgramNote;

/// The vector of a page fault (SDM volume 3A, "Interrupt 14").
const PAGE_FAULT: u8 = 14;

/// The call that shows an output.
const OUTPUT_CALL: u64 = 1;

/// More clusters than there can be.
const MAX_CLUSTERS: u32 = 512;

/// The output that an answer shows.
pub(crate) fn output_of(answer: Answer) -> Option<u64>
    ensures { result ≡ shown_by answer }
{
    match answer {
        Answer::Exit(Exit::Call(OUTPUT_CALL, argument)) => Some(argument),
        _ => None,
    }
}

/// The event that a note of the program tells, where these clusters are in and so many instructions are complete after it.
pub(crate) fn event_of(
    layout: &Layout,
    queue: &Policy,
    count: u64,
    note: ProgramNote,
) -> Option<Event>
    ensures { result ≡ event_after layout.now queue.now count note }
{
    match note {
        ProgramNote::Plain => None,
        ProgramNote::Called(number, argument) => {
            Some(Event::Call(count.saturating_sub(1), number, argument))
        }
        ProgramNote::Trapped(vector) => Some(Event::Trap(count, vector)),
        ProgramNote::Faulted(access) => Some(fault_event(layout, queue, count, access)),
    }
}

/// The event of an access that faulted: an access that its page does not allow is the program's own fault.
fn fault_event(layout: &Layout, queue: &Policy, count: u64, access: Fault) -> Event
    ensures { result ≡ event_by layout.now queue.now count access }
{
    let cluster = cluster_at(layout, access.page);
    if is_forbidden(layout, access) {
        Event::Trap(count, PAGE_FAULT)
    } else if queue.is_in(cluster) {
        Event::Break(count)
    } else {
        Event::Miss(count, cluster)
    }
}

/// The page does not allow the access.
fn is_forbidden(layout: &Layout, access: Fault) -> bool
    ensures { result ≡ forbids layout.now access }
{
    match (perm_of(layout, access.page), access.kind) {
        (None, _) => true,
        (Some(_), Kind::Read) => false,
        (Some(perm), Kind::Write) => perm != Perm::Rw,
        (Some(perm), Kind::Exec) => perm != Perm::Rx,
    }
}

/// What a page allows. The TCS page, and a page that the enclave does not have, allow nothing.
fn perm_of(layout: &Layout, p: Page) -> Option<Perm>
    ensures { result ≡ page_perm layout.now p.0 }
{
    let pages = layout.perms().len() as u32;
    let p = p.0;
    if p < pages {
        layout.perms().get(p as usize).copied()
    } else if p > tcs_page(pages) && p < code_page(pages) {
        Some(Perm::Rw)
    } else if p == code_page(pages) {
        Some(Perm::Rx)
    } else {
        None
    }
}

/// The cluster of a page of the program.
fn cluster_at(layout: &Layout, p: Page) -> u32
    ensures { result ≡ cluster_in layout.now p.0 }
{
    layout.cluster_of().get(p.0 as usize).copied().unwrap_or(0)
}

/// A missed cluster is served: it is in from then on, and those that leave for it are out.
pub(crate) fn serve(layout: &Layout, queue: &mut Policy, event: Option<Event>)
    ensures { IsServable queue.old event → queue.new ≡ queue_by_event layout.now queue.old event }
{
    if let Some(Event::Miss(_, cluster)) = event {
        admit(layout, queue, cluster);
    }
}

/// A cluster that is out comes in, and those that leave for it are out.
fn admit(layout: &Layout, queue: &mut Policy, cluster: u32)
    ensures { cluster < 512 → is_in queue.old cluster ≡ false → queue.new ≡ after_miss layout.now queue.old cluster }
{
    queue.drop_for(layout, cluster);
    if is_out(queue, cluster) {
        queue.append(cluster);
    }
}

/// The cluster is out, and one of those that there may be.
fn is_out(queue: &Policy, cluster: u32) -> bool
    ensures { result ≡ (nat_lt cluster 512 && not (is_in queue.now cluster)) }
{
    cluster < MAX_CLUSTERS && !queue.is_in(cluster)
}
