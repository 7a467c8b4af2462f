// Summaries of journals.
use ak_core::{
    Answer, Event, Exit, Journal, Kind, Layout, Move, OutOfMemory, Page, Perm, Stop, StopCause,
};
use ak_outside::MemSink;
use ak_report::write_summary;
use std::alloc::Global;
use std::test::Fail;

/// Three pages in two clusters, of which two pages may be in.
#[tactic(auto, unfolding(ak_core::specs::Layout::enclave_size))]
fn three_pages(alloc: Global) -> Result<Layout, OutOfMemory> {
    let Ok(perms) = vec![in alloc; Perm::Rx, Perm::Rw, Perm::R] else {
        return Err(OutOfMemory);
    };
    let Ok(cluster_of) = vec![in alloc; 0, 1, 0] else {
        return Err(OutOfMemory);
    };
    Ok(Layout::new(65536, 0, perms, cluster_of, 2, 3, 11, 1))
}

/// A journal of these answers, each to a tracking of the enclave; with the first came a miss and an output.
fn journal_of(
    alloc: Global,
    answers: &[Answer],
    stop: Option<Stop>,
) -> Result<Journal, OutOfMemory> {
    let mut journal = Journal::new(alloc);
    journal.reserve()?;
    journal.append(
        Move::Etrack,
        Answer::Ok,
        Some(Event::Miss(7, 1)),
        Some(9),
        stop,
    );
    for answer in answers {
        journal.reserve()?;
        journal.append(Move::Etrack, *answer, Some(Event::Break(8)), None, None);
    }
    Ok(journal)
}

/// Whether the summary of the journal ends so.
fn ends_so(
    alloc: Global,
    answers: &[Answer],
    stop: Option<Stop>,
    want: &str,
) -> Result<bool, OutOfMemory> {
    let layout = three_pages(alloc)?;
    let journal = journal_of(alloc, answers, stop)?;
    let mut out = MemSink::new(alloc);
    out.room(1000)?;
    let is_written = write_summary(5, &layout, &journal, &mut out).is_ok();
    Ok(is_written && out.taken() == want.as_bytes())
}

#[test]
fn tells_the_end(rt: HostRuntime) -> Result<(), Fail> {
    let ended = Answer::Exit(Exit::Ended(3));
    let trapped = Answer::Exit(Exit::Trapped(6));
    let stop = Some(Stop {
        cause: StopCause::Unmapped(Page(0), Kind::Exec),
        blame: 1,
    });
    let head = "demo 5\npages 3 clusters 2 budget 3\nmoves";
    let unfinished = format!(in rt.alloc(); "{head} 1\nmisses 1\noutput 9\nend unfinished\n")?;
    assert!(rt; ends_so(rt.alloc(), &[], None, unfinished.as_str())?);
    let first = format!(in rt.alloc(); "{head} 3\nmisses 1\noutput 9\nend ended 3\n")?;
    assert!(rt; ends_so(rt.alloc(), &[ended, trapped], None, first.as_str())?);
    let trap = format!(in rt.alloc(); "{head} 3\nmisses 1\noutput 9\nend trapped 6\n")?;
    assert!(rt; ends_so(rt.alloc(), &[trapped, ended], None, trap.as_str())?);
    let stopped = format!(in rt.alloc(); "{head} 2\nmisses 1\noutput 9\nend stopped\n")?;
    assert!(rt; ends_so(rt.alloc(), &[ended], stop, stopped.as_str())?);
    Ok(())
}
