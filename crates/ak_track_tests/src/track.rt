// Steps of up to four processors, and what each comes to.
use ak_core::Lp;
use ak_track::{Stamp, Track};
use std::test::Fail;

#[derive(Clone, Copy)]
enum Step {
    Enter(u8),
    Leave(u8),
    /// A cycle, and whether it begins.
    Cycle(bool),
    /// A stamp is taken, in place of the last one.
    Stamp,
    /// Whether the stamp is tracked.
    Tracked(bool),
}

/// The first step that does not come to what it says, by its number.
fn first_wrong(lps: u8, steps: &[Step]) -> Option<usize> {
    let mut track = Track::new(lps.min(4));
    let mut stamp: Stamp = track.stamp();
    for (i, step) in steps.iter().enumerate() {
        let is_right = match *step {
            Step::Enter(lp) => {
                track.enter(Lp(lp));
                true
            }
            Step::Leave(lp) => {
                track.leave(Lp(lp));
                true
            }
            Step::Cycle(begins) => track.cycle().is_ok() == begins,
            Step::Stamp => {
                stamp = track.stamp();
                true
            }
            Step::Tracked(tracked) => track.tracked(stamp) == tracked,
        };
        if !is_right {
            return Some(i);
        }
    }
    None
}

#[test]
fn cycles_wait_for_those_inside(rt: HostRuntime) -> Result<(), Fail> {
    use Step::{Cycle, Enter, Leave, Stamp, Tracked};
    let cases: [(u8, &[Step]); 6] = [
        // nobody is inside: a cycle is over at once, and tracks what was stamped before it and no more
        (
            1,
            &[
                Stamp,
                Tracked(false),
                Cycle(true),
                Tracked(true),
                Stamp,
                Tracked(false),
                Cycle(true),
                Tracked(true),
            ],
        ),
        // one that enters after the cycle began is not waited for
        (
            2,
            &[
                Enter(0),
                Stamp,
                Cycle(true),
                Tracked(false),
                Enter(1),
                Cycle(false),
                Leave(0),
                Tracked(true),
                Cycle(true),
                Cycle(false),
            ],
        ),
        // one that has left and come back is not waited for
        (
            1,
            &[
                Enter(0),
                Stamp,
                Cycle(true),
                Leave(0),
                Enter(0),
                Tracked(true),
                Cycle(true),
                Cycle(false),
            ],
        ),
        // the second cycle waits for each of three again, and a stamp from before the first stays tracked
        (
            3,
            &[
                Enter(0),
                Enter(1),
                Enter(2),
                Stamp,
                Cycle(true),
                Leave(2),
                Leave(1),
                Tracked(false),
                Leave(0),
                Tracked(true),
                Enter(0),
                Enter(1),
                Enter(2),
                Cycle(true),
                Tracked(true),
                Leave(0),
                Leave(1),
                Cycle(false),
                Leave(2),
                Cycle(true),
            ],
        ),
        // a stamp between two cycles waits for the second
        (
            2,
            &[
                Cycle(true),
                Enter(1),
                Stamp,
                Tracked(false),
                Cycle(true),
                Tracked(false),
                Leave(1),
                Tracked(true),
            ],
        ),
        // the fourth processor, and one that there is not
        (
            4,
            &[
                Enter(3),
                Enter(4),
                Enter(255),
                Stamp,
                Cycle(true),
                Tracked(false),
                Leave(4),
                Tracked(false),
                Leave(3),
                Tracked(true),
                Cycle(true),
                Cycle(true),
            ],
        ),
    ];
    for (case, (lps, steps)) in cases.iter().enumerate() {
        assert_eq!(rt; first_wrong(*lps, steps), None, "case {case}");
    }
    Ok(())
}
