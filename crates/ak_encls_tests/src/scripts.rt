// Scripts of leaves, with answers that were worked out by hand. After a build of n pages handle p and slot p of frame 1 are those of
// page p, and the runtime's pages n to n + 5 are in frames 2 to 7.
use crate::stage::play_all;
use std::test::Fail;

/// Each refusal of each leaf, in the order of the checks, where the one that would come next holds too, if both can.
const REFUSALS: &str = "\
# EBLOCK
build 3 11 1
eblock 11 -> notepc
eblock 4294967295 -> notepc
eblock 0 -> issecs
eblock 10 -> free
eblock 1 -> wrongtype
eblock 2 -> ok
eblock 2 -> blocked
frame 2 -> tcs 3 blocked
# EWB
build 3 11 1
ewb 11 2 512 -> notepc
ewb 4294967295 2 512 -> notepc
ewb 0 2 512 -> issecs
ewb 10 2 512 -> free
ewb 1 2 512 -> wrongtype
ewb 3 2 512 -> notblocked
eblock 3 -> ok
ewb 3 2 512 -> nottracked
ewb 3 1 0 -> nottracked
etrack -> ok
ewb 3 2 0 -> badva
ewb 3 3 0 -> badva
ewb 3 0 0 -> badva
ewb 3 10 0 -> badva
ewb 3 11 0 -> badva
ewb 3 4294967295 0 -> badva
ewb 3 1 512 -> badva
ewb 3 1 65535 -> badva
ewb 3 1 0 -> slotoccupied
ewb 3 1 2 -> slotoccupied
frame 3 -> reg 4 rw blocked
bytes 3 -> 5
ewb 3 1 511 -> handle 3
ewb 3 1 510 -> free
# ELDU
build 3 11 1
eldu 11 3 9 2 512 -> notepc
eldu 4294967295 3 9 2 512 -> notepc
eldu 0 3 9 2 512 -> issecs
eldu 1 3 9 2 512 -> inuse
eldu 7 3 9 2 512 -> inuse
eldu 10 3 9 2 0 -> badva
eldu 10 3 9 0 0 -> badva
eldu 10 3 9 10 0 -> badva
eldu 10 3 9 11 0 -> badva
eldu 10 3 9 4294967295 0 -> badva
eldu 10 3 9 1 512 -> badva
eldu 10 3 9 1 65535 -> badva
eldu 10 3 9 1 511 -> nohandle
eldu 10 4294967295 9 1 0 -> nohandle
eldu 10 0 9 1 511 -> slotempty
eldu 10 0 9 1 1 -> macfail
eldu 10 0 0 1 1 -> macfail
eldu 10 0 1 1 0 -> macfail
eldu 10 0 4294967295 1 0 -> macfail
drop 1 -> ok
eldu 10 1 1 1 1 -> nohandle
eldu 10 0 1 1 1 -> macfail
frame 10 -> free
eldu 10 0 0 1 0 -> ok
eldu 10 0 0 1 0 -> inuse
eldu 9 0 0 1 0 -> slotempty
# ELDB
build 3 11 1
eldb 11 3 9 2 512 -> notepc
eldb 4294967295 3 9 2 512 -> notepc
eldb 0 3 9 2 512 -> issecs
eldb 1 3 9 2 512 -> inuse
eldb 7 3 9 2 512 -> inuse
eldb 10 3 9 2 0 -> badva
eldb 10 3 9 0 0 -> badva
eldb 10 3 9 10 0 -> badva
eldb 10 3 9 11 0 -> badva
eldb 10 3 9 4294967295 0 -> badva
eldb 10 3 9 1 512 -> badva
eldb 10 3 9 1 65535 -> badva
eldb 10 3 9 1 511 -> nohandle
eldb 10 4294967295 9 1 0 -> nohandle
eldb 10 0 9 1 511 -> slotempty
eldb 10 0 9 1 1 -> macfail
eldb 10 0 0 1 1 -> macfail
eldb 10 0 1 1 0 -> macfail
eldb 10 0 4294967295 1 0 -> macfail
drop 1 -> ok
eldb 10 1 1 1 1 -> nohandle
eldb 10 0 1 1 1 -> macfail
frame 10 -> free
eldb 10 0 0 1 0 -> ok
eldb 10 0 0 1 0 -> inuse
eldb 9 0 0 1 0 -> slotempty
# EREMOVE, EPA and a handle that is given up
build 3 11 1
eremove 11 -> notepc
eremove 4294967295 -> notepc
eremove 0 -> issecs
eremove 10 -> free
epa 11 -> notepc
epa 4294967295 -> notepc
epa 0 -> issecs
epa 1 -> inuse
epa 7 -> inuse
epa 10 -> ok
epa 10 -> inuse
eremove 10 -> ok
drop 3 -> nohandle
drop 4294967295 -> nohandle
drop 2 -> ok
drop 2 -> nohandle
enter 0
eremove 11 -> notepc
eremove 0 -> issecs
eremove 10 -> free
eremove 2 -> enclaveactive
eremove 7 -> enclaveactive
eremove 1 -> ok
leave 0
eremove 7 -> ok
eremove 7 -> free
";

/// Pages that leave and come back.
const PAGING: &str = "\
# an older handle of the page is refused
build 1 9 1
eldu 8 0 0 1 0 -> ok
eblock 8 -> ok
etrack -> ok
ewb 8 1 0 -> handle 1
eldu 8 1 0 1 0 -> ok
eblock 8 -> ok
etrack -> ok
ewb 8 1 0 -> handle 2
eldu 8 1 0 1 0 -> macfail
eldu 8 0 0 1 0 -> macfail
eldu 8 2 0 1 0 -> ok
frame 8 -> reg 0 r
bytes 8 -> 1
# a handle is of its page and of its slot
build 16 10 1
eldu 8 3 4 1 4 -> macfail
eldu 8 3 4 1 3 -> macfail
eldu 8 4 4 1 4 -> ok
eldu 9 4 4 1 4 -> slotempty
eldu 8 3 3 1 3 -> inuse
frame 8 -> reg 4 rw
bytes 8 -> 5
# a frame that was written out takes another page
build 5 9 1
eldu 8 0 0 1 0 -> ok
eblock 8 -> ok
etrack -> ok
ewb 8 1 0 -> handle 5
eldu 8 4 4 1 4 -> ok
frame 8 -> reg 4 rw
bytes 8 -> 5
# the slots of a VA page are lost with it
build 1 9 1
bytes 1 -> mixed
eremove 1 -> ok
eldu 8 0 0 1 0 -> badva
epa 1 -> ok
frame 1 -> va
bytes 1 -> 0
eldu 8 0 0 1 0 -> slotempty
epa 0 -> issecs
epa 9 -> notepc
eblock 8 -> free
eblock 1 -> wrongtype
drop 0 -> ok
drop 0 -> nohandle
eldu 8 0 0 1 0 -> nohandle
# ELDB leaves the page blocked
build 3 9 1
eldb 8 2 2 1 2 -> ok
frame 8 -> reg 2 rx blocked
bytes 8 -> 3
eblock 8 -> blocked
ewb 8 1 2 -> nottracked
etrack -> ok
ewb 8 1 2 -> handle 3
frame 8 -> free
eldu 8 3 2 1 2 -> ok
frame 8 -> reg 2 rx
bytes 8 -> 3
# the TCS, the saved-state areas, STATE and CODE leave and come back in each other's frames
build 1 9 1
eblock 2 -> ok
eblock 3 -> ok
eblock 4 -> ok
eblock 5 -> ok
eblock 6 -> ok
eblock 7 -> ok
etrack -> ok
ewb 2 1 506 -> handle 1
ewb 3 1 507 -> handle 2
ewb 4 1 508 -> handle 3
ewb 5 1 509 -> handle 4
ewb 6 1 510 -> handle 5
ewb 7 1 511 -> handle 6
eldu 7 1 1 1 506 -> ok
eldu 6 2 2 1 507 -> ok
eldu 5 3 3 1 508 -> ok
eldu 4 4 4 1 509 -> ok
eldu 3 5 5 1 510 -> ok
eldu 2 6 6 1 511 -> ok
frame 7 -> tcs 1
frame 6 -> reg 2 rw
frame 5 -> reg 3 rw
frame 4 -> reg 4 rw
frame 3 -> reg 5 rw
frame 2 -> reg 6 rx
bytes 7 -> 2
bytes 6 -> 3
bytes 5 -> 4
bytes 4 -> 5
bytes 3 -> 6
bytes 2 -> 7
# the last frame of 8192, by a slot of the one before it
build 1 8192 4
eblock 8192 -> notepc
eldu 8192 0 0 1 0 -> notepc
eldu 8191 0 0 1 0 -> ok
eblock 8191 -> ok
etrack -> ok
epa 8190 -> ok
epa 8192 -> notepc
ewb 8191 8192 511 -> badva
ewb 8191 8190 511 -> handle 1
eldu 8191 1 0 8190 511 -> ok
frame 8191 -> reg 0 r
bytes 8191 -> 1
eremove 8191 -> ok
eremove 8192 -> notepc
";

/// Cycles of tracking, and who is inside.
const TRACKING: &str = "\
# nobody is inside: each cycle is over at once, and is one for the pages that were blocked before it
build 1 9 1
etrack -> ok
etrack -> ok
eblock 7 -> ok
ewb 7 1 1 -> nottracked
etrack -> ok
eblock 6 -> ok
ewb 7 1 1 -> handle 1
ewb 6 1 2 -> nottracked
etrack -> ok
ewb 6 1 2 -> handle 2
# a processor is inside, and has left since
build 1 9 1
eldu 8 0 0 1 0 -> ok
enter 0
eblock 8 -> ok
etrack -> ok
ewb 8 1 0 -> nottracked
etrack -> previncomplete
eremove 8 -> enclaveactive
leave 0
ewb 8 1 0 -> handle 1
# one that enters later is not waited for, and one that comes back has left
build 3 11 2
enter 1
eblock 7 -> ok
etrack -> ok
etrack -> previncomplete
ewb 7 1 0 -> nottracked
enter 0
leave 1
enter 1
ewb 7 1 0 -> slotoccupied
etrack -> ok
ewb 7 1 3 -> handle 3
# a cycle that began before the block does not serve, though it is over
eblock 6 -> ok
etrack -> previncomplete
ewb 6 1 4 -> nottracked
leave 0
etrack -> previncomplete
leave 1
ewb 6 1 4 -> nottracked
etrack -> ok
ewb 6 1 4 -> handle 4
# of four processors the cycle waits for the last
build 1 9 4
enter 0
enter 1
enter 2
enter 3
eblock 7 -> ok
etrack -> ok
leave 0
leave 1
leave 2
ewb 7 1 1 -> nottracked
etrack -> previncomplete
leave 3
ewb 7 1 1 -> handle 1
etrack -> ok
";

/// The order in which the kernel of Linux evicts pages and loads them, three at once.
const KERNEL: &str = "\
# it loads three pages, and drops what it kept of each
build 3 11 1
eldu 8 0 0 1 0 -> ok
drop 0 -> ok
eldu 9 1 1 1 1 -> ok
drop 1 -> ok
eldu 10 2 2 1 2 -> ok
drop 2 -> ok
# while the processor is inside it blocks them all, and tries the first at once, after a cycle, and after it made the processor leave
enter 0
eblock 8 -> ok
eblock 9 -> ok
eblock 10 -> ok
ewb 8 1 0 -> nottracked
etrack -> ok
ewb 8 1 0 -> nottracked
leave 0
ewb 8 1 0 -> handle 3
ewb 9 1 1 -> handle 4
ewb 10 1 2 -> handle 5
# they come back in another order, into other frames
enter 0
eldu 8 5 2 1 2 -> ok
drop 5 -> ok
eldu 9 3 0 1 0 -> ok
drop 3 -> ok
eldu 10 4 1 1 1 -> ok
drop 4 -> ok
frame 8 -> reg 2 rx
frame 9 -> reg 0 r
frame 10 -> reg 1 rw
bytes 8 -> 3
bytes 9 -> 1
bytes 10 -> 2
# a second round, whose cycle has to wait for that of an earlier try
etrack -> ok
eblock 9 -> ok
eblock 10 -> ok
ewb 9 1 0 -> nottracked
etrack -> previncomplete
leave 0
etrack -> ok
ewb 9 1 0 -> handle 6
ewb 10 1 1 -> handle 7
# a VA page of its own makes room for slots
epa 9 -> ok
eldu 10 7 1 1 1 -> ok
eblock 10 -> ok
etrack -> ok
ewb 10 9 0 -> handle 8
eldu 10 7 1 9 0 -> macfail
eldu 10 8 1 1 1 -> slotempty
eldu 10 8 1 9 0 -> ok
# it gives up the enclave: each page, and then the VA pages
eremove 2 -> ok
eremove 3 -> ok
eremove 4 -> ok
eremove 5 -> ok
eremove 6 -> ok
eremove 7 -> ok
eremove 8 -> ok
eremove 10 -> ok
eremove 1 -> ok
eremove 9 -> ok
eremove 0 -> issecs
";

#[test]
fn refusals_come_in_order(rt: HostRuntime) -> Result<(), Fail> {
    play_all(&rt, rt.alloc(), REFUSALS)
}

#[test]
fn pages_leave_and_come_back(rt: HostRuntime) -> Result<(), Fail> {
    play_all(&rt, rt.alloc(), PAGING)
}

#[test]
fn pages_wait_for_who_was_inside(rt: HostRuntime) -> Result<(), Fail> {
    play_all(&rt, rt.alloc(), TRACKING)
}

#[test]
fn a_kernel_evicts_and_loads(rt: HostRuntime) -> Result<(), Fail> {
    play_all(&rt, rt.alloc(), KERNEL)
}
