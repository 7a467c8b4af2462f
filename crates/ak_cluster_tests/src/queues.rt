// Queues that are stored and loaded, and clusters that leave them.
ghost use Rattle.std.specs.Prelude.{◌≡◌, [], length, replicate};
ghost use Rattle.ak_cluster.specs.QueueBytes.{HasSomeQueue, IsQueue, with_queue};

use ak_cluster::Policy;
use ak_core::{Layout, OutOfMemory, PAGE_SIZE, Perm};
use std::alloc::Global;
use std::test::Fail;

// Ten pages in six clusters of 2, 1, 3, 1, 2 and 1 pages, of which 8 may be in.
#[tactic(auto, unfolding(ak_core::specs::Layout::enclave_size))]
fn layout(alloc: Global) -> Result<Layout, OutOfMemory> {
    let Ok(perms) = vec![in alloc; Perm::Rw; 10] else {
        return Err(OutOfMemory);
    };
    let Ok(cluster_of) = vec![in alloc; 0, 0, 1, 2, 2, 2, 3, 4, 4, 5] else {
        return Err(OutOfMemory);
    };
    Ok(Layout::new(65536, 0, perms, cluster_of, 6, 8, 9, 1))
}

// The queue of STATE as the build makes it.
fn built() -> Policy {
    Policy::load(&[0; PAGE_SIZE])
}

// Adds a cluster where that may be done.
fn add(policy: &mut Policy, c: u32) -> bool {
    if c >= 512 || policy.is_in(c) {
        return false;
    }
    policy.append(c);
    true
}

// What is loaded after it was stored into these bytes.
fn again(policy: &Policy, state: &mut [u8]) -> Policy
    requires { length state.old ≡ PAGE_SIZE }
    ensures queue { result ≡ policy.now }
    ensures bytes { state.new ≡ with_queue state.old policy.now }
{
    policy.store(state);
    Policy::load(state)
}

// Each byte is this one.
fn are_all(bytes: &[u8], value: u8) -> bool {
    bytes.iter().all(|byte| *byte == value)
}

// The clusters below 6 that are in.
fn first_in(policy: &Policy) -> [bool; 6] {
    let mut is_in = [false; 6];
    for c in 0..6 {
        is_in[c as usize] = policy.is_in(c);
    }
    is_in
}

#[test]
fn a_built_page_has_no_cluster(rt: HostRuntime) {
    let policy = built();
    for c in [0, 1, 511, 512, 65535, 65536, 4294967295] {
        assert!(rt; !policy.is_in(c), "cluster {c}");
    }
}

#[test]
fn the_bytes_of_a_queue(rt: HostRuntime) {
    let mut policy = built();
    for c in [511, 3, 256] {
        assert!(rt; add(&mut policy, c), "cluster {c}");
    }
    let mut state = [7u8; PAGE_SIZE];
    policy.store(&mut state);
    assert!(rt; are_all(&state[..24], 7));
    assert_eq!(rt; &state[24..32], [3, 0, 0, 0, 0, 0, 0, 0].as_slice());
    assert!(rt; are_all(&state[32..1024], 7));
    assert_eq!(rt; &state[1024..1032], [255, 1, 3, 0, 0, 1, 7, 7].as_slice());
    assert!(rt; are_all(&state[1032..], 7));
}

#[test]
fn the_first_that_came_leave(rt: HostRuntime) -> Result<(), Fail> {
    let layout = layout(rt.alloc())?;
    let mut policy = built();
    // The cluster that comes, how many leave for it, and which are in after that.
    let misses = [
        (0, 0, [true, false, false, false, false, false]),
        (1, 0, [true, true, false, false, false, false]),
        (2, 0, [true, true, true, false, false, false]),
        (3, 0, [true, true, true, true, false, false]),
        (4, 1, [false, true, true, true, true, false]),
        (5, 0, [false, true, true, true, true, true]),
        (0, 2, [true, false, false, true, true, true]),
        (2, 1, [true, false, true, false, true, true]),
    ];
    for (c, left, is_in) in misses {
        assert_eq!(rt; policy.drop_for(&layout, c), left, "dropped for {c}");
        assert!(rt; add(&mut policy, c), "added {c}");
        assert_eq!(rt; first_in(&policy), is_in, "in after {c}");
    }
    Ok(())
}

#[test]
fn a_queue_of_512(rt: HostRuntime) -> Result<(), Fail> {
    let layout = layout(rt.alloc())?;
    let mut policy = built();
    for i in 0..512 {
        assert!(rt; add(&mut policy, 511 - i), "added {i}");
    }
    assert!(rt; !add(&mut policy, 512));
    let mut state = [0u8; PAGE_SIZE];
    let mut loaded = again(&policy, &mut state);
    assert_eq!(rt; &state[24..32], [0, 2, 0, 0, 0, 0, 0, 0].as_slice());
    assert_eq!(rt; &state[1024..1028], [255, 1, 254, 1].as_slice());
    assert_eq!(rt; &state[2044..2050], [1, 0, 0, 0, 0, 0].as_slice());
    for c in 0..512 {
        assert!(rt; loaded.is_in(c), "cluster {c}");
    }
    // The clusters that are not the layout's have no page. Of its ten pages two too many are in: clusters 5 and 4 leave.
    assert_eq!(rt; loaded.drop_for(&layout, 600), 508);
    assert!(rt; loaded.is_in(3));
    assert!(rt; !loaded.is_in(4));
    Ok(())
}
