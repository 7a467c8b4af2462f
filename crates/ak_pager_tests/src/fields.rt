// What the bytes of STATE say: each field is read at its place.
ghost use Rattle.std.specs.Prelude.{◌≡◌, ◌+◌, ◌*◌, ◌<◌, ◌≤◌, length, IfSome};
ghost use Rattle.ak_model.specs.Clusters.Queue.{is_in};
ghost use Rattle.ak_model.specs.Flat.Instructions.{number_at};
ghost use Rattle.ak_pager_tests.specs.DefinedSteps.{SaysPhase, SaysQueue, phase_of};

use crate::Phase;
use ak_core::{Layout, PAGE_SIZE};
use arrayvec::ArrayVec;
use byteorder::{ByteOrder, LittleEndian};

/// The number in 8 bytes.
fn number_in(state: &[u8], place: usize) -> u64
    requires page { length state.now ≡ PAGE_SIZE }
    requires inside { place ≤ 4088 }
    ensures { result ≡ number_at state.now place 8 }
{
    LittleEndian::read_u64(&state[place..])
}

/// The number in 2 bytes.
fn cluster_in(state: &[u8], i: usize) -> u16
    requires page { length state.now ≡ PAGE_SIZE }
    requires inside { i < 512 }
    ensures { result ≡ number_at state.now (1024 + 2 * i) 2 }
{
    LittleEndian::read_u16(&state[1024 + 2 * i..])
}

/// The cluster stands in the queue.
pub fn has(queue: &[u64], c: u64) -> bool
    ensures { result ≡ is_in queue.now c }
{
    queue.iter().any(|x| *x == c)
}

/// The phase, if the bytes say one.
pub fn phase_in(state: &[u8]) -> Option<Phase>
    requires { length state.now ≡ PAGE_SIZE }
    ensures { IfSome result (λ phase. SaysPhase (phase_of phase) state.now) }
{
    match number_in(state, 0) {
        0 => Some(Phase::New),
        1 => Some(Phase::Running),
        2 => Some(Phase::Calling),
        3 => Some(Phase::Asked(number_in(state, 8))),
        4 => Some(Phase::Ended(number_in(state, 16))),
        5 => trapped_in(state),
        6 => Some(Phase::Dead),
        _ => None,
    }
}

/// The vector that ended the program, if it is one.
fn trapped_in(state: &[u8]) -> Option<Phase>
    requires page { length state.now ≡ PAGE_SIZE }
    requires number { number_at state.now 0 8 ≡ 5 }
    ensures { IfSome result (λ phase. SaysPhase (phase_of phase) state.now) }
{
    let vector = number_in(state, 16);
    if vector >= 256 {
        return None;
    }
    Some(Phase::Trapped(vector))
}

/// The queue, if the bytes say one of different clusters of the layout.
pub fn queue_in(layout: &Layout, state: &[u8]) -> Option<ArrayVec<u64, 512>>
    requires { length state.now ≡ PAGE_SIZE }
    ensures { IfSome result (λ queue. SaysQueue layout.now queue.items state.now) }
{
    let count = number_in(state, 24);
    if count > 512 {
        return None;
    }
    let mut queue = ArrayVec::new();
    for i in 0..count as usize {
        let c = u64::from(cluster_in(state, i));
        if c >= u64::from(layout.clusters()) || has(queue.as_slice(), c) {
            return None;
        }
        queue.push(c);
    }
    Some(queue)
}
