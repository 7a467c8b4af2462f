// The queue's numbers in the bytes of STATE.
ghost use Rattle.std.specs.Prelude.{◌≡◌, ◌≤◌, ◌<◌, ◌+◌, ◌*◌, length, flat_map};
ghost use Rattle.ak_core.specs.Mem.{put_at};
ghost use Rattle.ak_model.specs.Flat.Instructions.{le_bytes, number_at};

use ak_core::PAGE_SIZE;
use byteorder::{ByteOrder, LittleEndian};

/// Where the queue's length stands.
const LENGTH: usize = 24;

/// Where the first cluster stands.
const CLUSTERS: usize = 1024;

/// The queue's length.
pub(crate) fn count_in(state: &[u8]) -> u64
    requires { length state.now ≡ PAGE_SIZE }
    ensures { result ≡ number_at state.now 24 8 }
{
    LittleEndian::read_u64(&state[LENGTH..])
}

/// The cluster at a place of the queue.
pub(crate) fn cluster_in(state: &[u8], i: usize) -> u16
    requires page { length state.now ≡ PAGE_SIZE }
    requires inside { i < 512 }
    ensures { result ≡ number_at state.now (1024 + 2 * i) 2 }
{
    LittleEndian::read_u16(&state[CLUSTERS + 2 * i..])
}

/// Puts the queue's length into STATE.
pub(crate) fn put_count(state: &mut [u8], count: u64)
    requires { length state.old ≡ PAGE_SIZE }
    ensures { state.new ≡ put_at state.old 24 (le_bytes 8 count) }
{
    LittleEndian::write_u64(&mut state[LENGTH..], count);
}

/// Puts the clusters into STATE.
pub(crate) fn put_clusters(state: &mut [u8], queue: &[u16])
    requires page { length state.old ≡ PAGE_SIZE }
    requires few { length queue.now ≤ 512 }
    ensures { state.new ≡ put_at state.old 1024 (flat_map (le_bytes 2) queue.now) }
{
    LittleEndian::write_u16_into(queue, &mut state[CLUSTERS..CLUSTERS + 2 * queue.len()]);
}
