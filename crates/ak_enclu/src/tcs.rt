// The fields of a TCS that entering and leaving change (SDM volume 3D, "Thread Control Structure").
ghost use Rattle.std.specs.Prelude.{◌≡◌, ◌≤◌};
ghost use Rattle.ak_enclu.specs.TcsBytes.{saved_of, pending_of, with_saved, with_pending, after_exit};

use ak_core::PAGE_SIZE;
use ak_ssa::Why;
use byteorder::{ByteOrder, LittleEndian};

/// Where CSSA stands: how many contexts are saved.
const CSSA: usize = 24;

/// Where the flag stands that refuses resuming (this project's own place).
const PENDING: usize = 72;

/// How many contexts are saved, by the bytes of a TCS (SDM volume 3D, "Thread Control Structure", CSSA).
pub fn saved(tcs: &[u8; PAGE_SIZE]) -> u32
    ensures { result ≡ saved_of tcs.now }
{
    LittleEndian::read_u32(&tcs[CSSA..])
}

/// Resuming is refused.
pub(crate) fn is_pending(tcs: &[u8; PAGE_SIZE]) -> bool
    ensures { result ≡ pending_of tcs.now }
{
    tcs[PENDING] == 1
}

/// Says how many contexts are saved.
pub(crate) fn set_saved(tcs: &mut [u8; PAGE_SIZE], saved: u32)
    ensures { tcs.new ≡ with_saved saved tcs.old }
{
    LittleEndian::write_u32(&mut tcs[CSSA..], saved);
}

/// Says whether resuming is refused.
pub(crate) fn set_pending(tcs: &mut [u8; PAGE_SIZE], pending: bool)
    ensures { tcs.new ≡ with_pending pending tcs.old }
{
    tcs[PENDING] = u8::from(pending);
}

/// Notes an asynchronous exit: one more context is saved, and resuming is refused unless it was an interrupt.
pub(crate) fn note_exit(tcs: &mut [u8; PAGE_SIZE], why: Why)
    requires { saved_of tcs.old ≤ 2 }
    ensures { tcs.new ≡ after_exit why tcs.old }
{
    let saved = saved(tcs);
    set_saved(tcs, saved + 1);
    match why {
        Why::Interrupt => {}
        Why::Vector(_) | Why::PageFault(..) => set_pending(tcs, true),
    }
}
