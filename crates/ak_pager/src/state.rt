// What the runtime remembers, in the bytes of STATE: the phase, the clusters that are in, and the program's frame.
ghost use Rattle.std.specs.Prelude.{◌≡◌, List, ℕ, length, drop};
ghost use Rattle.ak_model.specs.Control.ControlState.{Phase as ThePhase};
ghost use Rattle.ak_model.specs.Flat.Instructions.{number_at};
ghost use Rattle.ak_cluster.specs.QueueBytes.{HasSomeQueue};
ghost use Rattle.ak_pager.specs.Rows.{kept_bytes};
ghost use Rattle.ak_pager.specs.RuntimePages.{phase_number, SaysMore};
ghost use Rattle.ak_pager.specs.StepsTo.{HasState};
ghost use Rattle.ak_pager.specs.Remembered.{IsRead, SaysPhase, phase_of};

use ak_cluster::Policy;
use ak_core::PAGE_SIZE;
use ak_ssa::{FRAME_SIZE, STATE_PLACE};
use byteorder::{ByteOrder, LittleEndian};

// Where the number of the phase stands, and what it says besides.
const PHASE: usize = 0;

const CLUSTER: usize = 8;

const STATUS: usize = 16;

/// Where the exchange of calls and misses between program, runtime and kernel stands.
#[derive(Clone, Copy)]
pub(crate) enum Phase {
    /// The program has not begun.
    New,
    /// The program runs.
    Running,
    /// A call of the program is out.
    Calling,
    /// This cluster is asked for.
    Asked(u32),
    /// The program ended with this status.
    Ended(u64),
    /// The program ended by this vector.
    Trapped(u8),
    /// The kernel broke a rule.
    Dead,
}

impl Phase {
    /// The phase that the bytes of STATE say.
    pub(crate) fn load(bytes: &[u8]) -> Phase
        requires { length bytes.now ≡ PAGE_SIZE }
        ensures { (phase : ThePhase) → SaysPhase phase bytes.now → phase_of result ≡ phase }
    {
        match LittleEndian::read_u64(&bytes[PHASE..]) {
            0 => Phase::New,
            1 => Phase::Running,
            2 => Phase::Calling,
            3 => Phase::Asked((LittleEndian::read_u64(&bytes[CLUSTER..]) % (1 << 32)) as u32),
            4 => Phase::Ended(LittleEndian::read_u64(&bytes[STATUS..])),
            5 => Phase::Trapped((LittleEndian::read_u64(&bytes[STATUS..]) % (1 << 8)) as u8),
            _ => Phase::Dead,
        }
    }

    /// Its number.
    fn number(self) -> u64
        ensures { result ≡ phase_number (phase_of self) }
    {
        match self {
            Phase::New => 0,
            Phase::Running => 1,
            Phase::Calling => 2,
            Phase::Asked(_) => 3,
            Phase::Ended(_) => 4,
            Phase::Trapped(_) => 5,
            Phase::Dead => 6,
        }
    }

    /// Puts the phase into the bytes of STATE.
    fn store(self, bytes: &mut [u8])
        requires { length bytes.old ≡ PAGE_SIZE }
        ensures number { number_at bytes.new 0 8 ≡ phase_number (phase_of self) }
        ensures more { SaysMore (phase_of self) bytes.new }
        ensures rest { drop 24 bytes.new ≡ drop 24 bytes.old }
    {
        LittleEndian::write_u64(&mut bytes[PHASE..], self.number());
        match self {
            Phase::Asked(cluster) => {
                LittleEndian::write_u64(&mut bytes[CLUSTER..], u64::from(cluster));
            }
            Phase::Ended(status) => LittleEndian::write_u64(&mut bytes[STATUS..], status),
            Phase::Trapped(vector) => {
                LittleEndian::write_u64(&mut bytes[STATUS..], u64::from(vector));
            }
            _ => {}
        }
    }
}

/// What the runtime remembers.
#[derive(Drop)]
pub(crate) struct State {
    /// The phase.
    pub(crate) phase: Phase,
    /// The clusters that are in.
    pub(crate) queue: Policy,
    /// The program's saved frame, while a cluster is asked for or a call is out.
    pub(crate) frame: [u8; FRAME_SIZE],
}

impl State {
    /// What the bytes of STATE say.
    pub(crate) fn load(bytes: &[u8]) -> State
        requires page { length bytes.now ≡ PAGE_SIZE }
        requires queue { HasSomeQueue bytes.now }
        ensures { IsRead bytes.now result }
    {
        State {
            phase: Phase::load(bytes),
            queue: Policy::load(bytes),
            frame: frame_in(bytes),
        }
    }

    /// Puts all of it into the bytes of STATE. Those that say nothing of it stay.
    pub(crate) fn store(&self, bytes: &mut [u8])
        requires { length bytes.old ≡ PAGE_SIZE }
        ensures { HasState (phase_of self.now.phase) self.now.queue self.now.frame bytes.new }
    {
        bytes[STATE_PLACE..STATE_PLACE + FRAME_SIZE].copy_from_slice(&self.frame);
        self.phase.store(bytes);
        self.queue.store(bytes);
    }
}

/// The frame in the bytes of STATE.
fn frame_in(bytes: &[u8]) -> [u8; FRAME_SIZE]
    requires { length bytes.now ≡ PAGE_SIZE }
    ensures { result ≡ kept_bytes bytes.now }
{
    let mut frame = [0; FRAME_SIZE];
    frame.copy_from_slice(&bytes[STATE_PLACE..STATE_PLACE + FRAME_SIZE]);
    frame
}
