// What a call leaves.
ghost use Rattle.std.specs.Prelude.{◌≡◌};
ghost use Rattle.ak_top.specs.TopCall.{status_left, status_stopped};

use ak_core::Stop;
use ak_run::Run;

/// The status where the text was written.
const WRITTEN: u8 = 0;

/// The status where the text was written, and the enclave stopped.
const STOPPED: u8 = 10;

/// What a call leaves beside its text: the run whose journal it reported, with its machine.
#[derive(Drop)]
pub enum Left {
    /// Nothing: the call reported no run.
    Nothing,
    /// The run that was reported.
    Run(Run),
}

impl Left {
    /// The status of a call that wrote its text and leaves this.
    pub(crate) fn status(&self) -> u8
        ensures { result ≡ status_left self.now }
    {
        match self {
            Left::Nothing => WRITTEN,
            Left::Run(run) => status_of(run.journal().stop()),
        }
    }
}

fn status_of(stop: Option<Stop>) -> u8
    ensures { result ≡ status_stopped stop }
{
    match stop {
        Some(_) => STOPPED,
        None => WRITTEN,
    }
}
