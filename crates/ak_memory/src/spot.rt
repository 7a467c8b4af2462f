// An access that was granted.
ghost use Rattle.std.specs.Prelude.{◌≡◌, find, ◌==◌};
ghost use Rattle.std.specs.Option.{option_copied};

use ak_core::{Fault, Frame, Page};

/// An access that was granted in this turn.
#[derive(Clone, Copy, PartialEq, Eq, Debug)]
pub struct Spot {
    /// The access.
    pub access: Fault,
    /// The frame of its page.
    pub frame: Frame,
    /// A walk found it; else it was cached.
    pub by_walk: bool,
}

impl Default for Spot {
    /// A read of page 0 in frame 0.
    fn default() -> Spot {
        Spot {
            access: Fault::default(),
            frame: Frame(0),
            by_walk: false,
        }
    }
}

/// The first access of a page.
pub(crate) fn spot_of(spots: &[Spot], p: Page) -> Option<&Spot>
    ensures { option_copied result ≡ find (λ spot. spot.access.page.0 == p.0) spots.now }
{
    spots.iter().find(|spot| spot.access.page == p)
}
