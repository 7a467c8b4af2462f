// Why bytes spell no document, and no signers.
ghost use Rattle.std.specs.Prelude.{◌≡◌};
ghost use Rattle.ak_measure.specs.declared.fault.SignersFault.TheVariants.{OutOfMemory};

use std::alloc::{AllocError, AllocFailed};
use thiserror::Error;

/// Why bytes gave no TOML document.
#[derive(Clone, Copy, Debug, Drop, PartialEq, Eq, Error)]
pub enum DocumentFault {
    /// They spell none.
    #[error("no TOML document")]
    NotToml,
    /// Memory ran out.
    #[error("out of memory")]
    OutOfMemory,
}

/// Why bytes gave no signers. The first four are in the order in which they are looked for.
#[derive(Clone, Copy, Debug, Drop, PartialEq, Eq, Error)]
pub enum SignersFault {
    /// The bytes are no TOML document.
    #[error("no TOML document")]
    NotToml,
    /// The value of a name is no array of strings.
    #[error("a value is no array of strings")]
    BadKey,
    /// A string is not 64 hexadecimal digits.
    #[error("a digest is not 64 hexadecimal digits")]
    BadDigest,
    /// A name has the same digest twice.
    #[error("a name has a digest twice")]
    Repeated,
    /// Memory ran out.
    #[error("out of memory")]
    OutOfMemory,
}

impl From<AllocError> for SignersFault {
    ghost from_gives = { λ _ e. e ≡ OutOfMemory };

    fn from(_: AllocError) -> Self {
        SignersFault::OutOfMemory
    }
}

impl<T: Drop> From<AllocFailed<T>> for SignersFault {
    ghost from_gives = { λ _ e. e ≡ OutOfMemory };

    fn from(_: AllocFailed<T>) -> Self {
        SignersFault::OutOfMemory
    }
}
