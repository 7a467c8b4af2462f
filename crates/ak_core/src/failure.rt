// Why a value could not be made.

use thiserror::Error;

/// Memory ran out.
#[derive(Clone, Copy, PartialEq, Eq, Debug)]
pub struct OutOfMemory;

/// Why an enclave was not built.
#[derive(Clone, Copy, PartialEq, Eq, Debug, Error)]
pub enum BuildFault {
    /// The signers have no such name (SDM volume 3D, EINIT).
    #[error("unknown signer")]
    UnknownSigner,
    /// The name's digests do not hold the measurement (SDM volume 3D, EINIT).
    #[error("measurement not signed")]
    MeasurementNotSigned,
    /// Memory ran out.
    #[error("out of memory")]
    OutOfMemory,
}
