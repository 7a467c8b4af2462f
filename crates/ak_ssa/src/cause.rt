// Why a processor left the enclave.
use ak_core::Kind;

/// Why a processor left the enclave in the midst of it, as its saved frame notes it (SDM volume 3D, "EXITINFO", "EXINFO").
#[derive(Clone, Copy, PartialEq, Eq, Debug)]
pub enum Why {
    /// An interrupt. Nothing is noted of it.
    Interrupt,
    /// An exception that has this vector, and no access to tell of.
    Vector(u8),
    /// A page fault: the linear address, and what the access does.
    PageFault(u64, Kind),
}
