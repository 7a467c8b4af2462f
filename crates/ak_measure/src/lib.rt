//! What the author of an enclave signs, and who signed what: the measurement of an enclave, which is SHA-256 of the
//! blocks that its build leaves, and the file of signers.
#![tactic(auto)]

mod digests;
mod document;
mod fault;
mod laws;
mod measurement;
mod signers;

pub use document::read_document;
pub use fault::{DocumentFault, SignersFault};
pub use laws::{
    blocks_tell_the_enclave, bytes_of_blocks, membership, one_more_page, single_signer,
};
pub use measurement::{Measure, secinfo};
pub use signers::Signers;
