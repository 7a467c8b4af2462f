// The measurement of an enclave while it is built.
ghost use Rattle.std.specs.Prelude.{◌≡◌, ◌++◌, ◌+◌, ◌^◌, ◌≤◌, ℕ, List, length};
ghost use Rattle.sha2.specs.Sha256.{sha256};
ghost use Rattle.ak_measure.specs.Blocks.{create_block, add_block, extend_block, page_blocks};
ghost use Rattle.ak_measure.specs.Absorbed.{HasAbsorbed};
ghost use Rattle.ak_measure.specs.Secinfo.{secinfo as flags_of};

use ak_core::{PageType, Perm};
use byteorder::{ByteOrder, LittleEndian};
use sha2::{Digest, Sha256};

/// The measurement of an enclave while it is built (SDM volume 3D, "SECS", MRENCLAVE): SHA-256 of the blocks that
/// ECREATE, EADD and EEXTEND leave, in the order in which they come.
#[derive(Drop)]
pub struct Measure {
    hasher: Sha256,
}

impl Measure {
    /// The measurement of an enclave of this size that has no page yet: the block of ECREATE.
    pub fn new(size: u64) -> Measure
        ensures { HasAbsorbed result (create_block size) }
    {
        let mut hasher = Sha256::new();
        hasher.update(&created(size));
        Measure { hasher }
    }

    /// Absorbs the block of EADD: a page was added at this offset, with these flags of its SECINFO.
    pub fn add(&mut self, offset: u64, secinfo: u64)
        ensures { (bytes : List ℕ) → HasAbsorbed self.old bytes
            → HasAbsorbed self.new (bytes ++ add_block offset secinfo) }
    {
        self.hasher.update(&added(offset, secinfo));
    }

    /// Absorbs the block of EEXTEND and the chunk: these 256 bytes stand at this offset.
    pub fn extend(&mut self, offset: u64, chunk: &[u8])
        requires { length chunk.now ≡ 256 }
        ensures { (bytes : List ℕ) → HasAbsorbed self.old bytes
            → HasAbsorbed self.new (bytes ++ extend_block offset ++ chunk.now) }
    {
        self.hasher.update(&extended(offset));
        self.hasher.update(chunk);
    }

    /// Absorbs a whole page at this offset, with these flags of its SECINFO: the block of EADD, and the sixteen chunks.
    pub fn add_page(&mut self, offset: u64, secinfo: u64, page: &[u8])
        requires whole { length page.now ≡ 4096 }
        requires inside { offset + 4096 ≤ 2 ^ 64 }
        ensures { (bytes : List ℕ) → HasAbsorbed self.old bytes
            → HasAbsorbed self.new (bytes ++ page_blocks offset secinfo page.now) }
    {
        self.add(offset, secinfo);
        for j in 0..16 {
            let at = 256 * j;
            self.extend(offset + at as u64, &page[at..at + 256]);
        }
    }

    /// The digest of all blocks that were absorbed so far.
    pub fn digest(&self) -> [u8; 32]
        ensures { (bytes : List ℕ) → HasAbsorbed self.now bytes → result ≡ sha256 bytes }
    {
        match self.hasher.clone() {
            Ok(hasher) => hasher.finalize(),
            Err(_) => unreachable!(),
        }
    }

    /// The digest of all blocks that were absorbed.
    pub fn finish(self) -> [u8; 32]
        ensures { (bytes : List ℕ) → HasAbsorbed self bytes → result ≡ sha256 bytes }
    {
        self.hasher.finalize()
    }
}

// The number of pages of an SSA frame (SDM volume 3D, "SECS", SSAFRAMESIZE).
const SSA_FRAME_SIZE: u32 = 1;

fn created(size: u64) -> [u8; 64]
    ensures { result ≡ create_block size }
{
    let mut block = [0u8; 64];
    block[..8].copy_from_slice(b"ECREATE\0");
    LittleEndian::write_u32(&mut block[8..], SSA_FRAME_SIZE);
    LittleEndian::write_u64(&mut block[12..], size);
    block
}

fn added(offset: u64, secinfo: u64) -> [u8; 64]
    ensures { result ≡ add_block offset secinfo }
{
    let mut block = [0u8; 64];
    block[..8].copy_from_slice(b"EADD\0\0\0\0");
    LittleEndian::write_u64(&mut block[8..], offset);
    LittleEndian::write_u64(&mut block[16..], secinfo);
    block
}

fn extended(offset: u64) -> [u8; 64]
    ensures { result ≡ extend_block offset }
{
    let mut block = [0u8; 64];
    block[..8].copy_from_slice(b"EEXTEND\0");
    LittleEndian::write_u64(&mut block[8..], offset);
    block
}

/// The flags of a page's SECINFO: its type, and of a regular page its permission. A page that is neither regular nor a TCS has none.
pub fn secinfo(kind: PageType, perm: Perm) -> u64
    ensures { result ≡ flags_of kind perm }
{
    match (kind, perm) {
        (PageType::Reg, Perm::R) => 0x201,
        (PageType::Reg, Perm::Rw) => 0x203,
        (PageType::Reg, Perm::Rx) => 0x205,
        (PageType::Tcs, _) => 0x100,
        (PageType::Secs | PageType::Va, _) => 0,
    }
}
