// The pages of an enclave as its build makes them.
ghost use Rattle.std.specs.Prelude.{◌≡◌, ◌<◌, ◌≤◌, ◌+◌, ◌*◌, ◌++◌, length, take, drop};
ghost use Rattle.ak_measure.specs.Blocks.{zeros};
ghost use Rattle.byteorder.specs.Endian.{little_bytes};
ghost use Rattle.ak_image.specs.Built.{tcs_page, perm_number, code_entry, code_page, regular};

use ak_core::{PAGE_SIZE, Perm, SSA_AREAS, code_page, ssa_page};
use byteorder::{ByteOrder, LittleEndian};

/// Where CODE says something of each page.
const TABLE: usize = 1024;

/// Where CODE says the limits of the enclave.
const LIMITS: usize = 3072;

/// The flags of the TCS's SECINFO: its type, and no permission.
pub(crate) const TCS: u64 = 1 << 8;

/// The flags of a regular page's SECINFO: its type, and what it allows.
pub(crate) fn regular(perm: Perm) -> u64
    ensures { result ≡ regular perm }
{
    const REGULAR: u64 = 2 << 8;
    REGULAR
        | match perm {
            Perm::R => 1,
            Perm::Rw => 3,
            Perm::Rx => 5,
        }
}

/// Copies a page from pages that stand one after the other.
pub(crate) fn copy_page(pages: &[u8], page: usize, into: &mut [u8])
    requires whole { length into.old ≡ PAGE_SIZE }
    requires inside { 4096 * page + 4096 ≤ length pages.now }
    ensures { into.new ≡ take 4096 (drop (4096 * page) pages.now) }
{
    let from = PAGE_SIZE * page;
    into.copy_from_slice(&pages[from..from + PAGE_SIZE]);
}

/// Writes a page of zeros.
pub(crate) fn fill_zeros(into: &mut [u8])
    requires { length into.old ≡ PAGE_SIZE }
    ensures { into.new ≡ zeros 4096 }
{
    into.fill(0);
}

/// Puts bytes into a page, from a place on.
fn put(page: &mut [u8], at: usize, bytes: &[u8])
    requires { at + length bytes.now ≤ length page.old }
    ensures { page.new ≡ take at page.old ++ (bytes.now ++ drop (at + length bytes.now) page.old) }
{
    page[at..at + bytes.len()].copy_from_slice(bytes);
}

/// The first bytes of the TCS of an enclave with so many pages of the program.
fn tcs_head(pages: u32) -> [u8; 40]
    requires { pages ≤ 512 }
    ensures { result ≡ zeros 16 ++ little_bytes 8 (4096 * (pages + 1)) ++ little_bytes 4 0 ++ little_bytes 4 3 ++ little_bytes 8 (4096 * (pages + 5)) }
{
    let page_size = PAGE_SIZE as u64;
    let mut head = [0u8; 40];
    LittleEndian::write_u64(&mut head[16..], page_size * u64::from(ssa_page(pages, 0)));
    LittleEndian::write_u32(&mut head[28..], SSA_AREAS);
    LittleEndian::write_u64(&mut head[32..], page_size * u64::from(code_page(pages)));
    head
}

/// Writes the TCS of an enclave with so many pages of the program.
pub(crate) fn fill_tcs(pages: u32, into: &mut [u8])
    requires whole { length into.old ≡ PAGE_SIZE }
    requires few { pages ≤ 512 }
    ensures { into.new ≡ tcs_page pages }
{
    into.fill(0);
    put(into, 0, &tcs_head(pages));
}

/// The number of a permission.
fn perm_number(perm: Perm) -> u8
    ensures { result ≡ perm_number perm }
{
    match perm {
        Perm::R => 0,
        Perm::Rw => 1,
        Perm::Rx => 2,
    }
}

/// What CODE says of a page.
fn code_entry(cluster: u32, perm: Perm) -> [u8; 4]
    ensures { result ≡ code_entry cluster perm }
{
    let [low, high, ..] = cluster.to_le_bytes();
    [low, high, perm_number(perm), 0]
}

/// What CODE says of the limits of the enclave.
fn code_limits(budget: u32, entry: u32) -> [u8; 8]
    ensures { result ≡ little_bytes 4 budget ++ little_bytes 4 entry }
{
    let mut limits = [0u8; 8];
    LittleEndian::write_u32(&mut limits, budget);
    LittleEndian::write_u32(&mut limits[4..], entry);
    limits
}

/// Writes CODE.
pub(crate) fn fill_code(
    cluster_of: &[u32],
    perms: &[Perm],
    budget: u32,
    entry: u32,
    into: &mut [u8],
)
    requires whole { length into.old ≡ PAGE_SIZE }
    requires each { length cluster_of.now ≡ length perms.now }
    requires few { length perms.now ≤ 512 }
    ensures { into.new ≡ code_page cluster_of.now perms.now budget entry }
{
    into.fill(0);
    put(into, LIMITS, &code_limits(budget, entry));
    for page in 0..perms.len() {
        put(
            into,
            TABLE + 4 * page,
            &code_entry(cluster_of[page], perms[page]),
        );
    }
}
