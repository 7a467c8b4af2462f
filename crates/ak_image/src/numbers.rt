// The numbers of an image, each where it is within its limits.
ghost use Rattle.std.specs.Prelude.{◌≡◌, ◌<◌, ◌≤◌, ◌*◌, ◌^◌, ◌==◌, ◌&&◌, nat_lt, nat_le, length};
ghost use Rattle.ak_core.specs.Layout.{enclave_size, four_largest};
ghost use Rattle.ak_image.specs.Numbers.{number_where, is_base, version_of, base_of, entry_of, budget_of, cluster_of, clusters_of};
ghost use Rattle.ak_image.specs.Views.{spelled_of};

use crate::spelled::Spelled;
use ak_core::{PAGE_SIZE, RUNTIME_PAGES};

/// The first address above the space of an enclave.
const ADDRESSES: u64 = 1 << 47;

/// The smallest power of two with room for the program's pages and the runtime's six.
pub(crate) fn enclave_size(pages: u64) -> u64
    requires { pages < 2 ^ 35 }
    ensures { result ≡ enclave_size pages }
{
    (PAGE_SIZE as u64 * (pages + RUNTIME_PAGES as u64)).next_power_of_two()
}

/// The number, if it is 1.
fn one(number: i64) -> Option<u64>
    ensures { result ≡ number_where (λ v. v == 1) number }
{
    match u64::try_from(number) {
        Ok(1) => Some(1),
        _ => None,
    }
}

/// The number, if it is a base for so many pages.
fn base_for(number: i64, pages: usize) -> Option<u64>
    ensures { result ≡ number_where (is_base (enclave_size pages)) number }
{
    let pages = pages as u64;
    if pages >= ADDRESSES / PAGE_SIZE as u64 {
        return None;
    }
    let size = enclave_size(pages);
    match u64::try_from(number) {
        Ok(base) if base % size == 0 && base + size <= ADDRESSES => Some(base),
        _ => None,
    }
}

/// The number, if it is the offset of a byte of so many pages.
fn offset_in(number: i64, pages: u32) -> Option<u32>
    requires { pages ≤ 512 }
    ensures { result ≡ number_where (λ e. nat_lt e (4096 * pages)) number }
{
    match u32::try_from(number) {
        Ok(offset) if offset < PAGE_SIZE as u32 * pages => Some(offset),
        _ => None,
    }
}

/// The number, if it is between the least budget and 512.
fn budget_from(number: i64, least: u64) -> Option<u32>
    ensures { result ≡ number_where (λ b. nat_le least b && nat_le b 512) number }
{
    match u32::try_from(number) {
        Ok(budget) if least <= u64::from(budget) && budget <= 512 => Some(budget),
        _ => None,
    }
}

/// The version, if it is 1.
#[tactic(auto, using(crate::proofs::Counts::length_view), unfolding(crate::specs::Numbers::version_of))]
pub(crate) fn version_of(text: &Spelled<'_>) -> Option<u64>
    ensures { result ≡ version_of (spelled_of text.now) }
{
    one(text.version)
}

/// The base, if it is a multiple of the enclave's size, and the enclave ends at 2^47 at most.
#[tactic(auto, using(crate::proofs::Counts::length_view), unfolding(crate::specs::Numbers::base_of))]
pub(crate) fn base_of(text: &Spelled<'_>) -> Option<u64>
    ensures { result ≡ base_of (spelled_of text.now) }
{
    base_for(text.base, text.pages.as_slice().len())
}

/// The offset of the first instruction, if it is in a page of the program.
#[tactic(auto, using(crate::proofs::Counts::length_view), unfolding(crate::specs::Numbers::entry_of))]
pub(crate) fn entry_of(text: &Spelled<'_>) -> Option<u32>
    requires { length text.now.pages.items ≤ 512 }
    ensures { result ≡ entry_of (spelled_of text.now) }
{
    offset_in(text.entry, text.pages.as_slice().len() as u32)
}

/// The budget, if it has room for the four largest clusters, which is the least one, and is 512 at most.
#[tactic(auto, using(crate::proofs::Counts::length_view), unfolding(crate::specs::Numbers::budget_of))]
pub(crate) fn budget_of(text: &Spelled<'_>, least: u64) -> Option<u32>
    requires { least ≡ four_largest (clusters_of (spelled_of text.now)) (cluster_of (spelled_of text.now)) }
    ensures { result ≡ budget_of (spelled_of text.now) }
{
    budget_from(text.budget, least)
}
