// Pages and addresses of the runtime.
ghost use Rattle.std.specs.Prelude.{◌≡◌, ℕ, ◌<◌, ◌≤◌, ◌+◌, ◌*◌, ◌^◌};
ghost use Rattle.ak_core.specs.Layout.{IsValid};
ghost use Rattle.ak_model.specs.Paging.Pages.{pages, all_pages, code_page, ssa_page, state_page};
ghost use Rattle.ak_pager.specs.Contexts.{step_address};

use ak_core::{Layout, PAGE_SIZE, Page};

/// The bytes of a page, for addresses.
pub(crate) const PAGE: u64 = PAGE_SIZE as u64;

/// How many pages the program has.
pub(crate) fn pages(layout: &Layout) -> u32
    ensures pages { result ≡ pages layout.now }
    ensures few { result ≤ 512 }
    ensures valid { IsValid layout.now }
{
    layout.perms().len() as u32
}

/// The page of the runtime's steps.
pub(crate) fn code(layout: &Layout) -> Page
    ensures page { result.0 ≡ code_page layout.now }
    ensures valid { IsValid layout.now }
{
    Page(ak_core::code_page(pages(layout)))
}

/// The page of what the runtime remembers.
pub(crate) fn state(layout: &Layout) -> Page
    ensures { result.0 ≡ state_page layout.now }
{
    Page(ak_core::state_page(pages(layout)))
}

/// A saved-state area.
pub(crate) fn area(layout: &Layout, area: u32) -> Page
    requires { area < 3 }
    ensures { result.0 ≡ ssa_page layout.now area }
{
    Page(ak_core::ssa_page(pages(layout), area))
}

/// The address so far into the page of the runtime's steps.
pub(crate) fn address_of(layout: &Layout, offset: u64) -> u64
    requires { offset < 4096 }
    ensures address { result ≡ step_address layout.now offset }
    ensures low { result < 2 ^ 48 }
{
    layout.base() + PAGE * u64::from(code(layout).0) + offset
}

/// The page that has this address in the enclave.
pub(crate) fn page_at(layout: &Layout, address: u64) -> Page
    requires { (p : ℕ) × (p < all_pages layout.now) × (address ≡ layout.now.base + 4096 * p) }
    ensures { address ≡ layout.now.base + 4096 * result.0 }
{
    Page(((address - layout.base()) / PAGE) as u32)
}
