// The pages of the runtime in their order: the TCS, three saved-state areas, STATE and CODE.
ghost use Rattle.std.specs.Prelude.{◌≡◌};
ghost use Rattle.ak_model.specs.Paging.Pages.{flags_for};
ghost use Rattle.ak_build.specs.Runtime.{runtime_type, runtime_perm};

use ak_core::{Flags, PageType, Perm, SSA_AREAS};

/// The type of a page of the runtime, that of the TCS being page 0.
pub(crate) fn runtime_type(i: u32) -> PageType
    ensures { result ≡ runtime_type i }
{
    if i == 0 { PageType::Tcs } else { PageType::Reg }
}

/// What the kernel maps a page of the runtime for. The TCS page is mapped for reading.
pub(crate) fn runtime_perm(i: u32) -> Perm
    ensures { result ≡ runtime_perm i }
{
    if i == 0 {
        Perm::R
    } else if i < SSA_AREAS + 2 {
        Perm::Rw
    } else {
        Perm::Rx
    }
}

/// The flags that map a page for all that this permission allows.
pub(crate) fn flags_for(perm: Perm) -> Flags
    ensures { result ≡ flags_for perm }
{
    Flags {
        p: true,
        w: perm == Perm::Rw,
        x: perm == Perm::Rx,
        a: true,
        d: true,
    }
}
