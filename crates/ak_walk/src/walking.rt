// One walk: the entry of the page table, and the EPCM's entry of the frame that it names. No walk sets a flag.
ghost use Rattle.std.specs.Prelude.{◌≡◌, if◌then◌else◌};
ghost use Rattle.ak_model.specs.Paging.Walk.{is_preset, flags_allow};
ghost use Rattle.ak_epcm.specs.Entries.{entry_at};
ghost use Rattle.ak_walk.specs.Finds.{is_open, entry_allows, walk_finds, tcs_walk_finds};

use ak_core::{Entry, Exit, Fault, Flags, Frame, Kind, Page, PageType};
use ak_epcm::Epcm;
use ak_pte::Pte;

/// The frame of a page, for an access of this kind, or that very access as a fault.
///
/// The entry is present, accessed and dirty, and has the flag for the kind; its frame holds the page as a regular one that
/// is not blocked; and the page allows the kind.
pub fn walk(e: Pte, epcm: &Epcm, p: Page, k: Kind) -> Result<Frame, Fault>
    ensures { result ≡ (if walk_finds e.flags (entry_at epcm.now e.frame.0) p.0 k then Ok e.frame
        else Err (record { page = p; kind = k })) }
{
    let entry = epcm.entry(e.frame);
    if lets_through(e.flags, k)
        && is_open_for(entry, p)
        && entry.kind == PageType::Reg
        && allows_kind(entry, k)
    {
        Ok(e.frame)
    } else {
        Err(Fault { page: p, kind: k })
    }
}

/// The frame of a TCS, or the fault of a write to it: entering writes to the TCS.
///
/// The entry is present, accessed and dirty, and its frame holds the page as a TCS that is not blocked.
pub fn walk_tcs(e: Pte, epcm: &Epcm, p: Page) -> Result<Frame, Fault>
    ensures { result ≡ (if tcs_walk_finds e.flags (entry_at epcm.now e.frame.0) p.0 then Ok e.frame
        else Err (record { page = p; kind = Kind.Write })) }
{
    let entry = epcm.entry(e.frame);
    if is_set(e.flags) && is_open_for(entry, p) && entry.kind == PageType::Tcs {
        Ok(e.frame)
    } else {
        Err(Fault {
            page: p,
            kind: Kind::Write,
        })
    }
}

/// What the kernel is shown of every page fault: a read of the enclave's base, by a user, of a page that is not present.
pub fn mask(base: u64) -> Exit
    ensures { result ≡ Exit.Pf base 4 }
{
    Exit::Pf(base, 4)
}

/// Present, accessed and dirty.
fn is_set(flags: Flags) -> bool
    ensures { result ≡ is_preset flags }
{
    flags.p && flags.a && flags.d
}

/// The flags let an access of this kind through.
fn lets_through(flags: Flags, k: Kind) -> bool
    ensures { result ≡ flags_allow flags k }
{
    is_set(flags)
        && match k {
            Kind::Read => true,
            Kind::Write => flags.w,
            Kind::Exec => flags.x,
        }
}

/// The frame holds this page, and is not blocked.
fn is_open_for(entry: Entry, p: Page) -> bool
    ensures { result ≡ is_open entry p.0 }
{
    entry.valid && !entry.blocked && entry.page == p
}

/// The EPCM allows an access of this kind.
fn allows_kind(entry: Entry, k: Kind) -> bool
    ensures { result ≡ entry_allows entry k }
{
    match k {
        Kind::Read => entry.r,
        Kind::Write => entry.w,
        Kind::Exec => entry.x,
    }
}
