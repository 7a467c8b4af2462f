// Operands in memory (SDM volume 1, "Operand Addressing").
ghost use Rattle.std.specs.Prelude.{◌≡◌, ℕ, ◌<◌, ◌≤◌, ◌+◌, ◌-◌, ◌*◌, ◌/◌, ◌%◌, None, false, true, length, take, drop, slice_index, IfNone, IfSome, IfOk, IfErr, OnOk, OnErr};
ghost use Rattle.ak_core.specs.Layout.{Layout as Pages};
ghost use Rattle.ak_core.specs.Mem.{Touches, access_to, is_touched, is_writable};
ghost use Rattle.ak_core.specs.declared.page.Kind.TheVariants.{Read, Write};
ghost use Rattle.ak_model.specs.Paging.Pages.{pages};
ghost use Rattle.ak_model.specs.Flat.FlatRuns.{Flat, is_program, bytes_at, overwrite};
ghost use Rattle.ak_exec.specs.Turns.{KeepsUnwritten, Shows};
ghost use Rattle.ak_exec.specs.Kept.{SameMemory};
ghost use Rattle.ak_exec.specs.Accessed.{IsPlace, IsReached, IsUnreached, Reaches, TouchesBoth, refused_access};

use ak_core::{Fault, Kind, Layout, Mem, PAGE_SIZE, Page};

/// The bytes of a page, for addresses.
pub(crate) const PAGE: u64 = PAGE_SIZE as u64;

/// Why an operand was not read or written.
#[derive(Clone, Copy)]
pub(crate) enum Unreached {
    /// It is not wholly in the program.
    Outside,
    /// This access was refused.
    Refused(Fault),
}

/// How far from the base an operand of this many bytes is, if it is wholly in the program.
fn place_of(layout: &Layout, address: u64, count: usize) -> Option<u64>
    ensures inside { IfSome result (IsPlace layout.now address count) }
    ensures outside { IfNone result (is_program layout.now address count ≡ false) }
{
    let base = layout.base();
    let size = PAGE * layout.perms().len() as u64;
    if address < base || address - base > size || size - (address - base) < count as u64 {
        return None;
    }
    Some(address - base)
}

/// Touches a page.
fn touch<M: Mem>(mem: &mut M, page: Page, kind: Kind) -> Result<(), Fault>
    requires few { length (M.granted mem.old) < 4 }
    ensures same { SameMemory M.Mem mem.old mem.new }
    ensures touch { Touches (access_to page.0 kind) result (M.holds mem.old) (M.granted mem.old) (M.granted mem.new)
        (M.refused mem.old) (M.refused mem.new) }
{
    match kind {
        Kind::Read => mem.touch_read(page),
        Kind::Write => mem.touch_write(page),
        Kind::Exec => mem.touch_exec(page),
    }
}

/// Touches the first page of an operand, and the last, where that is another.
fn touch_both<M: Mem>(mem: &mut M, first: Page, last: Page, kind: Kind) -> Result<(), Fault>
    requires few { length (M.granted mem.old) ≤ 2 }
    requires unrefused { M.refused mem.old ≡ None }
    ensures same { SameMemory M.Mem mem.old mem.new }
    ensures granted { OnOk result (M.refused mem.new ≡ None) }
    ensures refused { IfErr result (λ fault. M.refused mem.new ≡ Some fault) }
    ensures both { TouchesBoth first.0 last.0 kind result (M.holds mem.new)
        (M.granted mem.old) (M.granted mem.new) }
{
    touch(mem, first, kind)?;
    if first.0 == last.0 {
        return Ok(());
    }
    touch(mem, last, kind)
}

/// Touches the pages of an operand in ascending order, and tells how far it is from the base.
fn reach<M: Mem>(
    layout: &Layout,
    mem: &mut M,
    address: u64,
    count: usize,
    kind: Kind,
) -> Result<u64, Unreached>
    requires some { 1 ≤ count }
    requires within { count ≤ 8 }
    requires few { length (M.granted mem.old) ≤ 2 }
    requires unrefused { M.refused mem.old ≡ None }
    ensures same { SameMemory M.Mem mem.old mem.new }
    ensures refused { M.refused mem.new ≡ refused_access result }
    ensures reached { IfOk result (λ place. IsReached layout.now address count kind place
        (M.holds mem.new) (M.granted mem.old) (M.granted mem.new)) }
    ensures unreached { IfErr result (λ unreached. IsUnreached layout.now address count kind unreached
        (M.granted mem.old) (M.granted mem.new)) }
{
    let Some(place) = place_of(layout, address, count) else {
        return Err(Unreached::Outside);
    };
    let first = Page((place / PAGE) as u32);
    let last = Page(((place + count as u64 - 1) / PAGE) as u32);
    match touch_both(mem, first, last, kind) {
        Ok(()) => Ok(place),
        Err(fault) => Err(Unreached::Refused(fault)),
    }
}

/// Loads bytes of one page.
#[inline(always)]
fn load_within<M: Mem>(mem: &M, page: Page, from: usize, into: &mut [u8])
    requires touched { is_touched (M.granted mem.now) page.0 ≡ true }
    requires inside { from + length into.old ≤ 4096 }
    ensures { into.new ≡ take (length into.old) (drop from (M.bytes mem.now page.0)) }
{
    into.copy_from_slice(&mem.page(page)[from..from + into.len()]);
}

/// Loads bytes from a place on.
#[inline(always)]
fn load_bytes<M: Mem>(mem: &M, place: u64, into: &mut [u8])
    requires some { 1 ≤ length into.old }
    requires touched { (k : ℕ) → k < length into.old →
        is_touched (M.granted mem.now) ((place + k) / 4096) ≡ true }
    requires low { place + length into.old ≤ 4096 * 512 }
    ensures { (k : ℕ) → k < length into.old →
        slice_index into.new k ≡ slice_index (M.bytes mem.now ((place + k) / 4096)) ((place + k) % 4096) }
{
    let from = (place % PAGE) as usize;
    if from + into.len() <= PAGE as usize {
        load_within(mem, Page((place / PAGE) as u32), from, into);
        return;
    }
    for (i, byte) in into.iter_mut().enumerate() {
        let at = place + i as u64;
        *byte = mem.load(Page((at / PAGE) as u32), (at % PAGE) as u16);
    }
}

/// Stores bytes from a place on.
#[inline(always)]
fn store_bytes<M: Mem>(mem: &mut M, place: u64, bytes: &[u8])
    requires some { 1 ≤ length bytes.now }
    requires touched { (k : ℕ) → k < length bytes.now →
        is_writable (M.granted mem.old) ((place + k) / 4096) ≡ true }
    requires held { (k : ℕ) → k < length bytes.now → M.holds mem.old ((place + k) / 4096) ≡ true }
    requires low { place + length bytes.now ≤ 4096 * 512 }
    ensures holds { M.holds mem.new ≡ M.holds mem.old }
    ensures keeps { M.keeps mem.old mem.new }
    ensures granted { M.granted mem.new ≡ M.granted mem.old }
    ensures refused { M.refused mem.new ≡ M.refused mem.old }
    ensures unwritten { KeepsUnwritten (M.granted mem.new) (M.bytes mem.old) (M.bytes mem.new) }
    ensures shows { (layout : Pages) (flat : Flat) → place + length bytes.now ≤ 4096 * pages layout →
        Shows layout (M.holds mem.old) (M.bytes mem.old) flat →
        Shows layout (M.holds mem.new) (M.bytes mem.new)
        (record flat { bytes = overwrite flat.bytes place bytes.now }) }
{
    let from = (place % PAGE) as u16;
    if from as usize + bytes.len() <= PAGE as usize {
        mem.store_slice(Page((place / PAGE) as u32), from, bytes);
        return;
    }
    for (i, byte) in bytes.iter().enumerate() {
        let at = place + i as u64;
        mem.store(Page((at / PAGE) as u32), (at % PAGE) as u16, *byte);
    }
}

/// Reads an operand.
#[inline(always)]
pub(crate) fn read<M: Mem>(
    layout: &Layout,
    mem: &mut M,
    address: u64,
    into: &mut [u8],
) -> Result<(), Unreached>
    requires some { 1 ≤ length into.old }
    requires within { length into.old ≤ 8 }
    requires few { length (M.granted mem.old) ≤ 2 }
    requires unrefused { M.refused mem.old ≡ None }
    ensures same { SameMemory M.Mem mem.old mem.new }
    ensures refused { M.refused mem.new ≡ refused_access result }
    ensures reached { OnOk result (Reaches layout.now address (length into.old) Read
        (M.granted mem.old) (M.granted mem.new)) }
    ensures unreached { IfErr result (λ unreached. IsUnreached layout.now address (length into.old) Read unreached
        (M.granted mem.old) (M.granted mem.new)) }
    ensures value { OnOk result ((flat : Flat) → Shows layout.now (M.holds mem.old) (M.bytes mem.old) flat →
        into.new ≡ bytes_at layout.now flat address (length into.old)) }
{
    let place = reach(layout, mem, address, into.len(), Kind::Read)?;
    load_bytes(mem, place, into);
    Ok(())
}

/// Writes an operand: all of it, or no byte.
#[inline(always)]
pub(crate) fn write<M: Mem>(
    layout: &Layout,
    mem: &mut M,
    address: u64,
    bytes: &[u8],
) -> Result<(), Unreached>
    requires some { 1 ≤ length bytes.now }
    requires within { length bytes.now ≤ 8 }
    requires few { length (M.granted mem.old) ≤ 2 }
    requires unrefused { M.refused mem.old ≡ None }
    ensures holds { M.holds mem.new ≡ M.holds mem.old }
    ensures keeps { M.keeps mem.old mem.new }
    ensures same { OnErr result (M.bytes mem.new ≡ M.bytes mem.old) }
    ensures unwritten { KeepsUnwritten (M.granted mem.new) (M.bytes mem.old) (M.bytes mem.new) }
    ensures refused { M.refused mem.new ≡ refused_access result }
    ensures reached { OnOk result (Reaches layout.now address (length bytes.now) Write
        (M.granted mem.old) (M.granted mem.new)) }
    ensures unreached { IfErr result (λ unreached. IsUnreached layout.now address (length bytes.now) Write unreached
        (M.granted mem.old) (M.granted mem.new)) }
    ensures shows { OnOk result ((flat : Flat) → Shows layout.now (M.holds mem.old) (M.bytes mem.old) flat →
        Shows layout.now (M.holds mem.new) (M.bytes mem.new)
        (record flat { bytes = overwrite flat.bytes (address - layout.now.base) bytes.now })) }
{
    let place = reach(layout, mem, address, bytes.len(), Kind::Write)?;
    store_bytes(mem, place, bytes);
    Ok(())
}
