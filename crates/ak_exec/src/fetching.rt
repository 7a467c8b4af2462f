// The fetch of an instruction (SDM volume 3A, "Exception and Interrupt Reference").
ghost use Rattle.std.specs.Prelude.{◌≡◌, ◌<◌, ◌≤◌, ◌+◌, ◌^◌, ◌++◌, [], None, true, length, take, drop};
ghost use Rattle.ak_core.specs.Mem.{is_touched, access_to};
ghost use Rattle.ak_core.specs.declared.page.Kind.TheVariants.{Exec};
ghost use Rattle.ak_model.specs.Flat.FlatRuns.{Flat};
ghost use Rattle.ak_exec.specs.Turns.{Shows};
ghost use Rattle.ak_exec.specs.Kept.{SameMemory};
ghost use Rattle.ak_exec.specs.Fetches.{Finds, IsSound, IfFound, Crosses, refused_fetch};

use crate::operands::PAGE;
use crate::turn::{GENERAL_PROTECTION, INVALID_OPCODE};
use ak_core::{Decoded, Fault, Instr, Layout, Mem, PAGE_SIZE, Page};
use ak_isa::decode;
use arrayvec::ArrayVec;

/// The bytes of the longest encoding.
const LONGEST: usize = 10;

/// What the fetch of an instruction finds.
#[derive(Clone, Copy)]
pub(crate) enum Fetched {
    /// A whole instruction, and its length in bytes.
    Found(Instr, u8),
    /// It raises this vector.
    Raised(u8),
    /// This access was refused.
    Refused(Fault),
}

/// The bytes of a page from an offset on.
fn rest_of<M: Mem>(mem: &M, page: Page, from: u16) -> &[u8]
    requires touched { is_touched (M.granted mem.now) page.0 ≡ true }
    requires inside { from < 4096 }
    ensures { result.now ≡ drop from (M.bytes mem.now page.0) }
{
    &mem.page(page)[from as usize..]
}

/// Takes the bytes of a page from an offset on, until there are enough for any encoding.
fn take_bytes<M: Mem>(mem: &M, page: Page, from: u16, window: &mut ArrayVec<u8, LONGEST>)
    requires touched { is_touched (M.granted mem.now) page.0 ≡ true }
    requires inside { from < 4096 }
    ensures { window.new.items ≡ take 10 (window.old.items ++ drop from (M.bytes mem.now page.0)) }
{
    let room = (LONGEST - window.len()).min(PAGE_SIZE - from as usize);
    for i in 0..room as u16 {
        window.push(mem.load(page, from + i));
    }
}

/// The instruction at RIP. Its bytes may go on in the next page.
pub(crate) fn fetch<M: Mem>(layout: &Layout, rip: u64, mem: &mut M) -> Fetched
    requires begun { M.granted mem.old ≡ [] }
    requires unrefused { M.refused mem.old ≡ None }
    ensures same { SameMemory M.Mem mem.old mem.new }
    ensures refused { M.refused mem.new ≡ refused_fetch result }
    ensures sound { IsSound result }
    ensures room { IfFound result (rip + 10 < 2 ^ 64) }
    ensures few { length (M.granted mem.new) ≤ 2 }
    ensures line { (flat : Flat) → flat.regs.rip ≡ rip → Shows layout.now (M.holds mem.old) (M.bytes mem.old) flat →
        Finds layout.now flat result (M.granted mem.new) }
{
    let base = layout.base();
    let pages = layout.perms().len() as u64;
    if rip < base || rip - base >= PAGE * pages {
        return Fetched::Raised(GENERAL_PROTECTION);
    }
    let offset = rip - base;
    let page = Page((offset / PAGE) as u32);
    if let Err(fault) = mem.touch_exec(page) {
        return Fetched::Refused(fault);
    }
    let from = (offset % PAGE) as u16;
    match decode(rest_of(mem, page, from)) {
        Decoded::Whole(instr, size) => Fetched::Found(instr, size),
        Decoded::Illegal => Fetched::Raised(INVALID_OPCODE),
        Decoded::NeedMore => {
            let next = Page(page.0 + 1);
            if next.0 as u64 >= pages {
                return Fetched::Raised(GENERAL_PROTECTION);
            }
            let mut window = ArrayVec::new();
            take_bytes(mem, page, from, &mut window);
            fetch_across(mem, next, &mut window)
        }
    }
}

/// The instruction that begins with these bytes of one page, and goes on in the next.
fn fetch_across<M: Mem>(mem: &mut M, next: Page, window: &mut ArrayVec<u8, LONGEST>) -> Fetched
    requires few { length (M.granted mem.old) < 4 }
    requires unrefused { M.refused mem.old ≡ None }
    ensures same { SameMemory M.Mem mem.old mem.new }
    ensures refused { M.refused mem.new ≡ refused_fetch result }
    ensures sound { IsSound result }
    ensures few { length (M.granted mem.new) ≤ length (M.granted mem.old) + 1 }
    ensures crosses { Crosses (access_to next.0 Exec) (window.old.items ++ M.bytes mem.old next.0) result (M.holds mem.old) (M.granted mem.old) (M.granted mem.new) }
{
    if let Err(fault) = mem.touch_exec(next) {
        return Fetched::Refused(fault);
    }
    take_bytes(mem, next, 0, window);
    match decode(window) {
        Decoded::Whole(instr, size) => Fetched::Found(instr, size),
        _ => Fetched::Raised(INVALID_OPCODE),
    }
}
