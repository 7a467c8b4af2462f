// One step of the runtime.
ghost use Rattle.std.specs.Prelude.{◌≡◌, [], None};
ghost use Rattle.ak_pager.specs.Contexts.{step_address};
ghost use Rattle.ak_pager.specs.Effects.{KeepsMemory, SomeStep, StepsAlways, turn_of};

use crate::entry::enter;
use crate::leaving::{guard, leave};
use crate::probing::probe;
use crate::{RtTurn, places};
use ak_core::{Fault, Layout, Mem, Regs};

/// How far into CODE the step is by which the kernel enters.
const ENTRY_STEP: u64 = 0;

/// How far into CODE the guard's step is.
const GUARD_STEP: u64 = 16;

/// How far into CODE the step is by which the program leaves.
const LEAVE_STEP: u64 = 32;

/// The address of the step by which the program leaves.
pub fn leave_step(layout: &Layout) -> u64
    ensures { result ≡ step_address layout.now 32 }
{
    places::address_of(layout, LEAVE_STEP)
}

/// Does the next step of the runtime, in a turn of its own on this memory.
///
/// RIP says which step it is. A step touches CODE for executing, STATE for writing, and then the pages of its own in order: an
/// entry the areas that hold saved contexts, a probe its page for all that the page allows, and the end of the probes the first
/// area. At the first access that the memory refuses it is `RtTurn::Faulted`, and nothing changes.
pub fn runtime_turn<M: Mem>(layout: &Layout, regs: &mut Regs, mem: &mut M) -> RtTurn
    requires { SomeStep layout.now regs.old (M.holds mem.old) (M.bytes mem.old) }
    ensures keeps { KeepsMemory M.Mem mem.old mem.new }
    ensures steps { StepsAlways layout.now regs.old (M.holds mem.old) (M.bytes mem.old) (M.bytes mem.new)
        (M.granted mem.new) (M.refused mem.new) result regs.new }
{
    mem.begin();
    match step(layout, regs, mem) {
        Ok(turn) => turn,
        Err(fault) => RtTurn::Faulted(fault),
    }
}

/// The step, or the access that was refused.
fn step<M: Mem>(layout: &Layout, regs: &mut Regs, mem: &mut M) -> Result<RtTurn, Fault>
    requires begun { M.granted mem.old ≡ [] }
    requires unrefused { M.refused mem.old ≡ None }
    requires some { SomeStep layout.now regs.old (M.holds mem.old) (M.bytes mem.old) }
    ensures keeps { KeepsMemory M.Mem mem.old mem.new }
    ensures steps { StepsAlways layout.now regs.old (M.holds mem.old) (M.bytes mem.old) (M.bytes mem.new)
        (M.granted mem.new) (M.refused mem.new) (turn_of result) regs.new }
{
    mem.touch_exec(places::code(layout))?;
    mem.touch_write(places::state(layout))?;
    if regs.rip == places::address_of(layout, ENTRY_STEP) {
        enter(layout, regs, mem)
    } else if regs.rip == places::address_of(layout, GUARD_STEP) {
        Ok(guard(layout, mem))
    } else if regs.rip == places::address_of(layout, LEAVE_STEP) {
        Ok(leave(layout, regs, mem))
    } else {
        probe(layout, regs, mem)
    }
}
