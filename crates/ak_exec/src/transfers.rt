// Instructions that read or write one operand in memory, by what they ask.
ghost use Rattle.std.specs.Prelude.{◌≡◌, ◌<◌, ◌≤◌, ◌+◌, ◌*◌, ◌/◌, None, length};
ghost use Rattle.ak_model.specs.Flat.Instructions.{Reads, Writes, le_bytes, minus, reg_of, rsp, with_reg};
ghost use Rattle.ak_exec.specs.Kept.{EndsTurn};
ghost use Rattle.ak_exec.specs.Carried.{CarriesOut, popped, turn_of};

use crate::Turn;
use crate::operands::{Unreached, read, write};
use crate::plain::RSP;
use crate::turn::GENERAL_PROTECTION;
use ak_core::{Layout, Mem, Regs};

impl Unreached {
    /// How the turn ends.
    fn turn(self) -> Turn
        ensures { result ≡ turn_of self }
    {
        match self {
            Unreached::Outside => Turn::Trapped(GENERAL_PROTECTION),
            Unreached::Refused(fault) => Turn::Faulted(fault),
        }
    }
}

/// Reads 8 bytes into the register `reg`, and goes on at `next`.
pub(crate) fn load<M: Mem>(
    layout: &Layout,
    regs: &mut Regs,
    mem: &mut M,
    address: u64,
    next: u64,
    reg: u8,
) -> Turn
    requires reg { reg < 16 }
    requires few { length (M.granted mem.old) ≤ 2 }
    requires unrefused { M.refused mem.old ≡ None }
    ensures ends { EndsTurn M.Mem result mem.old mem.new regs.old regs.new }
    ensures bytes { M.bytes mem.new ≡ M.bytes mem.old }
    ensures carried { CarriesOut layout.now (Reads address 8 (λ v. with_reg (record regs.old { rip = next }) reg v)) result regs.new
        (M.holds mem.new) (M.bytes mem.old) (M.bytes mem.new) (M.granted mem.old) (M.granted mem.new) }
{
    let mut bytes = [0; 8];
    match read(layout, mem, address, &mut bytes) {
        Ok(()) => {
            regs.rip = next;
            regs.gpr[reg as usize] = u64::from_le_bytes(bytes);
            Turn::Done
        }
        Err(unreached) => unreached.turn(),
    }
}

/// Pops 8 bytes into the register `reg`, and goes on at `next`.
pub(crate) fn pop<M: Mem>(layout: &Layout, regs: &mut Regs, mem: &mut M, next: u64, reg: u8) -> Turn
    requires reg { reg < 16 }
    requires few { length (M.granted mem.old) ≤ 2 }
    requires unrefused { M.refused mem.old ≡ None }
    ensures ends { EndsTurn M.Mem result mem.old mem.new regs.old regs.new }
    ensures bytes { M.bytes mem.new ≡ M.bytes mem.old }
    ensures carried { CarriesOut layout.now
        (Reads (reg_of regs.old rsp) 8 (λ v. with_reg (popped (record regs.old { rip = next })) reg v)) result regs.new
        (M.holds mem.new) (M.bytes mem.old) (M.bytes mem.new) (M.granted mem.old) (M.granted mem.new) }
{
    let mut bytes = [0; 8];
    match read(layout, mem, regs.gpr[RSP], &mut bytes) {
        Ok(()) => {
            regs.rip = next;
            regs.gpr[RSP] = regs.gpr[RSP].wrapping_add(8);
            regs.gpr[reg as usize] = u64::from_le_bytes(bytes);
            Turn::Done
        }
        Err(unreached) => unreached.turn(),
    }
}

/// Reads a byte into the low byte of the register `reg`, and goes on at `next`.
pub(crate) fn load_byte<M: Mem>(
    layout: &Layout,
    regs: &mut Regs,
    mem: &mut M,
    address: u64,
    next: u64,
    reg: u8,
) -> Turn
    requires reg { reg < 16 }
    requires few { length (M.granted mem.old) ≤ 2 }
    requires unrefused { M.refused mem.old ≡ None }
    ensures ends { EndsTurn M.Mem result mem.old mem.new regs.old regs.new }
    ensures bytes { M.bytes mem.new ≡ M.bytes mem.old }
    ensures carried { CarriesOut layout.now
        (Reads address 1 (λ v. with_reg (record regs.old { rip = next }) reg (reg_of regs.old reg / 256 * 256 + v))) result regs.new
        (M.holds mem.new) (M.bytes mem.old) (M.bytes mem.new) (M.granted mem.old) (M.granted mem.new) }
{
    let mut bytes = [0];
    match read(layout, mem, address, &mut bytes) {
        Ok(()) => {
            regs.rip = next;
            let register = regs.gpr[reg as usize];
            regs.gpr[reg as usize] = register / 256 * 256 + bytes[0] as u64;
            Turn::Done
        }
        Err(unreached) => unreached.turn(),
    }
}

/// Pops 8 bytes into RIP.
pub(crate) fn return_near<M: Mem>(layout: &Layout, regs: &mut Regs, mem: &mut M) -> Turn
    requires few { length (M.granted mem.old) ≤ 2 }
    requires unrefused { M.refused mem.old ≡ None }
    ensures ends { EndsTurn M.Mem result mem.old mem.new regs.old regs.new }
    ensures bytes { M.bytes mem.new ≡ M.bytes mem.old }
    ensures carried { CarriesOut layout.now (Reads (reg_of regs.old rsp) 8 (λ v. record (popped regs.old) { rip = v })) result regs.new
        (M.holds mem.new) (M.bytes mem.old) (M.bytes mem.new) (M.granted mem.old) (M.granted mem.new) }
{
    let mut bytes = [0; 8];
    match read(layout, mem, regs.gpr[RSP], &mut bytes) {
        Ok(()) => {
            regs.gpr[RSP] = regs.gpr[RSP].wrapping_add(8);
            regs.rip = u64::from_le_bytes(bytes);
            Turn::Done
        }
        Err(unreached) => unreached.turn(),
    }
}

/// Writes these bytes, and goes on at `next`.
pub(crate) fn store<M: Mem>(
    layout: &Layout,
    regs: &mut Regs,
    mem: &mut M,
    address: u64,
    bytes: &[u8],
    next: u64,
) -> Turn
    requires some { 1 ≤ length bytes.now }
    requires within { length bytes.now ≤ 8 }
    requires few { length (M.granted mem.old) ≤ 2 }
    requires unrefused { M.refused mem.old ≡ None }
    ensures ends { EndsTurn M.Mem result mem.old mem.new regs.old regs.new }
    ensures carried { CarriesOut layout.now (Writes address bytes.now (record regs.old { rip = next })) result regs.new
        (M.holds mem.new) (M.bytes mem.old) (M.bytes mem.new) (M.granted mem.old) (M.granted mem.new) }
{
    match write(layout, mem, address, bytes) {
        Ok(()) => {
            regs.rip = next;
            Turn::Done
        }
        Err(unreached) => unreached.turn(),
    }
}

/// Pushes a number, and goes on at `next`.
pub(crate) fn push<M: Mem>(
    layout: &Layout,
    regs: &mut Regs,
    mem: &mut M,
    number: u64,
    next: u64,
) -> Turn
    requires few { length (M.granted mem.old) ≤ 2 }
    requires unrefused { M.refused mem.old ≡ None }
    ensures ends { EndsTurn M.Mem result mem.old mem.new regs.old regs.new }
    ensures carried { let top = minus (reg_of regs.old rsp) 8 in
        CarriesOut layout.now (Writes top (le_bytes 8 number) (with_reg (record regs.old { rip = next }) rsp top)) result regs.new
        (M.holds mem.new) (M.bytes mem.old) (M.bytes mem.new) (M.granted mem.old) (M.granted mem.new) }
{
    let top = regs.gpr[RSP].wrapping_sub(8);
    match write(layout, mem, top, &number.to_le_bytes()) {
        Ok(()) => {
            regs.rip = next;
            regs.gpr[RSP] = top;
            Turn::Done
        }
        Err(unreached) => unreached.turn(),
    }
}
