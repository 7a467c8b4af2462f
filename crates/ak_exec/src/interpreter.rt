// One instruction of the program.
ghost use Rattle.std.specs.Prelude.{◌≡◌, ◌<◌, ◌≤◌, ◌+◌, ◌^◌, None, length};
ghost use Rattle.ak_core.specs.declared.registers.Mode;
ghost use Rattle.ak_model.specs.Flat.FlatRuns.{Flat, line};
ghost use Rattle.ak_model.specs.Flat.Instructions.{plan, HasRegisters};
ghost use Rattle.ak_exec.specs.Turns.{Shows, DoesLine, IfIncomplete, IsVector, KeepsUnwritten, refused_by};
ghost use Rattle.ak_exec.specs.Carried.{CarriesOut};
ghost use Rattle.ak_exec.specs.Kept.{EndsTurn};

use crate::Turn;
use crate::fetching::{Fetched, fetch};
use crate::plain::{compute, moved};
use crate::transfers::{load, load_byte, pop, push, return_near, store};
use ak_core::{Instr, Layout, Mem, Regs};

/// Does an instruction of this size, which was fetched.
fn perform<M: Mem>(layout: &Layout, regs: &mut Regs, mem: &mut M, instr: Instr, size: u8) -> Turn
    requires registers { HasRegisters instr }
    requires room { regs.old.rip + size < 2 ^ 64 }
    requires few { length (M.granted mem.old) ≤ 2 }
    requires unrefused { M.refused mem.old ≡ None }
    ensures ends { EndsTurn M.Mem result mem.old mem.new regs.old regs.new }
    ensures carried { CarriesOut layout.now (plan instr (record regs.old { rip = regs.old.rip + size })) result regs.new
        (M.holds mem.new) (M.bytes mem.old) (M.bytes mem.new) (M.granted mem.old) (M.granted mem.new) }
{
    let next = regs.rip + size as u64;
    match instr {
        Instr::Store { rm, disp, reg } => {
            let address = moved(regs.gpr[rm as usize], disp);
            let bytes = regs.gpr[reg as usize].to_le_bytes();
            store(layout, regs, mem, address, &bytes, next)
        }
        Instr::StoreByte { rm, disp, reg } => {
            let address = moved(regs.gpr[rm as usize], disp);
            let byte = (regs.gpr[reg as usize] % 256) as u8;
            store(layout, regs, mem, address, &[byte], next)
        }
        Instr::Load { reg, rm, disp } => {
            let address = moved(regs.gpr[rm as usize], disp);
            load(layout, regs, mem, address, next, reg)
        }
        Instr::LoadByte { reg, rm, disp } => {
            let address = moved(regs.gpr[rm as usize], disp);
            load_byte(layout, regs, mem, address, next, reg)
        }
        Instr::CallNear { rel } => push(layout, regs, mem, next, moved(next, rel)),
        Instr::Push { reg } => push(layout, regs, mem, regs.gpr[reg as usize], next),
        Instr::Return => return_near(layout, regs, mem),
        Instr::Pop { reg } => pop(layout, regs, mem, next, reg),
        _ => compute(regs, instr, next),
    }
}

/// Does the next instruction of the program, in a turn of its own on this memory.
///
/// The instruction is read from the page of RIP, and from the next page where it goes on there; each is touched for
/// executing before it is read. An operand in memory has one page or two; all are touched, in ascending order, before a
/// byte of it is read or written. `Turn::Trapped` is vector 13 where RIP, the rest of the instruction, or a byte of its
/// operand is outside the program, or where ENCLU names another leaf than EEXIT; vector 6 where the bytes are no
/// instruction, or UD2; and vector 0 where a division is by zero or its quotient too large. `Turn::Faulted` is an access
/// that the memory refused. Neither changes a register or a byte (SDM volume 2; SDM volume 3D, "ENCLU" and "EEXIT").
pub fn exec<M: Mem>(layout: &Layout, regs: &mut Regs, mem: &mut M) -> Turn
    requires program { regs.old.mode ≡ Mode.Mode.Program }
    ensures holds { M.holds mem.new ≡ M.holds mem.old }
    ensures keeps { M.keeps mem.old mem.new }
    ensures mode { regs.new.mode ≡ regs.old.mode }
    ensures vector { IsVector result }
    ensures refused { M.refused mem.new ≡ refused_by result }
    ensures same_registers { IfIncomplete result (regs.new ≡ regs.old) }
    ensures same_bytes { IfIncomplete result (M.bytes mem.new ≡ M.bytes mem.old) }
    ensures unwritten { KeepsUnwritten (M.granted mem.new) (M.bytes mem.old) (M.bytes mem.new) }
    ensures line { (flat : Flat) → flat.regs ≡ regs.old → Shows layout.now (M.holds mem.old) (M.bytes mem.old) flat →
        DoesLine layout.now (line layout.now flat) result regs.new (M.holds mem.new) (M.bytes mem.new) (M.granted mem.new) }
{
    mem.begin();
    match fetch(layout, regs.rip, mem) {
        Fetched::Found(instr, size) => perform(layout, regs, mem, instr, size),
        Fetched::Raised(vector) => Turn::Trapped(vector),
        Fetched::Refused(fault) => Turn::Faulted(fault),
    }
}
