// The instructions that ask nothing of memory.
ghost use Rattle.std.specs.Prelude.{◌≡◌, ◌<◌, ◌+◌, ◌*◌, ◌^◌};
ghost use Rattle.ak_core.specs.declared.instruction.Instr.TheVariants.{Divide, Enclu};
ghost use Rattle.ak_model.specs.Flat.Instructions.{plan, Computes, HasRegisters, is_met, moved as plan_moved, divide as divided, reg_of};
ghost use Rattle.ak_exec.specs.Plain.{AsksNoMemory, GoesOn};
ghost use Rattle.ak_exec.specs.Turns.{IsVector, Performs};

use crate::turn::{DIVIDE_ERROR, GENERAL_PROTECTION, INVALID_OPCODE};
use crate::{Turn, alu};
use ak_core::{Cond, Instr, Regs};

// The places of registers among the sixteen.
const RAX: usize = 0;

const RCX: usize = 1;

const RDX: usize = 2;

pub(crate) const RSP: usize = 4;

const RSI: usize = 6;

const RDI: usize = 7;

/// The leaf of ENCLU that leaves the enclave (SDM volume 3D, "EEXIT").
const EEXIT: u64 = 4;

/// An address moved by a signed number, modulo 2^64.
pub(crate) fn moved(from: u64, by: i32) -> u64
    ensures { result ≡ plan_moved from by }
{
    from.wrapping_add(i64::from(by).cast_unsigned())
}

/// Where a conditional jump is taken (SDM volume 2, "Jcc").
fn is_taken(cond: Cond, regs: &Regs) -> bool
    ensures { result ≡ is_met cond regs.now }
{
    match cond {
        Cond::Below => regs.cf,
        Cond::NotBelow => !regs.cf,
        Cond::Equal => regs.zf,
        Cond::NotEqual => !regs.zf,
        Cond::Less => regs.sf != regs.of,
        Cond::NotLess => regs.sf == regs.of,
        Cond::NotGreater => regs.zf || regs.sf != regs.of,
        Cond::Greater => !regs.zf && regs.sf == regs.of,
    }
}

/// Divides RDX:RAX by the register `rm` (SDM volume 2, "DIV").
fn divide(regs: &mut Regs, rm: u8, next: u64) -> Turn
    requires { rm < 16 }
    ensures turn { Performs (plan (Divide rm) (record regs.old { rip = next })) result regs.old regs.new }
    ensures vector { IsVector result }
    ensures mode { regs.new.mode ≡ regs.old.mode }
{
    let dividend = ((regs.gpr[RDX] as u128) << 64) + regs.gpr[RAX] as u128;
    let divisor = regs.gpr[rm as usize] as u128;
    if divisor == 0 {
        return Turn::Trapped(DIVIDE_ERROR);
    }
    let Ok(quotient) = u64::try_from(dividend / divisor) else {
        return Turn::Trapped(DIVIDE_ERROR);
    };
    regs.gpr[RAX] = quotient;
    regs.gpr[RDX] = (dividend % divisor) as u64;
    regs.rip = next;
    Turn::Done
}

/// Leaves the enclave by a call, where EAX names EEXIT.
fn leave(regs: &mut Regs, next: u64) -> Turn
    ensures turn { Performs (plan Enclu (record regs.old { rip = next })) result regs.old regs.new }
    ensures vector { IsVector result }
    ensures mode { regs.new.mode ≡ regs.old.mode }
{
    if regs.gpr[RAX] % (1 << 32) != EEXIT {
        return Turn::Trapped(GENERAL_PROTECTION);
    }
    regs.rip = next;
    regs.gpr[RCX] = next;
    Turn::Called(regs.gpr[RDI], regs.gpr[RSI])
}

/// Does an instruction that always completes and goes on after itself, but for RIP.
fn go_on(regs: &mut Regs, instr: Instr)
    requires plain { GoesOn instr }
    requires registers { HasRegisters instr }
    ensures plan { plan instr regs.old ≡ Computes regs.new }
    ensures mode { regs.new.mode ≡ regs.old.mode }
{
    match instr {
        Instr::MovImm { reg, imm } => regs.gpr[reg as usize] = imm,
        Instr::MovTo { rm, reg } => regs.gpr[rm as usize] = regs.gpr[reg as usize],
        Instr::MovFrom { reg, rm } => regs.gpr[reg as usize] = regs.gpr[rm as usize],
        Instr::Add { rm, reg } => alu::add(regs, rm, reg),
        Instr::Sub { rm, reg } => alu::sub(regs, rm, reg),
        Instr::And { rm, reg } => alu::and(regs, rm, reg),
        Instr::Or { rm, reg } => alu::or(regs, rm, reg),
        Instr::Xor { rm, reg } => alu::xor(regs, rm, reg),
        Instr::Compare { rm, reg } => alu::compare(regs, rm, reg),
        Instr::Test { rm, reg } => alu::test(regs, rm, reg),
        Instr::Multiply { reg, rm } => alu::multiply(regs, reg, rm),
        Instr::ShiftLeft { rm, by } => alu::shift_left(regs, rm, by),
        Instr::ShiftRight { rm, by } => alu::shift_right(regs, rm, by),
        Instr::Nop => {}
        // The others trap, jump or ask memory.
        _ => unreachable!(),
    }
}

/// Does an instruction that asks nothing of memory, whose next address is `next`.
pub(crate) fn compute(regs: &mut Regs, instr: Instr, next: u64) -> Turn
    requires plain { AsksNoMemory instr }
    requires registers { HasRegisters instr }
    ensures turn { Performs (plan instr (record regs.old { rip = next })) result regs.old regs.new }
    ensures vector { IsVector result }
    ensures mode { regs.new.mode ≡ regs.old.mode }
{
    match instr {
        Instr::Undefined => Turn::Trapped(INVALID_OPCODE),
        Instr::Enclu => leave(regs, next),
        Instr::Divide { rm } => divide(regs, rm, next),
        Instr::Jump { rel } => {
            regs.rip = moved(next, rel);
            Turn::Done
        }
        Instr::JumpIf { cond, rel } => {
            regs.rip = if is_taken(cond, regs) {
                moved(next, rel)
            } else {
                next
            };
            Turn::Done
        }
        _ => {
            regs.rip = next;
            go_on(regs, instr);
            Turn::Done
        }
    }
}
