// Arithmetic on registers.
ghost use Rattle.std.specs.Prelude.{◌≡◌, ◌<◌, ◌*◌, ◌%◌, ◌^◌, bit_and, bit_or, bit_xor, not};
ghost use Rattle.ak_model.specs.Flat.Instructions.{reg_of, with_reg, with_flags, add_flags, sub_flags, logic_flags, multiply_flags, shifted_left, shifted_right, plus, minus, product_fits, top_bit};

use ak_core::Regs;

const SIGN: u64 = 1 << 63;

/// The sign of a number.
fn is_negative(value: u64) -> bool
    ensures { result ≡ top_bit value }
{
    value >= SIGN
}

/// Sets zero and sign by a result, and these carry and overflow.
fn set_flags(regs: &mut Regs, value: u64, carry: bool, overflow: bool)
    ensures { regs.new ≡ with_flags regs.old value carry overflow }
{
    regs.cf = carry;
    regs.zf = value == 0;
    regs.sf = is_negative(value);
    regs.of = overflow;
}

/// Adds the register `reg` to the register `rm` (SDM volume 2, "ADD").
pub(crate) fn add(regs: &mut Regs, rm: u8, reg: u8)
    requires rm { rm < 16 }
    requires reg { reg < 16 }
    ensures { let x = reg_of regs.old rm in let y = reg_of regs.old reg in
        regs.new ≡ with_reg (add_flags regs.old x y) rm (plus x y) }
{
    let a = regs.gpr[rm as usize];
    let b = regs.gpr[reg as usize];
    let (sum, carry) = a.overflowing_add(b);
    let overflow = is_negative(a) == is_negative(b) && is_negative(a) != is_negative(sum);
    set_flags(regs, sum, carry, overflow);
    regs.gpr[rm as usize] = sum;
}

/// The difference of two numbers, whose flags are set.
fn difference(regs: &mut Regs, a: u64, b: u64) -> u64
    ensures value { result ≡ minus a b }
    ensures flags { regs.new ≡ sub_flags regs.old a b }
{
    let (difference, borrow) = a.overflowing_sub(b);
    let overflow = is_negative(a) != is_negative(b) && is_negative(a) != is_negative(difference);
    set_flags(regs, difference, borrow, overflow);
    difference
}

/// Subtracts the register `reg` from the register `rm` (SDM volume 2, "SUB").
pub(crate) fn sub(regs: &mut Regs, rm: u8, reg: u8)
    requires rm { rm < 16 }
    requires reg { reg < 16 }
    ensures { let x = reg_of regs.old rm in let y = reg_of regs.old reg in
        regs.new ≡ with_reg (sub_flags regs.old x y) rm (minus x y) }
{
    let difference = difference(regs, regs.gpr[rm as usize], regs.gpr[reg as usize]);
    regs.gpr[rm as usize] = difference;
}

/// Sets the flags of a subtraction of the register `reg` from the register `rm` (SDM volume 2, "CMP").
pub(crate) fn compare(regs: &mut Regs, rm: u8, reg: u8)
    requires rm { rm < 16 }
    requires reg { reg < 16 }
    ensures { regs.new ≡ sub_flags regs.old (reg_of regs.old rm) (reg_of regs.old reg) }
{
    let _difference = difference(regs, regs.gpr[rm as usize], regs.gpr[reg as usize]);
}

/// Puts the result of AND, OR or XOR into the register `rm`, and sets its flags.
fn set_logic(regs: &mut Regs, rm: u8, value: u64)
    requires { rm < 16 }
    ensures { regs.new ≡ with_reg (logic_flags regs.old value) rm value }
{
    set_flags(regs, value, false, false);
    regs.gpr[rm as usize] = value;
}

/// The register `rm` becomes `rm` AND `reg` (SDM volume 2, "AND").
pub(crate) fn and(regs: &mut Regs, rm: u8, reg: u8)
    requires rm { rm < 16 }
    requires reg { reg < 16 }
    ensures { let v = bit_and (reg_of regs.old rm) (reg_of regs.old reg) in
        regs.new ≡ with_reg (logic_flags regs.old v) rm v }
{
    set_logic(regs, rm, regs.gpr[rm as usize] & regs.gpr[reg as usize]);
}

/// The register `rm` becomes `rm` OR `reg` (SDM volume 2, "OR").
pub(crate) fn or(regs: &mut Regs, rm: u8, reg: u8)
    requires rm { rm < 16 }
    requires reg { reg < 16 }
    ensures { let v = bit_or (reg_of regs.old rm) (reg_of regs.old reg) in
        regs.new ≡ with_reg (logic_flags regs.old v) rm v }
{
    set_logic(regs, rm, regs.gpr[rm as usize] | regs.gpr[reg as usize]);
}

/// The register `rm` becomes `rm` XOR `reg` (SDM volume 2, "XOR").
pub(crate) fn xor(regs: &mut Regs, rm: u8, reg: u8)
    requires rm { rm < 16 }
    requires reg { reg < 16 }
    ensures { let v = bit_xor (reg_of regs.old rm) (reg_of regs.old reg) in
        regs.new ≡ with_reg (logic_flags regs.old v) rm v }
{
    set_logic(regs, rm, regs.gpr[rm as usize] ^ regs.gpr[reg as usize]);
}

/// Sets the flags of `rm` AND `reg` (SDM volume 2, "TEST").
pub(crate) fn test(regs: &mut Regs, rm: u8, reg: u8)
    requires rm { rm < 16 }
    requires reg { reg < 16 }
    ensures { regs.new ≡ logic_flags regs.old (bit_and (reg_of regs.old rm) (reg_of regs.old reg)) }
{
    let both = regs.gpr[rm as usize] & regs.gpr[reg as usize];
    set_flags(regs, both, false, false);
}

/// The low 64 bits of a signed product, and whether it fits no 64 bits.
fn product(a: u64, b: u64) -> (u64, bool)
    ensures value { result.0 ≡ a * b % 2 ^ 64 }
    ensures overflow { result.1 ≡ not (product_fits a b) }
{
    let (product, overflow) = a.cast_signed().overflowing_mul(b.cast_signed());
    (product.cast_unsigned(), overflow)
}

/// Multiplies the register `reg` by the register `rm`, both signed (SDM volume 2, "IMUL"). The zero flag stays.
pub(crate) fn multiply(regs: &mut Regs, reg: u8, rm: u8)
    requires reg { reg < 16 }
    requires rm { rm < 16 }
    ensures { let x = reg_of regs.old reg in let y = reg_of regs.old rm in
        regs.new ≡ with_reg (multiply_flags regs.old x y) reg (x * y % 2 ^ 64) }
{
    let (product, overflow) = product(regs.gpr[reg as usize], regs.gpr[rm as usize]);
    regs.cf = overflow;
    regs.of = overflow;
    regs.sf = is_negative(product);
    regs.gpr[reg as usize] = product;
}

/// Shifts the register `rm` to the left (SDM volume 2, "SHL"). A shift by 0 changes nothing, and one by more than 1 keeps
/// the overflow flag.
pub(crate) fn shift_left(regs: &mut Regs, rm: u8, by: u8)
    requires { rm < 16 }
    ensures { regs.new ≡ shifted_left regs.old rm (by % 64) }
{
    let by = by % 64;
    if by == 0 {
        return;
    }
    let value = regs.gpr[rm as usize];
    let result = value << by;
    let carry = (value >> (64 - by)) % 2 == 1;
    let overflow = if by == 1 {
        is_negative(result) != carry
    } else {
        regs.of
    };
    set_flags(regs, result, carry, overflow);
    regs.gpr[rm as usize] = result;
}

/// Shifts the register `rm` to the right, zeros coming in (SDM volume 2, "SHR"). A shift by 0 changes nothing, and one by
/// more than 1 keeps the overflow flag.
pub(crate) fn shift_right(regs: &mut Regs, rm: u8, by: u8)
    requires { rm < 16 }
    ensures { regs.new ≡ shifted_right regs.old rm (by % 64) }
{
    let by = by % 64;
    if by == 0 {
        return;
    }
    let value = regs.gpr[rm as usize];
    let result = value >> by;
    let carry = (value >> (by - 1)) % 2 == 1;
    let overflow = if by == 1 { is_negative(value) } else { regs.of };
    set_flags(regs, result, carry, overflow);
    regs.gpr[rm as usize] = result;
}
