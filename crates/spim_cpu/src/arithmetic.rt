//! The results of the arithmetic and logic instructions on 32-bit numbers.

ghost use Rattle.std.specs.Prelude.{◌≡◌, ◌<◌, ◌+◌, ◌*◌, ◌/◌, ◌%◌, ◌^◌};
ghost use Rattle.mips_isa.specs.Words.{bits_of};
ghost use Rattle.mips_isa.specs.Machine as machine;

use mips_isa::{DATA_START, ImmOp, OneOp, ShiftOp, ThreeOp, TwoOp};

/// The contents of HI and LO after a product or a quotient.
#[derive(Clone, Copy)]
pub struct HiLo {
    pub hi: u32,
    pub lo: u32,
}

/// The result of an operation on two registers; none if a signed sum or difference overflows.
pub fn three_result(op: ThreeOp, a: u32, b: u32) -> Option<u32>
    ensures { result ≡ machine.three_result op a b }
{
    match op {
        ThreeOp::Add => signed_sum(a, b),
        ThreeOp::Addu => Some(a.wrapping_add(b)),
        ThreeOp::Sub => signed_difference(a, b),
        ThreeOp::Subu => Some(a.wrapping_sub(b)),
        ThreeOp::And => Some(a & b),
        ThreeOp::Or => Some(a | b),
        ThreeOp::Xor => Some(a ^ b),
        ThreeOp::Nor => Some(!(a | b)),
        ThreeOp::Slt => Some(u32::from(a.cast_signed() < b.cast_signed())),
        ThreeOp::Sltu => Some(u32::from(a < b)),
    }
}

/// The result of an operation on a register and an immediate of 32 bits; none if a signed sum overflows.
pub fn imm_result(op: ImmOp, a: u32, b: u32) -> Option<u32>
    ensures { result ≡ machine.imm_result op a b }
{
    match op {
        ImmOp::Addi => signed_sum(a, b),
        ImmOp::Addiu => Some(a.wrapping_add(b)),
        ImmOp::Slti => Some(u32::from(a.cast_signed() < b.cast_signed())),
        ImmOp::Sltiu => Some(u32::from(a < b)),
        ImmOp::Andi => Some(a & b),
        ImmOp::Ori => Some(a | b),
        ImmOp::Xori => Some(a ^ b),
    }
}

/// The sum of two signed numbers, if it has 32 bits.
fn signed_sum(a: u32, b: u32) -> Option<u32>
    ensures { result ≡ machine.signed_sum a b }
{
    let sum = a.cast_signed().checked_add(b.cast_signed())?;
    Some(sum.cast_unsigned())
}

/// The difference of two signed numbers, if it has 32 bits.
fn signed_difference(a: u32, b: u32) -> Option<u32>
    ensures { result ≡ machine.signed_difference a b }
{
    let difference = a.cast_signed().checked_sub(b.cast_signed())?;
    Some(difference.cast_unsigned())
}

/// A shift by a number below 32.
pub fn shift_result(op: ShiftOp, a: u32, by: u32) -> u32
    requires { by < 32 }
    ensures { result ≡ machine.shift_result op a by }
{
    match op {
        ShiftOp::Sll => a << by,
        ShiftOp::Srl => a >> by,
        ShiftOp::Sra => (a.cast_signed() >> by).cast_unsigned(),
    }
}

/// Whether a branch on two registers is taken.
pub fn two_result(op: TwoOp, a: u32, b: u32) -> bool
    ensures { result ≡ machine.two_result op a b }
{
    match op {
        TwoOp::Beq => a == b,
        TwoOp::Bne => a != b,
    }
}

/// Whether a branch on one register is taken.
pub fn one_result(op: OneOp, a: u32) -> bool
    ensures { result ≡ machine.one_result op a }
{
    let a = a.cast_signed();
    match op {
        OneOp::Blez => a <= 0,
        OneOp::Bgtz => a > 0,
        OneOp::Bltz => a < 0,
        OneOp::Bgez => a >= 0,
    }
}

/// A byte, extended by its sign to 32 bits.
pub fn signed_byte(n: u8) -> u32
    ensures { result ≡ machine.signed_byte n }
{
    i32::from(n.cast_signed()).cast_unsigned()
}

/// A half word, extended by its sign to 32 bits.
pub fn signed_half(n: u16) -> u32
    ensures { result ≡ machine.signed_half n }
{
    i32::from(n.cast_signed()).cast_unsigned()
}

/// A word, extended by its sign to 64 bits.
fn long(a: u32) -> u64
    ensures { result ≡ machine.long a }
{
    i64::from(a.cast_signed()).cast_unsigned()
}

/// The two words of a product.
fn halves(product: u64) -> HiLo
    ensures hi { result.hi ≡ product / 2 ^ 32 }
    ensures lo { result.lo ≡ machine.wrap product }
{
    HiLo {
        hi: (product >> 32) as u32,
        lo: (product & 0xffff_ffff) as u32,
    }
}

/// The product of two signed numbers.
pub fn signed_product(a: u32, b: u32) -> HiLo
    ensures hi { result.hi ≡ machine.long a * machine.long b % 2 ^ 64 / 2 ^ 32 }
    ensures lo { result.lo ≡ machine.wrap (machine.long a * machine.long b) }
{
    halves(long(a).wrapping_mul(long(b)))
}

/// The product of two unsigned numbers.
pub fn product(a: u32, b: u32) -> HiLo
    ensures hi { result.hi ≡ a * b / 2 ^ 32 }
    ensures lo { result.lo ≡ machine.wrap (a * b) }
{
    halves(u64::from(a) * u64::from(b))
}

/// The remainder (HI) and the quotient (LO) of two signed numbers, truncated toward 0.
pub fn signed_division(a: u32, b: u32) -> HiLo
    requires { 0 < b }
    ensures hi { result.hi ≡ machine.signed_remainder a b }
    ensures lo { result.lo ≡ machine.signed_quotient a b }
{
    let (a, b) = (a.cast_signed(), b.cast_signed());
    HiLo {
        hi: a.wrapping_rem(b).cast_unsigned(),
        lo: a.wrapping_div(b).cast_unsigned(),
    }
}

/// The remainder (HI) and the quotient (LO) of two unsigned numbers.
pub fn division(a: u32, b: u32) -> HiLo
    requires { 0 < b }
    ensures hi { result.hi ≡ a % b }
    ensures lo { result.lo ≡ a / b }
{
    HiLo {
        hi: a % b,
        lo: a / b,
    }
}

/// The address to which a taken branch at `pc` goes: `imm` instructions after the next one.
pub fn branch_target(pc: u32, imm: i32) -> u32
    ensures { result ≡ machine.wrap (pc + 4 + 4 * bits_of imm) }
{
    pc.wrapping_add(4)
        .wrapping_add(imm.cast_unsigned().wrapping_mul(4))
}

/// The address to which a jump at `pc` goes: it keeps the upper four bits of the next instruction's address.
pub fn jump_target(pc: u32, index: u32) -> u32
    requires index { index < 2 ^ 26 }
    requires pc { pc < DATA_START }
    ensures { result ≡ machine.jump_target pc index }
{
    (pc + 4) & 0xf000_0000 | index << 2
}

/// The address of an access: `imm` bytes after the base.
pub fn place_of_access(base: u32, imm: i32) -> u32
    ensures { result ≡ machine.wrap (base + bits_of imm) }
{
    base.wrapping_add(imm.cast_unsigned())
}
