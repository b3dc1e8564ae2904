//! Encoding instructions as 32-bit machine words.

ghost use Rattle.std.specs.Prelude.{◌≡◌, ◌<◌, ◌+◌, ◌*◌, ◌%◌};
ghost use Rattle.mips_isa.specs.Words.{word_of, InRange, fields, special, half_of, three_number, shift_number, shift_reg_number, from_number, to_number, mul_div_number, imm_number, two_number, one_number, one_rt, jump_number, mem_number};

use crate::{
    FromOp, ImmOp, Instr, JumpOp, MemOp, MulDivOp, OneOp, Reg, ShiftOp, ShiftRegOp, ThreeOp, ToOp,
    TwoOp,
};

/// The word of an instruction whose numbers are in range, by the R2000's table of integer instructions (MIPS I).
pub fn encode(i: Instr) -> u32
    requires { InRange i }
    ensures word { result ≡ word_of i }
{
    let zero = Reg::new(0);
    match i {
        Instr::Three { op, rd, rs, rt } => op_zero(rs, rt, rd, 0, three_function(op)),
        Instr::Shift { op, rd, rt, sh } => op_zero(zero, rt, rd, sh, shift_function(op)),
        Instr::ShiftReg { op, rd, rt, rs } => op_zero(rs, rt, rd, 0, shift_reg_function(op)),
        Instr::Jr { rs } => op_zero(rs, zero, zero, 0, 8),
        Instr::Jalr { rd, rs } => op_zero(rs, zero, rd, 0, 9),
        Instr::Syscall => 12,
        Instr::MoveFrom { op, rd } => op_zero(zero, zero, rd, 0, from_function(op)),
        Instr::MoveTo { op, rs } => op_zero(rs, zero, zero, 0, to_function(op)),
        Instr::MulDiv { op, rs, rt } => op_zero(rs, rt, zero, 0, mul_div_function(op)),
        Instr::Imm { op, rt, rs, imm } => with_low(imm_code(op), rs, rt, low_half(imm)),
        Instr::Lui { rt, imm } => with_low(15, zero, rt, low_half(imm)),
        Instr::BranchTwo { op, rs, rt, imm } => with_low(two_code(op), rs, rt, low_half(imm)),
        Instr::BranchOne { op, rs, imm } => with_low(
            one_code(op),
            rs,
            one_register(op),
            low_half(imm),
        ),
        Instr::Jump { op, index } => jump_code(op) << 26 | index,
        Instr::Mem { op, rt, rs, imm } => with_low(mem_code(op), rs, rt, low_half(imm)),
    }
}

/// A word with op 0.
fn op_zero(rs: Reg, rt: Reg, rd: Reg, sh: u32, function: u32) -> u32
    requires shift { sh < 32 }
    requires small { function < 64 }
    ensures { result ≡ special rs rt rd sh function }
{
    with_low(0, rs, rt, rd.number() << 11 | sh << 6 | function)
}

/// A word whose last field has 16 bits.
fn with_low(op: u32, rs: Reg, rt: Reg, low: u32) -> u32
    requires code { op < 64 }
    requires half { low < 65536 }
    ensures { result ≡ fields op rs rt low }
{
    op << 26 | rs.number() << 21 | rt.number() << 16 | low
}

/// The lower 16 bits of an immediate.
fn low_half(imm: i32) -> u32
    ensures half { result ≡ half_of imm }
    ensures small { result < 65536 }
{
    imm.cast_unsigned() & 0xffff
}

fn three_function(op: ThreeOp) -> u32
    ensures number { result ≡ three_number op }
    ensures small { result < 64 }
{
    match op {
        ThreeOp::Add => 32,
        ThreeOp::Addu => 33,
        ThreeOp::Sub => 34,
        ThreeOp::Subu => 35,
        ThreeOp::And => 36,
        ThreeOp::Or => 37,
        ThreeOp::Xor => 38,
        ThreeOp::Nor => 39,
        ThreeOp::Slt => 42,
        ThreeOp::Sltu => 43,
    }
}

fn shift_function(op: ShiftOp) -> u32
    ensures number { result ≡ shift_number op }
    ensures small { result < 64 }
{
    match op {
        ShiftOp::Sll => 0,
        ShiftOp::Srl => 2,
        ShiftOp::Sra => 3,
    }
}

fn shift_reg_function(op: ShiftRegOp) -> u32
    ensures number { result ≡ shift_reg_number op }
    ensures small { result < 64 }
{
    match op {
        ShiftRegOp::Sllv => 4,
        ShiftRegOp::Srlv => 6,
        ShiftRegOp::Srav => 7,
    }
}

fn from_function(op: FromOp) -> u32
    ensures number { result ≡ from_number op }
    ensures small { result < 64 }
{
    match op {
        FromOp::Mfhi => 16,
        FromOp::Mflo => 18,
    }
}

fn to_function(op: ToOp) -> u32
    ensures number { result ≡ to_number op }
    ensures small { result < 64 }
{
    match op {
        ToOp::Mthi => 17,
        ToOp::Mtlo => 19,
    }
}

fn mul_div_function(op: MulDivOp) -> u32
    ensures number { result ≡ mul_div_number op }
    ensures small { result < 64 }
{
    match op {
        MulDivOp::Mult => 24,
        MulDivOp::Multu => 25,
        MulDivOp::Div => 26,
        MulDivOp::Divu => 27,
    }
}

fn imm_code(op: ImmOp) -> u32
    ensures number { result ≡ imm_number op }
    ensures small { result < 64 }
{
    match op {
        ImmOp::Addi => 8,
        ImmOp::Addiu => 9,
        ImmOp::Slti => 10,
        ImmOp::Sltiu => 11,
        ImmOp::Andi => 12,
        ImmOp::Ori => 13,
        ImmOp::Xori => 14,
    }
}

fn two_code(op: TwoOp) -> u32
    ensures number { result ≡ two_number op }
    ensures small { result < 64 }
{
    match op {
        TwoOp::Beq => 4,
        TwoOp::Bne => 5,
    }
}

fn one_code(op: OneOp) -> u32
    ensures number { result ≡ one_number op }
    ensures small { result < 64 }
{
    match op {
        OneOp::Blez => 6,
        OneOp::Bgtz => 7,
        OneOp::Bltz | OneOp::Bgez => 1,
    }
}

/// The field rt of a branch on one register.
fn one_register(op: OneOp) -> Reg
    ensures { result ≡ one_rt op }
{
    match op {
        OneOp::Bgez => Reg::new(1),
        OneOp::Blez | OneOp::Bgtz | OneOp::Bltz => Reg::new(0),
    }
}

fn jump_code(op: JumpOp) -> u32
    ensures number { result ≡ jump_number op }
    ensures small { result < 64 }
{
    match op {
        JumpOp::J => 2,
        JumpOp::Jal => 3,
    }
}

fn mem_code(op: MemOp) -> u32
    ensures number { result ≡ mem_number op }
    ensures small { result < 64 }
{
    match op {
        MemOp::Lb => 32,
        MemOp::Lh => 33,
        MemOp::Lw => 35,
        MemOp::Lbu => 36,
        MemOp::Lhu => 37,
        MemOp::Sb => 40,
        MemOp::Sh => 41,
        MemOp::Sw => 43,
    }
}
