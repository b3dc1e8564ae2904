//! The decoded instructions that the processor executes: one operation for each machine word of the text segment.

ghost use Rattle.std.specs.Prelude.{◌≡◌, ◌<◌, Some, IfSome};
ghost use Rattle.mips_isa.specs.declared.instr.Instr.TheVariants as instr;
ghost use Rattle.mips_isa.specs.Words.{InRange, IsSigned, IsUnsigned, IsImmediate};
ghost use Rattle.mips_isa.specs.Decoding.{decoded};
ghost use Rattle.spim_memory.specs.Operations.{instr_of};

use mips_isa::{
    FromOp, ImmOp, Instr, JumpOp, MemOp, MulDivOp, OneOp, Reg, ShiftOp, ShiftRegOp, ThreeOp, ToOp,
    TwoOp, decode,
};

/// An operation takes 8 bytes.
const _: () = prove!(size_of::<Operation>() == 8);

/// An instruction, or none, as it is executed: one variant for each operation. Registers are numbers below 32.
#[derive(Clone, Copy)]
pub enum Operation {
    Unknown,
    Add { rd: u8, rs: u8, rt: u8 },
    Addu { rd: u8, rs: u8, rt: u8 },
    Sub { rd: u8, rs: u8, rt: u8 },
    Subu { rd: u8, rs: u8, rt: u8 },
    And { rd: u8, rs: u8, rt: u8 },
    Or { rd: u8, rs: u8, rt: u8 },
    Xor { rd: u8, rs: u8, rt: u8 },
    Nor { rd: u8, rs: u8, rt: u8 },
    Slt { rd: u8, rs: u8, rt: u8 },
    Sltu { rd: u8, rs: u8, rt: u8 },
    Sll { rd: u8, rt: u8, sh: u8 },
    Srl { rd: u8, rt: u8, sh: u8 },
    Sra { rd: u8, rt: u8, sh: u8 },
    Sllv { rd: u8, rt: u8, rs: u8 },
    Srlv { rd: u8, rt: u8, rs: u8 },
    Srav { rd: u8, rt: u8, rs: u8 },
    Jr { rs: u8 },
    Jalr { rd: u8, rs: u8 },
    Syscall,
    Mfhi { rd: u8 },
    Mflo { rd: u8 },
    Mthi { rs: u8 },
    Mtlo { rs: u8 },
    Mult { rs: u8, rt: u8 },
    Multu { rs: u8, rt: u8 },
    Div { rs: u8, rt: u8 },
    Divu { rs: u8, rt: u8 },
    Addi { rt: u8, rs: u8, imm: i16 },
    Addiu { rt: u8, rs: u8, imm: i16 },
    Slti { rt: u8, rs: u8, imm: i16 },
    Sltiu { rt: u8, rs: u8, imm: i16 },
    Andi { rt: u8, rs: u8, imm: u16 },
    Ori { rt: u8, rs: u8, imm: u16 },
    Xori { rt: u8, rs: u8, imm: u16 },
    Lui { rt: u8, imm: u16 },
    Beq { rs: u8, rt: u8, imm: i16 },
    Bne { rs: u8, rt: u8, imm: i16 },
    Blez { rs: u8, imm: i16 },
    Bgtz { rs: u8, imm: i16 },
    Bltz { rs: u8, imm: i16 },
    Bgez { rs: u8, imm: i16 },
    J { index: u32 },
    Jal { index: u32 },
    Lb { rt: u8, rs: u8, imm: i16 },
    Lh { rt: u8, rs: u8, imm: i16 },
    Lw { rt: u8, rs: u8, imm: i16 },
    Lbu { rt: u8, rs: u8, imm: i16 },
    Lhu { rt: u8, rs: u8, imm: i16 },
    Sb { rt: u8, rs: u8, imm: i16 },
    Sh { rt: u8, rs: u8, imm: i16 },
    Sw { rt: u8, rs: u8, imm: i16 },
}

/// The operation of a word.
pub(crate) fn operation_of(word: u32) -> Operation
    ensures value { instr_of result ≡ decoded word }
    ensures range { IfSome (instr_of result) InRange }
{
    match decode(word) {
        None => Operation::Unknown,
        Some(instr) => of_instr(instr),
    }
}

fn of_instr(instr: Instr) -> Operation
    requires { InRange instr }
    ensures { instr_of result ≡ Some instr }
{
    match instr {
        Instr::Three { op, rd, rs, rt } => of_three(op, number(rd), number(rs), number(rt)),
        Instr::Shift { op, rd, rt, sh } => of_shift(op, number(rd), number(rt), sh as u8),
        Instr::ShiftReg { op, rd, rt, rs } => of_shift_reg(op, number(rd), number(rt), number(rs)),
        Instr::Jr { rs } => Operation::Jr { rs: number(rs) },
        Instr::Jalr { rd, rs } => Operation::Jalr {
            rd: number(rd),
            rs: number(rs),
        },
        Instr::Syscall => Operation::Syscall,
        Instr::MoveFrom { op, rd } => of_move_from(op, number(rd)),
        Instr::MoveTo { op, rs } => of_move_to(op, number(rs)),
        Instr::MulDiv { op, rs, rt } => of_mul_div(op, number(rs), number(rt)),
        Instr::Imm { op, rt, rs, imm } => of_imm(op, number(rt), number(rs), imm),
        Instr::Lui { rt, imm } => Operation::Lui {
            rt: number(rt),
            imm: imm as u16,
        },
        Instr::BranchTwo { op, rs, rt, imm } => of_branch_two(
            op,
            number(rs),
            number(rt),
            imm as i16,
        ),
        Instr::BranchOne { op, rs, imm } => of_branch_one(op, number(rs), imm as i16),
        Instr::Jump { op, index } => of_jump(op, index),
        Instr::Mem { op, rt, rs, imm } => of_mem(op, number(rt), number(rs), imm as i16),
    }
}

fn number(r: Reg) -> u8
    ensures { result ≡ r }
{
    r.number() as u8
}

fn of_three(op: ThreeOp, rd: u8, rs: u8, rt: u8) -> Operation
    ensures { instr_of result ≡ Some (instr.Three op rd rs rt) }
{
    match op {
        ThreeOp::Add => Operation::Add { rd, rs, rt },
        ThreeOp::Addu => Operation::Addu { rd, rs, rt },
        ThreeOp::Sub => Operation::Sub { rd, rs, rt },
        ThreeOp::Subu => Operation::Subu { rd, rs, rt },
        ThreeOp::And => Operation::And { rd, rs, rt },
        ThreeOp::Or => Operation::Or { rd, rs, rt },
        ThreeOp::Xor => Operation::Xor { rd, rs, rt },
        ThreeOp::Nor => Operation::Nor { rd, rs, rt },
        ThreeOp::Slt => Operation::Slt { rd, rs, rt },
        ThreeOp::Sltu => Operation::Sltu { rd, rs, rt },
    }
}

fn of_shift(op: ShiftOp, rd: u8, rt: u8, sh: u8) -> Operation
    ensures { instr_of result ≡ Some (instr.Shift op rd rt sh) }
{
    match op {
        ShiftOp::Sll => Operation::Sll { rd, rt, sh },
        ShiftOp::Srl => Operation::Srl { rd, rt, sh },
        ShiftOp::Sra => Operation::Sra { rd, rt, sh },
    }
}

fn of_shift_reg(op: ShiftRegOp, rd: u8, rt: u8, rs: u8) -> Operation
    ensures { instr_of result ≡ Some (instr.ShiftReg op rd rt rs) }
{
    match op {
        ShiftRegOp::Sllv => Operation::Sllv { rd, rt, rs },
        ShiftRegOp::Srlv => Operation::Srlv { rd, rt, rs },
        ShiftRegOp::Srav => Operation::Srav { rd, rt, rs },
    }
}

fn of_move_from(op: FromOp, rd: u8) -> Operation
    ensures { instr_of result ≡ Some (instr.MoveFrom op rd) }
{
    match op {
        FromOp::Mfhi => Operation::Mfhi { rd },
        FromOp::Mflo => Operation::Mflo { rd },
    }
}

fn of_move_to(op: ToOp, rs: u8) -> Operation
    ensures { instr_of result ≡ Some (instr.MoveTo op rs) }
{
    match op {
        ToOp::Mthi => Operation::Mthi { rs },
        ToOp::Mtlo => Operation::Mtlo { rs },
    }
}

fn of_mul_div(op: MulDivOp, rs: u8, rt: u8) -> Operation
    ensures { instr_of result ≡ Some (instr.MulDiv op rs rt) }
{
    match op {
        MulDivOp::Mult => Operation::Mult { rs, rt },
        MulDivOp::Multu => Operation::Multu { rs, rt },
        MulDivOp::Div => Operation::Div { rs, rt },
        MulDivOp::Divu => Operation::Divu { rs, rt },
    }
}

fn of_imm(op: ImmOp, rt: u8, rs: u8, imm: i32) -> Operation
    requires { IsImmediate op imm }
    ensures { instr_of result ≡ Some (instr.Imm op rt rs imm) }
{
    match op {
        ImmOp::Addi => Operation::Addi {
            rt,
            rs,
            imm: imm as i16,
        },
        ImmOp::Addiu => Operation::Addiu {
            rt,
            rs,
            imm: imm as i16,
        },
        ImmOp::Slti => Operation::Slti {
            rt,
            rs,
            imm: imm as i16,
        },
        ImmOp::Sltiu => Operation::Sltiu {
            rt,
            rs,
            imm: imm as i16,
        },
        ImmOp::Andi => Operation::Andi {
            rt,
            rs,
            imm: imm as u16,
        },
        ImmOp::Ori => Operation::Ori {
            rt,
            rs,
            imm: imm as u16,
        },
        ImmOp::Xori => Operation::Xori {
            rt,
            rs,
            imm: imm as u16,
        },
    }
}

fn of_branch_two(op: TwoOp, rs: u8, rt: u8, imm: i16) -> Operation
    ensures { instr_of result ≡ Some (instr.BranchTwo op rs rt imm) }
{
    match op {
        TwoOp::Beq => Operation::Beq { rs, rt, imm },
        TwoOp::Bne => Operation::Bne { rs, rt, imm },
    }
}

fn of_branch_one(op: OneOp, rs: u8, imm: i16) -> Operation
    ensures { instr_of result ≡ Some (instr.BranchOne op rs imm) }
{
    match op {
        OneOp::Blez => Operation::Blez { rs, imm },
        OneOp::Bgtz => Operation::Bgtz { rs, imm },
        OneOp::Bltz => Operation::Bltz { rs, imm },
        OneOp::Bgez => Operation::Bgez { rs, imm },
    }
}

fn of_jump(op: JumpOp, index: u32) -> Operation
    ensures { instr_of result ≡ Some (instr.Jump op index) }
{
    match op {
        JumpOp::J => Operation::J { index },
        JumpOp::Jal => Operation::Jal { index },
    }
}

fn of_mem(op: MemOp, rt: u8, rs: u8, imm: i16) -> Operation
    ensures { instr_of result ≡ Some (instr.Mem op rt rs imm) }
{
    match op {
        MemOp::Lb => Operation::Lb { rt, rs, imm },
        MemOp::Lh => Operation::Lh { rt, rs, imm },
        MemOp::Lw => Operation::Lw { rt, rs, imm },
        MemOp::Lbu => Operation::Lbu { rt, rs, imm },
        MemOp::Lhu => Operation::Lhu { rt, rs, imm },
        MemOp::Sb => Operation::Sb { rt, rs, imm },
        MemOp::Sh => Operation::Sh { rt, rs, imm },
        MemOp::Sw => Operation::Sw { rt, rs, imm },
    }
}
