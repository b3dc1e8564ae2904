//! Expanding each instruction or pseudoinstruction of assembly into one or two machine instructions.

ghost use Rattle.std.specs.Prelude.{◌≡◌, ◌≤◌, ◌/◌, [], ◌∷◌};
ghost use Rattle.mips_isa.specs.declared.instr.Instr.TheVariants as instr;
ghost use Rattle.mips_isa.specs.declared.instr.ShiftOp.TheVariants.{Sll};
ghost use Rattle.mips_isa.specs.declared.instr.MulDivOp.TheVariants.{Mult};
ghost use Rattle.mips_isa.specs.declared.instr.FromOp.TheVariants.{Mflo};
ghost use Rattle.mips_isa.specs.Words.{bits_of};
ghost use Rattle.mips_isa.specs.Lines.{instruction_of, IsInstructionInRange, IsWord};
ghost use Rattle.mips_isa.specs.Assembly.{expansion, load_address, zero_branch, order_branch};
ghost use Rattle.mips_asm.specs.Parts.{expanded};

use crate::target::words_to;
use mips_isa::register::{AT, ZERO};
use mips_isa::{
    AsmInstr, DATA_START, FromOp, ImmOp, Instr, JumpOp, MulDivOp, OneOp, OrderOp, Reg, ShiftOp,
    ThreeOp, TwoOp, ZeroOp,
};

/// The expansion of the instruction of a line.
#[derive(Clone, Copy)]
pub enum Expansion {
    /// One instruction.
    One(Instr),
    /// Two instructions.
    Two(Instr, Instr),
}

/// The expansion of an instruction that stands at an address and whose label has an address.
pub fn expand(instruction: &AsmInstr, at: u32, address: u32) -> Expansion
    requires early { at ≤ DATA_START }
    requires ranges { IsInstructionInRange (instruction_of instruction.now) }
    ensures { expanded result ≡ expansion (λ _. address) at (instruction_of instruction.now) }
{
    let zero = Reg::new(ZERO);
    let words = words_to(at, address);
    match instruction {
        AsmInstr::Plain(i) => Expansion::One(*i),
        AsmInstr::ToTwo { op, rs, rt, .. } => Expansion::One(branch(*op, *rs, *rt, words)),
        AsmInstr::ToOne { op, rs, .. } => Expansion::One(branch_one(*op, *rs, words)),
        AsmInstr::ToJump { op, .. } => Expansion::One(jump(*op, address)),
        AsmInstr::La { rd, .. } => load(*rd, address),
        AsmInstr::Li { rd, value } => load(*rd, word_bits(*value)),
        AsmInstr::Move { rd, rs } => Expansion::One(three(ThreeOp::Addu, *rd, *rs, zero)),
        AsmInstr::Neg { rd, rs } => Expansion::One(three(ThreeOp::Sub, *rd, zero, *rs)),
        AsmInstr::Nop => Expansion::One(no_operation()),
        AsmInstr::B { .. } => Expansion::One(branch(TwoOp::Beq, zero, zero, words)),
        AsmInstr::BranchZero { op, rs, .. } => zero_test(*op, *rs, words),
        AsmInstr::BranchOrder { op, rs, rt, .. } => compare(
            *op,
            *rs,
            *rt,
            words_to(at + 4, address),
        ),
        AsmInstr::Mul { rd, rs, rt } => multiply(*rd, *rs, *rt),
    }
}

fn branch(op: TwoOp, rs: Reg, rt: Reg, imm: i32) -> Instr
    ensures { result ≡ instr.BranchTwo op rs rt imm }
{
    Instr::BranchTwo { op, rs, rt, imm }
}

fn branch_one(op: OneOp, rs: Reg, imm: i32) -> Instr
    ensures { result ≡ instr.BranchOne op rs imm }
{
    Instr::BranchOne { op, rs, imm }
}

/// The jump to an address.
fn jump(op: JumpOp, address: u32) -> Instr
    ensures { result ≡ instr.Jump op (address / 4) }
{
    Instr::Jump {
        op,
        index: address / 4,
    }
}

fn three(op: ThreeOp, rd: Reg, rs: Reg, rt: Reg) -> Instr
    ensures { result ≡ instr.Three op rd rs rt }
{
    Instr::Three { op, rd, rs, rt }
}

fn no_operation() -> Instr
    ensures { result ≡ instr.Shift Sll ZERO ZERO 0 }
{
    let zero = Reg::new(ZERO);
    Instr::Shift {
        op: ShiftOp::Sll,
        rd: zero,
        rt: zero,
        sh: 0,
    }
}

/// The two instructions that put a word into a register.
fn load(rd: Reg, word: u32) -> Expansion
    ensures { expanded result ≡ load_address rd word }
{
    Expansion::Two(
        Instr::Lui {
            rt: rd,
            imm: (word / 65536) as i32,
        },
        Instr::Imm {
            op: ImmOp::Ori,
            rt: rd,
            rs: rd,
            imm: (word % 65536) as i32,
        },
    )
}

fn multiply(rd: Reg, rs: Reg, rt: Reg) -> Expansion
    ensures { expanded result ≡ instr.MulDiv Mult rs rt ∷ instr.MoveFrom Mflo rd ∷ [] }
{
    Expansion::Two(
        Instr::MulDiv {
            op: MulDivOp::Mult,
            rs,
            rt,
        },
        Instr::MoveFrom {
            op: FromOp::Mflo,
            rd,
        },
    )
}

/// The order is put into $at, and the branch goes by that.
fn compare(op: OrderOp, rs: Reg, rt: Reg, imm: i32) -> Expansion
    ensures { expanded result ≡ order_branch op rs rt imm }
{
    let at = Reg::new(AT);
    let zero = Reg::new(ZERO);
    match op {
        OrderOp::Bgt => Expansion::Two(
            three(ThreeOp::Slt, at, rt, rs),
            branch(TwoOp::Bne, at, zero, imm),
        ),
        OrderOp::Bge => Expansion::Two(
            three(ThreeOp::Slt, at, rs, rt),
            branch(TwoOp::Beq, at, zero, imm),
        ),
        OrderOp::Blt => Expansion::Two(
            three(ThreeOp::Slt, at, rs, rt),
            branch(TwoOp::Bne, at, zero, imm),
        ),
        OrderOp::Ble => Expansion::Two(
            three(ThreeOp::Slt, at, rt, rs),
            branch(TwoOp::Beq, at, zero, imm),
        ),
    }
}

/// The branch on a comparison with zero.
fn zero_test(op: ZeroOp, rs: Reg, imm: i32) -> Expansion
    ensures { expanded result ≡ instr.BranchTwo (zero_branch op) rs ZERO imm ∷ [] }
{
    let zero = Reg::new(ZERO);
    match op {
        ZeroOp::Beqz => Expansion::One(branch(TwoOp::Beq, rs, zero, imm)),
        ZeroOp::Bnez => Expansion::One(branch(TwoOp::Bne, rs, zero, imm)),
    }
}

/// The 32 bits of a number.
pub fn word_bits(value: i64) -> u32
    requires { IsWord value }
    ensures { result ≡ bits_of value }
{
    if value < 0 {
        (value + (1 << 32)) as u32
    } else {
        value as u32
    }
}
