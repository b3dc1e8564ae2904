//! Parsing instructions of assembly from the tokens after their mnemonics.

ghost use Rattle.std.specs.Prelude.{◌≡◌, IfOk, map};
ghost use Rattle.mips_isa.specs.Lines.{Plain, instruction_of};
ghost use Rattle.mips_text.specs.declared.mnemonics.Mnemonic.TheVariants.{Jalr, Mem, BranchTwo, BranchOne, Jump};
ghost use Rattle.mips_text.specs.Statements.{imm_range, instruction_made, kept, register_at};
ghost use Rattle.mips_text.specs.Views.{word_seen};

use crate::mnemonics::Mnemonic;
use crate::operands::{has_open, label_at, name_at, number_at, register_at};
use crate::ranges::{jump_index, shift_count, signed, unsigned, word_number};
use crate::words::Word;
use mips_isa::register::RA;
use mips_isa::{AsmInstr, ImmOp, Instr, JumpOp, Label, MemOp, OneOp, Reg, TwoOp};
use std::alloc::{AllocError, Global};

/// The instruction of a mnemonic and of the words behind it, which are the operands that it expects. Returns `Err` only if memory runs out.
pub(crate) fn instruction(
    alloc: Global,
    mnemonic: Mnemonic,
    words: &[Word],
) -> Result<AsmInstr, AllocError>
    ensures { IfOk result (λ i. instruction_of i ≡ instruction_made mnemonic (map word_seen words.now)) }
{
    let first = register_at(words, 0);
    let second = register_at(words, 1);
    let third = register_at(words, 2);
    match mnemonic {
        Mnemonic::Three(op) => Ok(AsmInstr::Plain(Instr::Three {
            op,
            rd: first,
            rs: second,
            rt: third,
        })),
        Mnemonic::Shift(op) => Ok(AsmInstr::Plain(Instr::Shift {
            op,
            rd: first,
            rt: second,
            sh: shift_count(number_at(words, 2)),
        })),
        Mnemonic::ShiftReg(op) => Ok(AsmInstr::Plain(Instr::ShiftReg {
            op,
            rd: first,
            rt: second,
            rs: third,
        })),
        Mnemonic::Jr => Ok(AsmInstr::Plain(Instr::Jr { rs: first })),
        Mnemonic::Jalr => Ok(AsmInstr::Plain(jalr(words, first, second))),
        Mnemonic::Syscall => Ok(AsmInstr::Plain(Instr::Syscall)),
        Mnemonic::MoveFrom(op) => Ok(AsmInstr::Plain(Instr::MoveFrom { op, rd: first })),
        Mnemonic::MoveTo(op) => Ok(AsmInstr::Plain(Instr::MoveTo { op, rs: first })),
        Mnemonic::MulDiv(op) => Ok(AsmInstr::Plain(Instr::MulDiv {
            op,
            rs: first,
            rt: second,
        })),
        Mnemonic::Imm(op) => Ok(AsmInstr::Plain(Instr::Imm {
            op,
            rt: first,
            rs: second,
            imm: immediate(op, number_at(words, 2)),
        })),
        Mnemonic::Lui => Ok(AsmInstr::Plain(Instr::Lui {
            rt: first,
            imm: unsigned(number_at(words, 1)),
        })),
        Mnemonic::BranchTwo(op) => branch_two(alloc, op, words),
        Mnemonic::BranchOne(op) => branch_one(alloc, op, words),
        Mnemonic::Jump(op) => jump(alloc, op, words),
        Mnemonic::Mem(op) => Ok(AsmInstr::Plain(memory(op, words))),
        Mnemonic::La => Ok(AsmInstr::La {
            rd: first,
            label: Label::new(alloc, label_at(words, 1))?,
        }),
        Mnemonic::Li => Ok(AsmInstr::Li {
            rd: first,
            value: word_number(number_at(words, 1)),
        }),
        Mnemonic::Move => Ok(AsmInstr::Move {
            rd: first,
            rs: second,
        }),
        Mnemonic::Neg => Ok(AsmInstr::Neg {
            rd: first,
            rs: second,
        }),
        Mnemonic::Nop => Ok(AsmInstr::Nop),
        Mnemonic::B => Ok(AsmInstr::B {
            target: Label::new(alloc, label_at(words, 0))?,
        }),
        Mnemonic::BranchZero(op) => Ok(AsmInstr::BranchZero {
            op,
            rs: first,
            target: Label::new(alloc, label_at(words, 1))?,
        }),
        Mnemonic::BranchOrder(op) => Ok(AsmInstr::BranchOrder {
            op,
            rs: first,
            rt: second,
            target: Label::new(alloc, label_at(words, 2))?,
        }),
        Mnemonic::Mul => Ok(AsmInstr::Mul {
            rd: first,
            rs: second,
            rt: third,
        }),
    }
}

/// If there is only one register, it is the jump's target; the address after it is then saved in `$ra`.
fn jalr(words: &[Word], first: Reg, second: Reg) -> Instr
    requires first { first ≡ register_at (map word_seen words.now) 0 }
    requires second { second ≡ register_at (map word_seen words.now) 1 }
    ensures { Plain result ≡ instruction_made Jalr (map word_seen words.now) }
{
    if words.len() < 2 {
        Instr::Jalr {
            rd: Reg::new(RA),
            rs: first,
        }
    } else {
        Instr::Jalr {
            rd: first,
            rs: second,
        }
    }
}

/// A load or a store. Without its number the offset is 0.
fn memory(op: MemOp, words: &[Word]) -> Instr
    ensures { Plain result ≡ instruction_made (Mem op) (map word_seen words.now) }
{
    let rt = register_at(words, 0);
    if has_open(words, 1) {
        Instr::Mem {
            op,
            rt,
            rs: register_at(words, 2),
            imm: 0,
        }
    } else {
        Instr::Mem {
            op,
            rt,
            rs: register_at(words, 3),
            imm: signed(number_at(words, 1)),
        }
    }
}

/// The immediate of an operation.
fn immediate(op: ImmOp, value: i64) -> i32
    ensures { result ≡ kept (imm_range op) value }
{
    match op {
        ImmOp::Addi | ImmOp::Addiu | ImmOp::Slti | ImmOp::Sltiu => signed(value),
        ImmOp::Andi | ImmOp::Ori | ImmOp::Xori => unsigned(value),
    }
}

fn branch_two(alloc: Global, op: TwoOp, words: &[Word]) -> Result<AsmInstr, AllocError>
    ensures { IfOk result (λ i. instruction_of i ≡ instruction_made (BranchTwo op) (map word_seen words.now)) }
{
    let rs = register_at(words, 0);
    let rt = register_at(words, 1);
    match name_at(words, 2) {
        Some(name) => Ok(AsmInstr::ToTwo {
            op,
            rs,
            rt,
            target: Label::new(alloc, name)?,
        }),
        None => Ok(AsmInstr::Plain(Instr::BranchTwo {
            op,
            rs,
            rt,
            imm: signed(number_at(words, 2)),
        })),
    }
}

fn branch_one(alloc: Global, op: OneOp, words: &[Word]) -> Result<AsmInstr, AllocError>
    ensures { IfOk result (λ i. instruction_of i ≡ instruction_made (BranchOne op) (map word_seen words.now)) }
{
    let rs = register_at(words, 0);
    match name_at(words, 1) {
        Some(name) => Ok(AsmInstr::ToOne {
            op,
            rs,
            target: Label::new(alloc, name)?,
        }),
        None => Ok(AsmInstr::Plain(Instr::BranchOne {
            op,
            rs,
            imm: signed(number_at(words, 1)),
        })),
    }
}

fn jump(alloc: Global, op: JumpOp, words: &[Word]) -> Result<AsmInstr, AllocError>
    ensures { IfOk result (λ i. instruction_of i ≡ instruction_made (Jump op) (map word_seen words.now)) }
{
    match name_at(words, 0) {
        Some(name) => Ok(AsmInstr::ToJump {
            op,
            target: Label::new(alloc, name)?,
        }),
        None => Ok(AsmInstr::Plain(Instr::Jump {
            op,
            index: jump_index(number_at(words, 0)),
        })),
    }
}
