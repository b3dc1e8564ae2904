//! Lines of assembly: labels, and an instruction, pseudoinstruction, data item or directive.

ghost use Rattle.std.specs.Prelude.{◌≡◌, IfOk};
ghost use Rattle.mips_isa.specs.declared.line.TheConstants.{LINE_BYTES};
ghost use Rattle.mips_isa.specs.Lines.{data_item_of, statement_of, Data};

use crate::{Instr, JumpOp, Label, LineLabels, OneOp, Reg, TwoOp};
use std::alloc::{AllocError, Global};

/// The bytes of a line, without the boxes of its long names, its further labels and its item of data.
pub const LINE_BYTES: usize = size_of::<Line>();

/// A line takes 56 bytes.
pub fn law_line_bytes()
    ensures { LINE_BYTES ≡ 56 }
{}

/// A branch on a comparison with zero, written as one line.
#[derive(Clone, Copy)]
pub enum ZeroOp {
    Beqz,
    Bnez,
}

/// A branch on an order, written as one line and assembled as two instructions.
#[derive(Clone, Copy)]
pub enum OrderOp {
    Bgt,
    Bge,
    Blt,
    Ble,
}

/// An operand of `.word`.
#[derive(Drop)]
pub enum WordItem {
    /// A number from -2 ^ 31 to 2 ^ 32 - 1.
    Number(i64),
    /// The address of a label.
    Address(Label),
}

/// A line's instruction, or its pseudoinstruction, which is assembled to one instruction or two.
#[derive(Drop)]
pub enum AsmInstr {
    /// An instruction; a target that is a number is the field itself.
    Plain(Instr),
    ToTwo {
        op: TwoOp,
        rs: Reg,
        rt: Reg,
        target: Label,
    },
    ToOne {
        op: OneOp,
        rs: Reg,
        target: Label,
    },
    ToJump {
        op: JumpOp,
        target: Label,
    },
    La {
        rd: Reg,
        label: Label,
    },
    Li {
        rd: Reg,
        value: i64,
    },
    Move {
        rd: Reg,
        rs: Reg,
    },
    Neg {
        rd: Reg,
        rs: Reg,
    },
    Nop,
    B {
        target: Label,
    },
    BranchZero {
        op: ZeroOp,
        rs: Reg,
        target: Label,
    },
    BranchOrder {
        op: OrderOp,
        rs: Reg,
        rt: Reg,
        target: Label,
    },
    Mul {
        rd: Reg,
        rs: Reg,
        rt: Reg,
    },
}

/// An item of data, by its directive.
#[derive(Drop)]
pub enum DataItem {
    Word(Vec<WordItem>),
    Byte(Vec<i32>),
    Ascii(Vec<u8>),
    Asciiz(Vec<u8>),
    Space(u32),
}

/// A directive that is no item of data.
#[derive(Drop)]
pub enum AsmDirective {
    ToText,
    ToData,
    Globl(Label),
    Align(u32),
}

/// The rest of a line after its labels, in 32 bytes.
#[derive(Drop)]
pub enum Statement {
    /// Nothing.
    Empty,
    Instruction(AsmInstr),
    Data(Box<DataItem>),
    Directive(AsmDirective),
}

impl Statement {
    /// The statement that is an item of data. Returns `Err` only if memory runs out.
    pub fn of_item(alloc: Global, item: DataItem) -> Result<Self, AllocError>
        ensures { IfOk result (λ statement. statement_of statement ≡ Data (data_item_of item)) }
    {
        Ok(Statement::Data(Box::new(alloc, item)?))
    }
}

/// A line: its labels, and its statement, in 56 bytes.
#[derive(Drop)]
pub struct Line {
    pub labels: LineLabels,
    pub statement: Statement,
}
