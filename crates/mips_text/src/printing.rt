//! Printing lines of assembly as text.

ghost use Rattle.std.specs.Prelude.{◌≡◌, ◌++◌, IfOk, OnOk, flat_map};
ghost use Rattle.mips_isa.specs.Lines.{line_of, lines_of, instruction_of, data_item_of, directive_of, statement_of};
ghost use Rattle.mips_text.specs.Printing.{plain_text, instruction_text, data_text, other_directive_text, statement_text, indented_text, label_text, line_text, printed};

use crate::directives::Directive;
use crate::mnemonics::Mnemonic;
use crate::rows::{
    put_bytes, put_directive, put_directive_named, put_directive_numbered, put_in_memory,
    put_named, put_numbered, put_registers, put_text, put_words,
};
use mips_isa::{AsmDirective, AsmInstr, DataItem, Instr, Label, Line, Statement};
use std::alloc::{AllocError, Global};

/// The text of lines, in the one spelling, which `docs/assembly.md` has under Printing.
///
/// A line is each label as its name and `:`, then a tab and the statement, if there is one, then a newline. Returns `Err` only if memory runs out.
pub fn print_asm(alloc: Global, lines: &[Line]) -> Result<Vec<u8>, AllocError>
    ensures text { IfOk result (λ text. text.items ≡ printed (lines_of lines.now)) }
{
    let mut out = Vec::new(alloc);
    for line in lines {
        put_line(&mut out, line)?;
    }
    Ok(out)
}

/// The text of a statement, without a tab or a newline: the mnemonic or directive and, if there are operands, a space and the operands with `, ` between.
/// Numbers stand in decimal. Returns `Err` only if memory runs out.
pub fn print_statement(alloc: Global, statement: &Statement) -> Result<Vec<u8>, AllocError>
    ensures text { IfOk result (λ text. text.items ≡ statement_text (statement_of statement.now)) }
{
    let mut out = Vec::new(alloc);
    put_statement(&mut out, statement)?;
    Ok(out)
}

/// Writes a line.
fn put_line(out: &mut Vec<u8>, line: &Line) -> Result<(), AllocError>
    ensures { OnOk result (out.new.items ≡ out.old.items ++ line_text (line_of line.now)) }
{
    put_labels(out, line.labels.as_slice())?;
    put_indented(out, &line.statement)?;
    out.extend_from_slice(b"\n")
}

/// Writes each label as its name and `:`.
fn put_labels(out: &mut Vec<u8>, labels: &[Label]) -> Result<(), AllocError>
    ensures { OnOk result (out.new.items ≡ out.old.items ++ flat_map label_text labels.now) }
{
    for label in labels {
        out.extend_from_slice(label.as_slice())?;
        out.extend_from_slice(b":")?;
    }
    Ok(())
}

/// Writes a statement behind a tab, or nothing for none.
fn put_indented(out: &mut Vec<u8>, statement: &Statement) -> Result<(), AllocError>
    ensures { OnOk result (out.new.items ≡ out.old.items ++ indented_text (statement_of statement.now)) }
{
    match statement {
        Statement::Empty => Ok(()),
        Statement::Instruction(_) | Statement::Data(_) | Statement::Directive(_) => {
            out.extend_from_slice(b"\t")?;
            put_statement(out, statement)
        }
    }
}

/// Writes a statement, or nothing for none.
fn put_statement(out: &mut Vec<u8>, statement: &Statement) -> Result<(), AllocError>
    ensures { OnOk result (out.new.items ≡ out.old.items ++ statement_text (statement_of statement.now)) }
{
    match statement {
        Statement::Empty => Ok(()),
        Statement::Instruction(instruction) => put_instruction(out, instruction),
        Statement::Data(item) => put_data(out, item),
        Statement::Directive(directive) => put_other_directive(out, directive),
    }
}

/// Writes an item of data.
fn put_data(out: &mut Vec<u8>, item: &DataItem) -> Result<(), AllocError>
    ensures { OnOk result (out.new.items ≡ out.old.items ++ data_text (data_item_of item.now)) }
{
    match item {
        DataItem::Word(items) => put_words(out, items),
        DataItem::Byte(values) => put_bytes(out, values),
        DataItem::Ascii(bytes) => put_text(out, Directive::Ascii, bytes),
        DataItem::Asciiz(bytes) => put_text(out, Directive::Asciiz, bytes),
        DataItem::Space(size) => put_directive_numbered(out, Directive::Space, i64::from(*size)),
    }
}

/// Writes a directive that is no item of data.
fn put_other_directive(out: &mut Vec<u8>, directive: &AsmDirective) -> Result<(), AllocError>
    ensures { OnOk result (out.new.items ≡ out.old.items ++ other_directive_text (directive_of directive.now)) }
{
    match directive {
        AsmDirective::ToText => put_directive(out, Directive::Text),
        AsmDirective::ToData => put_directive(out, Directive::Data),
        AsmDirective::Globl(label) => put_directive_named(out, Directive::Globl, label),
        AsmDirective::Align(power) => {
            put_directive_numbered(out, Directive::Align, i64::from(*power))
        }
    }
}

/// Writes an instruction or a pseudoinstruction.
fn put_instruction(out: &mut Vec<u8>, instruction: &AsmInstr) -> Result<(), AllocError>
    ensures { OnOk result (out.new.items ≡ out.old.items ++ instruction_text (instruction_of instruction.now)) }
{
    match instruction {
        AsmInstr::Plain(instruction) => put_plain(out, *instruction),
        AsmInstr::ToTwo { op, rs, rt, target } => {
            put_named(out, Mnemonic::BranchTwo(*op), &[*rs, *rt], target)
        }
        AsmInstr::ToOne { op, rs, target } => {
            put_named(out, Mnemonic::BranchOne(*op), &[*rs], target)
        }
        AsmInstr::ToJump { op, target } => put_named(out, Mnemonic::Jump(*op), &[], target),
        AsmInstr::La { rd, label } => put_named(out, Mnemonic::La, &[*rd], label),
        AsmInstr::Li { rd, value } => put_numbered(out, Mnemonic::Li, &[*rd], *value),
        AsmInstr::Move { rd, rs } => put_registers(out, Mnemonic::Move, &[*rd, *rs]),
        AsmInstr::Neg { rd, rs } => put_registers(out, Mnemonic::Neg, &[*rd, *rs]),
        AsmInstr::Nop => put_registers(out, Mnemonic::Nop, &[]),
        AsmInstr::B { target } => put_named(out, Mnemonic::B, &[], target),
        AsmInstr::BranchZero { op, rs, target } => {
            put_named(out, Mnemonic::BranchZero(*op), &[*rs], target)
        }
        AsmInstr::BranchOrder { op, rs, rt, target } => {
            put_named(out, Mnemonic::BranchOrder(*op), &[*rs, *rt], target)
        }
        AsmInstr::Mul { rd, rs, rt } => put_registers(out, Mnemonic::Mul, &[*rd, *rs, *rt]),
    }
}

/// Writes an instruction whose operands are registers and numbers.
fn put_plain(out: &mut Vec<u8>, instruction: Instr) -> Result<(), AllocError>
    ensures { OnOk result (out.new.items ≡ out.old.items ++ plain_text instruction) }
{
    match instruction {
        Instr::Three { op, rd, rs, rt } => put_registers(out, Mnemonic::Three(op), &[rd, rs, rt]),
        Instr::Shift { op, rd, rt, sh } => {
            put_numbered(out, Mnemonic::Shift(op), &[rd, rt], i64::from(sh))
        }
        Instr::ShiftReg { op, rd, rt, rs } => {
            put_registers(out, Mnemonic::ShiftReg(op), &[rd, rt, rs])
        }
        Instr::Jr { rs } => put_registers(out, Mnemonic::Jr, &[rs]),
        Instr::Jalr { rd, rs } => put_registers(out, Mnemonic::Jalr, &[rd, rs]),
        Instr::Syscall => put_registers(out, Mnemonic::Syscall, &[]),
        Instr::MoveFrom { op, rd } => put_registers(out, Mnemonic::MoveFrom(op), &[rd]),
        Instr::MoveTo { op, rs } => put_registers(out, Mnemonic::MoveTo(op), &[rs]),
        Instr::MulDiv { op, rs, rt } => put_registers(out, Mnemonic::MulDiv(op), &[rs, rt]),
        Instr::Imm { op, rt, rs, imm } => {
            put_numbered(out, Mnemonic::Imm(op), &[rt, rs], i64::from(imm))
        }
        Instr::Lui { rt, imm } => put_numbered(out, Mnemonic::Lui, &[rt], i64::from(imm)),
        Instr::BranchTwo { op, rs, rt, imm } => {
            put_numbered(out, Mnemonic::BranchTwo(op), &[rs, rt], i64::from(imm))
        }
        Instr::BranchOne { op, rs, imm } => {
            put_numbered(out, Mnemonic::BranchOne(op), &[rs], i64::from(imm))
        }
        Instr::Jump { op, index } => {
            put_numbered(out, Mnemonic::Jump(op), &[], i64::from(index))
        }
        Instr::Mem { op, rt, rs, imm } => put_in_memory(out, Mnemonic::Mem(op), rt, imm, rs),
    }
}
