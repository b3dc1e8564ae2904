//! The type `Draft`, an assembly line that borrows its label, constructors for its instructions, and `write`, which appends drafts to a list of owned lines.

ghost use Rattle.std.specs.Prelude.{◌≡◌, ◌++◌, ◌<◌, length, map, take, IfOk, OnErr, OnOk};
ghost use Rattle.mips_isa.specs.Lines.{line_of, lines_of, instruction_of, statement_of};
ghost use Rattle.mips_isa.specs.Assembly.{unlabelled, instruction_line};
ghost use Rattle.cool_runtime.specs.Drafts.{drafted};
ghost use Rattle.cool_runtime.specs.Instructions as written;

use mips_isa::register::{RA, V0, ZERO};
use mips_isa::{
    AsmInstr, FromOp, ImmOp, Instr, JumpOp, Label, Line, LineLabels, MemOp, MulDivOp, OneOp, Reg,
    ShiftOp, Statement, ThreeOp, TwoOp,
};
use std::alloc::{AllocError, Global};

/// A line of a template.
#[derive(Clone, Copy)]
pub enum Draft<'a> {
    /// Only a label.
    Label(&'a [u8]),
    /// An instruction.
    Plain(Instr),
    /// A jump to a label.
    Jump(JumpOp, &'a [u8]),
    /// The address of a label.
    La(Reg, &'a [u8]),
    /// A number.
    Li(Reg, u32),
    /// A copy of a register.
    Move(Reg, Reg),
}

/// Adds the lines of a template. Returns `Err` only if memory runs out, and then the lines are those before.
pub fn write(alloc: Global, lines: &mut Vec<Line>, drafts: &[Draft<'_>]) -> Result<(), AllocError>
    ensures written { OnOk result (lines_of lines.new.items ≡ lines_of lines.old.items ++ map drafted drafts.now) }
    ensures refused { OnErr result (lines.new.items ≡ lines.old.items) }
{
    let before = lines.len();
    match add_lines(alloc, lines, drafts) {
        Ok(()) => Ok(()),
        Err(error) => {
            lines.truncate(before);
            Err(error)
        }
    }
}

/// Adds the lines of a template. Returns `Err` only if memory runs out, and then the first ones may have been added.
fn add_lines(alloc: Global, lines: &mut Vec<Line>, drafts: &[Draft<'_>]) -> Result<(), AllocError>
    ensures written { OnOk result (lines_of lines.new.items ≡ lines_of lines.old.items ++ map drafted drafts.now) }
    ensures front { take (length lines.old.items) lines.new.items ≡ lines.old.items }
{
    for draft in drafts {
        lines.push(full_line(alloc, draft)?)?;
    }
    Ok(())
}

/// The line of a draft. Returns `Err` only if memory runs out.
///
/// It is compiled into its caller, so that a line is made where it is to stand.
#[inline(always)]
pub(crate) fn full_line(alloc: Global, draft: &Draft<'_>) -> Result<Line, AllocError>
    ensures { IfOk result (λ line. line_of line ≡ drafted draft.now) }
{
    match *draft {
        Draft::Label(name) => Ok(Line {
            labels: LineLabels::one(Label::new(alloc, name)?),
            statement: Statement::Empty,
        }),
        Draft::Plain(instr) => Ok(instruction_line(AsmInstr::Plain(instr))),
        Draft::Jump(op, name) => {
            let target = Label::new(alloc, name)?;
            Ok(instruction_line(AsmInstr::ToJump { op, target }))
        }
        Draft::La(rd, name) => {
            let label = Label::new(alloc, name)?;
            Ok(instruction_line(AsmInstr::La { rd, label }))
        }
        Draft::Li(rd, number) => {
            let value = i64::from(number);
            Ok(instruction_line(AsmInstr::Li { rd, value }))
        }
        Draft::Move(rd, rs) => Ok(instruction_line(AsmInstr::Move { rd, rs })),
    }
}

/// A line with only an instruction.
fn instruction_line(instruction: AsmInstr) -> Line
    ensures { line_of result ≡ instruction_line (instruction_of instruction) }
{
    unlabelled(Statement::Instruction(instruction))
}

/// A line without a label.
pub(crate) fn unlabelled(statement: Statement) -> Line
    ensures { line_of result ≡ unlabelled (statement_of statement) }
{
    Line {
        labels: LineLabels::none(),
        statement,
    }
}

/// A sum.
pub fn addu(rd: u32, rs: u32, rt: u32) -> Draft<'static>
    requires first { rd < 32 }
    requires second { rs < 32 }
    requires third { rt < 32 }
    ensures { drafted result ≡ written.addu rd rs rt }
{
    Draft::Plain(Instr::Three {
        op: ThreeOp::Addu,
        rd: Reg::new(rd),
        rs: Reg::new(rs),
        rt: Reg::new(rt),
    })
}

/// A difference.
pub fn subu(rd: u32, rs: u32, rt: u32) -> Draft<'static>
    requires first { rd < 32 }
    requires second { rs < 32 }
    requires third { rt < 32 }
    ensures { drafted result ≡ written.subu rd rs rt }
{
    Draft::Plain(Instr::Three {
        op: ThreeOp::Subu,
        rd: Reg::new(rd),
        rs: Reg::new(rs),
        rt: Reg::new(rt),
    })
}

/// Whether a number is less than another one, with signs.
pub fn slt(rd: u32, rs: u32, rt: u32) -> Draft<'static>
    requires first { rd < 32 }
    requires second { rs < 32 }
    requires third { rt < 32 }
    ensures { drafted result ≡ written.slt rd rs rt }
{
    Draft::Plain(Instr::Three {
        op: ThreeOp::Slt,
        rd: Reg::new(rd),
        rs: Reg::new(rs),
        rt: Reg::new(rt),
    })
}

/// Whether a number is less than another one, without signs.
pub fn sltu(rd: u32, rs: u32, rt: u32) -> Draft<'static>
    requires first { rd < 32 }
    requires second { rs < 32 }
    requires third { rt < 32 }
    ensures { drafted result ≡ written.sltu rd rs rt }
{
    Draft::Plain(Instr::Three {
        op: ThreeOp::Sltu,
        rd: Reg::new(rd),
        rs: Reg::new(rs),
        rt: Reg::new(rt),
    })
}

/// A shift to the left.
pub fn sll(rd: u32, rt: u32, sh: u32) -> Draft<'static>
    requires first { rd < 32 }
    requires second { rt < 32 }
    ensures { drafted result ≡ written.sll rd rt sh }
{
    Draft::Plain(Instr::Shift {
        op: ShiftOp::Sll,
        rd: Reg::new(rd),
        rt: Reg::new(rt),
        sh,
    })
}

/// A shift to the right.
pub fn srl(rd: u32, rt: u32, sh: u32) -> Draft<'static>
    requires first { rd < 32 }
    requires second { rt < 32 }
    ensures { drafted result ≡ written.srl rd rt sh }
{
    Draft::Plain(Instr::Shift {
        op: ShiftOp::Srl,
        rd: Reg::new(rd),
        rt: Reg::new(rt),
        sh,
    })
}

/// A sum with a number.
pub fn addiu(rt: u32, rs: u32, imm: i32) -> Draft<'static>
    requires first { rt < 32 }
    requires second { rs < 32 }
    ensures { drafted result ≡ written.addiu rt rs imm }
{
    Draft::Plain(Instr::Imm {
        op: ImmOp::Addiu,
        rt: Reg::new(rt),
        rs: Reg::new(rs),
        imm,
    })
}

/// The number of a system call to `$v0`.
pub fn call_number(number: u32) -> Draft<'static>
    requires { number < 32768 }
    ensures { drafted result ≡ written.call_number number }
{
    addiu(V0, ZERO, number as i32)
}

/// Whether a number is less than a given one, without signs.
pub fn sltiu(rt: u32, rs: u32, imm: i32) -> Draft<'static>
    requires first { rt < 32 }
    requires second { rs < 32 }
    ensures { drafted result ≡ written.sltiu rt rs imm }
{
    Draft::Plain(Instr::Imm {
        op: ImmOp::Sltiu,
        rt: Reg::new(rt),
        rs: Reg::new(rs),
        imm,
    })
}

/// A load of a word.
pub fn lw(rt: u32, imm: i32, rs: u32) -> Draft<'static>
    requires first { rt < 32 }
    requires second { rs < 32 }
    ensures { drafted result ≡ written.lw rt imm rs }
{
    Draft::Plain(Instr::Mem {
        op: MemOp::Lw,
        rt: Reg::new(rt),
        rs: Reg::new(rs),
        imm,
    })
}

/// A store of a word.
pub fn sw(rt: u32, imm: i32, rs: u32) -> Draft<'static>
    requires first { rt < 32 }
    requires second { rs < 32 }
    ensures { drafted result ≡ written.sw rt imm rs }
{
    Draft::Plain(Instr::Mem {
        op: MemOp::Sw,
        rt: Reg::new(rt),
        rs: Reg::new(rs),
        imm,
    })
}

/// A load of a byte.
pub fn lbu(rt: u32, imm: i32, rs: u32) -> Draft<'static>
    requires first { rt < 32 }
    requires second { rs < 32 }
    ensures { drafted result ≡ written.lbu rt imm rs }
{
    Draft::Plain(Instr::Mem {
        op: MemOp::Lbu,
        rt: Reg::new(rt),
        rs: Reg::new(rs),
        imm,
    })
}

/// A store of a byte.
pub fn sb(rt: u32, imm: i32, rs: u32) -> Draft<'static>
    requires first { rt < 32 }
    requires second { rs < 32 }
    ensures { drafted result ≡ written.sb rt imm rs }
{
    Draft::Plain(Instr::Mem {
        op: MemOp::Sb,
        rt: Reg::new(rt),
        rs: Reg::new(rs),
        imm,
    })
}

/// A branch over the next line if two registers are equal.
pub fn beq(rs: u32, rt: u32) -> Draft<'static>
    requires first { rs < 32 }
    requires second { rt < 32 }
    ensures { drafted result ≡ written.beq rs rt }
{
    Draft::Plain(Instr::BranchTwo {
        op: TwoOp::Beq,
        rs: Reg::new(rs),
        rt: Reg::new(rt),
        imm: 1,
    })
}

/// A branch over the next line if two registers differ.
pub fn bne(rs: u32, rt: u32) -> Draft<'static>
    requires first { rs < 32 }
    requires second { rt < 32 }
    ensures { drafted result ≡ written.bne rs rt }
{
    Draft::Plain(Instr::BranchTwo {
        op: TwoOp::Bne,
        rs: Reg::new(rs),
        rt: Reg::new(rt),
        imm: 1,
    })
}

/// A product, to HI and LO.
pub fn mult(rs: u32, rt: u32) -> Draft<'static>
    requires first { rs < 32 }
    requires second { rt < 32 }
    ensures { drafted result ≡ written.mult rs rt }
{
    Draft::Plain(Instr::MulDiv {
        op: MulDivOp::Mult,
        rs: Reg::new(rs),
        rt: Reg::new(rt),
    })
}

/// A quotient, to LO.
pub fn div(rs: u32, rt: u32) -> Draft<'static>
    requires first { rs < 32 }
    requires second { rt < 32 }
    ensures { drafted result ≡ written.div rs rt }
{
    Draft::Plain(Instr::MulDiv {
        op: MulDivOp::Div,
        rs: Reg::new(rs),
        rt: Reg::new(rt),
    })
}

/// LO.
pub fn mflo(rd: u32) -> Draft<'static>
    requires { rd < 32 }
    ensures { drafted result ≡ written.mflo rd }
{
    Draft::Plain(Instr::MoveFrom {
        op: FromOp::Mflo,
        rd: Reg::new(rd),
    })
}

/// HI.
pub fn mfhi(rd: u32) -> Draft<'static>
    requires { rd < 32 }
    ensures { drafted result ≡ written.mfhi rd }
{
    Draft::Plain(Instr::MoveFrom {
        op: FromOp::Mfhi,
        rd: Reg::new(rd),
    })
}

/// The upper half of a word.
pub fn lui(rt: u32, imm: i32) -> Draft<'static>
    requires { rt < 32 }
    ensures { drafted result ≡ written.lui rt imm }
{
    Draft::Plain(Instr::Lui {
        rt: Reg::new(rt),
        imm,
    })
}

/// A branch over the next line if a number is not negative.
pub fn bgez(rs: u32) -> Draft<'static>
    requires { rs < 32 }
    ensures { drafted result ≡ written.bgez rs }
{
    Draft::Plain(Instr::BranchOne {
        op: OneOp::Bgez,
        rs: Reg::new(rs),
        imm: 1,
    })
}

/// A copy of a register.
pub fn copied(rd: u32, rs: u32) -> Draft<'static>
    requires first { rd < 32 }
    requires second { rs < 32 }
    ensures { drafted result ≡ written.move rd rs }
{
    Draft::Move(Reg::new(rd), Reg::new(rs))
}

/// The address of a label.
pub fn la(rd: u32, name: &[u8]) -> Draft<'_>
    requires { rd < 32 }
    ensures { drafted result ≡ written.la rd name.now }
{
    Draft::La(Reg::new(rd), name)
}

/// A number.
pub fn li(rd: u32, number: u32) -> Draft<'static>
    requires { rd < 32 }
    ensures { drafted result ≡ written.li rd number }
{
    Draft::Li(Reg::new(rd), number)
}

/// A jump to the address in a register.
pub fn jr(rs: u32) -> Draft<'static>
    requires { rs < 32 }
    ensures { drafted result ≡ written.jr rs }
{
    Draft::Plain(Instr::Jr { rs: Reg::new(rs) })
}

/// A call of the address in a register.
pub fn jalr(rs: u32) -> Draft<'static>
    requires { rs < 32 }
    ensures { drafted result ≡ written.jalr rs }
{
    Draft::Plain(Instr::Jalr {
        rd: Reg::new(RA),
        rs: Reg::new(rs),
    })
}

/// A jump.
pub fn j(name: &[u8]) -> Draft<'_>
    ensures { drafted result ≡ written.j name.now }
{
    Draft::Jump(JumpOp::J, name)
}

/// A call.
pub fn jal(name: &[u8]) -> Draft<'_>
    ensures { drafted result ≡ written.jal name.now }
{
    Draft::Jump(JumpOp::Jal, name)
}

/// A system call.
pub fn syscall() -> Draft<'static>
    ensures { drafted result ≡ written.syscall }
{
    Draft::Plain(Instr::Syscall)
}

/// A label.
pub fn label(name: &[u8]) -> Draft<'_>
    ensures { drafted result ≡ written.label name.now }
{
    Draft::Label(name)
}
