//! The assembler adds a `__start`, which calls `main` and exits, to lines that define `main` but no `__start`.

ghost use Rattle.std.specs.Prelude.{◌≡◌, ◌&&◌, [], not, is_some, if◌then◌else◌, IfOk, pos};
ghost use Rattle.mips_isa.specs.Lines.{line_of, lines_of, statement_of, AreInRange, Instruction, Plain};
ghost use Rattle.mips_isa.specs.Assembly.{has, need, place_of, in_text, start_name, main_name, added_lines, unlabelled};
ghost use Rattle.mips_isa.specs.declared.instr.Instr.TheVariants.{Imm};
ghost use Rattle.mips_isa.specs.declared.instr.ImmOp.TheVariants.{Ori};
ghost use Rattle.mips_isa.specs.declared.place.Segment.TheVariants.{Text};
ghost use Rattle.mips_asm.specs.Completing.{segment_after_need, segment_of_name, is_text_segment as in_text_segment};

use mips_isa::register::{V0, ZERO};
use mips_isa::system_call::EXIT;
use mips_isa::{
    AsmDirective, AsmInstr, ImmOp, Instr, JumpOp, Label, Line, LineLabels, Reg, Segment, Statement,
};
use std::alloc::{AllocError, Global};

/// The words of text of the lines that complete lines.
pub const ADDED_WORDS: u32 = 3;

/// The lines that complete lines that lack a start: a call of `main` and an exit. Others need none.
pub fn added_lines(alloc: Global, is_lacking: bool) -> Result<Vec<Line>, AllocError>
    ensures lines { IfOk result (λ added. lines_of added.items ≡ (if is_lacking then added_lines else [])) }
    ensures ranges { IfOk result (λ added. AreInRange (lines_of added.items)) }
{
    if is_lacking {
        start_lines(alloc)
    } else {
        Ok(Vec::new(alloc))
    }
}

/// Whether no `__start` is defined, and `main` is a label in text.
pub fn lacks_start(lines: &[Line]) -> bool
    ensures { result ≡ (not (is_some (place_of (lines_of lines.now) start_name)) && in_text (place_of (lines_of lines.now) main_name)) }
{
    match segment_of(lines, b"__start") {
        Some(_) => false,
        None => is_text_segment(segment_of(lines, b"main")),
    }
}

/// Whether the segment of a label, if there is one, is the text.
fn is_text_segment(segment: Option<Segment>) -> bool
    ensures { result ≡ in_text_segment segment }
{
    matches!(segment, Some(Segment::Text))
}

/// The segment of the first label of this name.
pub fn segment_of(lines: &[Line], name: &[u8]) -> Option<Segment>
    ensures { result ≡ segment_of_name Text (lines_of lines.now) name.now }
{
    let mut segment = Segment::Text;
    for line in lines {
        if is_labelled(line, name) {
            return Some(segment);
        }
        segment = segment_after(&line.statement, segment);
    }
    None
}

/// Whether a line has a label of this name.
pub fn is_labelled(line: &Line, name: &[u8]) -> bool
    ensures { result ≡ has (line_of line.now).labels name.now }
{
    line.labels
        .as_slice()
        .iter()
        .any(|label| name == label.as_slice())
}

/// The segment that is open after a statement.
fn segment_after(statement: &Statement, segment: Segment) -> Segment
    ensures { result ≡ segment_after_need (need (statement_of statement.now)) segment }
{
    match statement {
        Statement::Directive(AsmDirective::ToText) => Segment::Text,
        Statement::Directive(AsmDirective::ToData) => Segment::Data,
        _ => segment,
    }
}

/// A line without a label.
fn without_label(statement: Statement) -> Line
    ensures { line_of result ≡ unlabelled (statement_of statement) }
{
    Line {
        labels: LineLabels::none(),
        statement,
    }
}

/// The statement of an instruction.
fn plain(instr: Instr) -> Statement
    ensures { statement_of result ≡ Instruction (Plain instr) }
{
    Statement::Instruction(AsmInstr::Plain(instr))
}

/// The instruction that puts the number of the exit into `$v0`.
fn exit_number() -> Instr
    ensures { result ≡ Imm Ori V0 ZERO (pos EXIT) }
{
    Instr::Imm {
        op: ImmOp::Ori,
        rt: Reg::new(V0),
        rs: Reg::new(ZERO),
        imm: EXIT as i32,
    }
}

/// The call of `main`, and an exit.
fn start_lines(alloc: Global) -> Result<Vec<Line>, AllocError>
    ensures { IfOk result (λ added. lines_of added.items ≡ added_lines) }
{
    let call = Line {
        labels: LineLabels::one(Label::new(alloc, b"__start")?),
        statement: Statement::Instruction(AsmInstr::ToJump {
            op: JumpOp::Jal,
            target: Label::new(alloc, b"main")?,
        }),
    };
    let mut lines = Vec::new(alloc);
    lines.push(without_label(Statement::Directive(AsmDirective::ToText)))?;
    lines.push(call)?;
    lines.push(without_label(plain(exit_number())))?;
    lines.push(without_label(plain(Instr::Syscall)))?;
    Ok(lines)
}
