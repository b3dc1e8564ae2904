//! Writes a row of the debug information: a class, a name, a feature or an expression.

ghost use Rattle.std.specs.Prelude.{◌≡◌, ◌++◌, ◌<◌, codes, length, IfOk};
ghost use Rattle.std.specs.Option.{option_map};
ghost use Rattle.cool_classes.specs.Chains.{name_of};
ghost use Rattle.cool_codegen.specs.Shown.{shown_of};
ghost use Rattle.cool_rules.specs.Scopes.{binding_of};
ghost use Rattle.cool_emit.specs.CodeTables.{class_row, code_row};
ghost use Rattle.cool_emit.specs.TableLines.{arith_word, base_text, compare_word, form_word, latest_text, named_text, place_text, range_text, row_line, shown_text, type_text};

use cool_classes::{ClassId, ClassTable, Ty};
use cool_codegen::{Base, Form, Span, Variable};
use cool_rules::Entry;
use cool_syntax::{ArithOp, CompareOp, Place};
use std::alloc::{AllocError, Global};

/// The number of bytes that suffices for most lines.
const USUAL_BYTES: usize = 64;

/// These bytes, with room for a line. Returns `Err` only if memory runs out.
fn with_room(alloc: Global, bytes: &[u8]) -> Result<Vec<u8>, AllocError>
    ensures { IfOk result (λ text. text.items ≡ bytes.now) }
{
    let mut text = Vec::with_capacity(alloc, USUAL_BYTES)?;
    text.extend_from_slice(bytes)?;
    Ok(text)
}

/// The line of a class. Returns `Err` only if memory runs out.
pub(crate) fn class_line(
    alloc: Global,
    table: &ClassTable,
    c: ClassId,
) -> Result<Vec<u8>, AllocError>
    requires within { c.0 < length table.now }
    ensures { IfOk result (λ line. line.items ≡ row_line table.now (class_row (name_of table.now c))) }
{
    let mut line = with_room(alloc, b"class ")?;
    line.extend_from_slice(table.name(c).as_slice())?;
    line.extend_from_slice(b"\n")?;
    Ok(line)
}

/// The line of a name, an attribute or a formal, as these words say, with its variable. Returns `Err` only if memory runs out.
pub(crate) fn named_line(
    alloc: Global,
    table: &ClassTable,
    words: &[u8],
    entry: &Entry<'_, Variable>,
) -> Result<Vec<u8>, AllocError>
    ensures { IfOk result (λ line. line.items ≡ words.now ++ (named_text table.now (binding_of entry.now) ++ codes "\n")) }
{
    let mut line = with_room(alloc, words)?;
    line.extend_from_slice(&named_text(alloc, table, entry)?)?;
    line.extend_from_slice(b"\n")?;
    Ok(line)
}

/// The line of a feature, an initial value or a method, as these words say, between these addresses. Returns `Err` only if memory runs out.
pub(crate) fn feature_line(
    alloc: Global,
    words: &[u8],
    from: u32,
    to: u32,
    name: &[u8],
) -> Result<Vec<u8>, AllocError>
    ensures { IfOk result (λ line. line.items ≡ words.now ++ (range_text from to ++ (codes " " ++ (name.now ++ codes "\n")))) }
{
    let mut line = with_room(alloc, words)?;
    line.extend_from_slice(&range_text(alloc, from, to)?)?;
    line.extend_from_slice(b" ")?;
    line.extend_from_slice(name)?;
    line.extend_from_slice(b"\n")?;
    Ok(line)
}

/// The line of an expression between these addresses. Returns `Err` only if memory runs out.
pub(crate) fn code_line(
    alloc: Global,
    table: &ClassTable,
    from: u32,
    to: u32,
    span: &Span<'_>,
) -> Result<Vec<u8>, AllocError>
    ensures { IfOk result (λ line. line.items ≡ row_line table.now (code_row from to (shown_of span.now))) }
{
    let mut line = with_room(alloc, b"code ")?;
    line.extend_from_slice(&range_text(alloc, from, to)?)?;
    line.extend_from_slice(b" ")?;
    line.extend_from_slice(&span_text(alloc, table, span)?)?;
    line.extend_from_slice(b"\n")?;
    Ok(line)
}

/// An expression, and what is in scope where it begins. Returns `Err` only if memory runs out.
fn span_text(alloc: Global, table: &ClassTable, span: &Span<'_>) -> Result<Vec<u8>, AllocError>
    ensures { IfOk result (λ text. text.items ≡ shown_text table.now (shown_of span.now)) }
{
    let depth = span.depth;
    let names = span.names;
    let mut text = with_room(alloc, form_word(span.form))?;
    text.extend_from_slice(b" ")?;
    text.extend_from_slice(&place_text(alloc, span.at)?)?;
    text.extend_from_slice(format!(in alloc; " {depth} {names}")?.as_bytes())?;
    text.extend_from_slice(&latest_text(alloc, table, span.latest)?)?;
    Ok(text)
}

/// The name that was entered last, if there is one. Returns `Err` only if memory runs out.
fn latest_text(
    alloc: Global,
    table: &ClassTable,
    latest: Option<Entry<'_, Variable>>,
) -> Result<Vec<u8>, AllocError>
    ensures { IfOk result (λ text. text.items ≡ latest_text table.now (option_map binding_of latest.entry)) }
{
    match latest {
        Some(entry) => {
            let mut text = with_room(alloc, b" ")?;
            text.extend_from_slice(&named_text(alloc, table, &entry)?)?;
            Ok(text)
        }
        None => Ok(Vec::new(alloc)),
    }
}

/// A name, where its word is, and its type. Returns `Err` only if memory runs out.
fn named_text(
    alloc: Global,
    table: &ClassTable,
    entry: &Entry<'_, Variable>,
) -> Result<Vec<u8>, AllocError>
    ensures { IfOk result (λ text. text.items ≡ named_text table.now (binding_of entry.now)) }
{
    let variable = entry.value;
    let offset = variable.offset;
    let mut text = with_room(alloc, entry.name)?;
    text.extend_from_slice(format!(in alloc; " {offset}(")?.as_bytes())?;
    text.extend_from_slice(base_text(variable.base))?;
    text.extend_from_slice(b") ")?;
    text.extend_from_slice(type_text(table, variable.ty))?;
    Ok(text)
}

/// The word of a form of expression.
fn form_word(form: Form) -> &'static [u8]
    ensures { result.now ≡ form_word form }
{
    match form {
        Form::Name => b"name",
        Form::Assign => b"assign",
        Form::Call => b"call",
        Form::StaticCall => b"static",
        Form::If => b"if",
        Form::While => b"while",
        Form::Block => b"block",
        Form::Let => b"let",
        Form::Case => b"case",
        Form::New => b"new",
        Form::IsVoid => b"isvoid",
        Form::Arith(op) => arith_word(op),
        Form::Neg => b"~",
        Form::Compare(op) => compare_word(op),
        Form::Not => b"not",
        Form::Integer => b"integer",
        Form::String => b"string",
        Form::Bool => b"bool",
    }
}

/// The sign of an operator on numbers.
pub fn arith_word(op: ArithOp) -> &'static [u8]
    ensures { result.now ≡ arith_word op }
{
    match op {
        ArithOp::Add => b"+",
        ArithOp::Sub => b"-",
        ArithOp::Mul => b"*",
        ArithOp::Div => b"/",
    }
}

/// The sign of a comparison.
pub fn compare_word(op: CompareOp) -> &'static [u8]
    ensures { result.now ≡ compare_word op }
{
    match op {
        CompareOp::Less => b"<",
        CompareOp::LessEqual => b"<=",
        CompareOp::Equal => b"=",
    }
}

/// The register from which a word is addressed: the frame, or self.
fn base_text(base: Base) -> &'static [u8]
    ensures { result.now ≡ base_text base }
{
    match base {
        Base::Frame => b"$fp",
        Base::Object => b"$s0",
    }
}

/// A type: a class of the table, or `SELF_TYPE`.
pub fn type_text(table: &ClassTable, ty: Ty) -> &[u8]
    ensures { result.now ≡ type_text table.now ty }
{
    match ty {
        Ty::SelfType => b"SELF_TYPE",
        Ty::Class(c) => {
            if c.0 < table.count() {
                table.name(c).as_slice()
            } else {
                b""
            }
        }
    }
}

/// A place: the number of its file, its line and its byte. Returns `Err` only if memory runs out.
pub fn place_text(alloc: Global, at: Place) -> Result<Vec<u8>, AllocError>
    ensures { IfOk result (λ text. text.items ≡ place_text at) }
{
    let Place { file, line, byte } = at;
    Ok(format!(in alloc; "{file}:{line}:{byte}")?.into_bytes())
}

/// Two addresses. Returns `Err` only if memory runs out.
fn range_text(alloc: Global, from: u32, to: u32) -> Result<Vec<u8>, AllocError>
    ensures { IfOk result (λ text. text.items ≡ range_text from to) }
{
    Ok(format!(in alloc; "{from} {to}")?.into_bytes())
}
