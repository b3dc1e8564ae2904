//! Makes the assembly lines of objects and texts in the data segment.

ghost use Rattle.std.specs.Prelude.{◌≡◌, ◌<◌, ◌^◌, map, IfOk};
ghost use Rattle.mips_isa.specs.Lines.{lines_of, line_of, item_of, Asciiz};
ghost use Rattle.mips_isa.specs.Assembly.{data_line};
ghost use Rattle.cool_runtime.specs.Instructions as instructions;
ghost use Rattle.cool_runtime.specs.LinesOfData as written;

use crate::draft::{full_line, label, unlabelled};
use mips_isa::{AsmDirective, DataItem, Label, Line, Statement, WordItem};
use std::alloc::{AllocError, Global};

/// A word that is a number.
pub fn number(value: usize) -> WordItem
    requires { value < 2 ^ 63 }
    ensures { item_of result ≡ written.number value }
{
    WordItem::Number(value as i64)
}

/// A word that is the address of a label. Returns `Err` only if memory runs out.
pub fn address(alloc: Global, name: &[u8]) -> Result<WordItem, AllocError>
    ensures { IfOk result (λ item. item_of item ≡ written.address name.now) }
{
    Ok(WordItem::Address(Label::new(alloc, name)?))
}

/// A line with only a label. Returns `Err` only if memory runs out.
pub fn label_line(alloc: Global, name: &[u8]) -> Result<Line, AllocError>
    ensures { IfOk result (λ line. line_of line ≡ instructions.label name.now) }
{
    full_line(alloc, &label(name))
}

/// A line of words. Returns `Err` only if memory runs out.
pub fn word_line(alloc: Global, items: Vec<WordItem>) -> Result<Line, AllocError>
    ensures { IfOk result (λ line. line_of line ≡ written.words (map item_of items.items)) }
{
    let statement = Statement::of_item(alloc, DataItem::Word(items))?;
    Ok(unlabelled(statement))
}

/// A line of bytes and a zero. Returns `Err` only if memory runs out.
fn text_line(alloc: Global, bytes: &[u8]) -> Result<Line, AllocError>
    ensures { IfOk result (λ line. line_of line ≡ data_line (Asciiz bytes.now)) }
{
    let item = DataItem::Asciiz(Vec::from_slice(alloc, bytes)?);
    let statement = Statement::of_item(alloc, item)?;
    Ok(unlabelled(statement))
}

/// Bytes and a zero under a label. Returns `Err` only if memory runs out.
pub fn labelled_text(alloc: Global, name: &[u8], bytes: &[u8]) -> Result<Vec<Line>, AllocError>
    ensures { IfOk result (λ lines. lines_of lines.items ≡ written.text_lines name.now bytes.now) }
{
    let first = label_line(alloc, name)?;
    let text = text_line(alloc, bytes)?;
    Ok(vec![in alloc; first, text]?)
}

/// The words of an object: its head, and the words after that.
fn object_words(
    alloc: Global,
    tag: u32,
    size: usize,
    table: &[u8],
    fields: Vec<WordItem>,
) -> Result<Vec<WordItem>, AllocError>
    requires { size < 2 ^ 63 }
    ensures { IfOk result (λ items. map item_of items.items ≡ written.object_words tag size table.now (map item_of fields.items)) }
{
    let mut items = Vec::new(alloc);
    items.push(number(tag as usize))?;
    items.push(number(size))?;
    items.push(address(alloc, table)?)?;
    for field in fields {
        items.push(field)?;
    }
    Ok(items)
}

/// An object with a tag, a size in words and a dispatch table, and the fields after its head. Returns `Err` only if memory runs out.
pub fn object(
    alloc: Global,
    name: &[u8],
    tag: u32,
    size: usize,
    table: &[u8],
    fields: Vec<WordItem>,
) -> Result<Vec<Line>, AllocError>
    requires { size < 2 ^ 63 }
    ensures { IfOk result (λ lines. lines_of lines.items ≡ written.object_lines name.now tag size table.now (map item_of fields.items)) }
{
    let mut lines = Vec::new(alloc);
    lines.push(word_line(alloc, vec![in alloc; WordItem::Number(-1)]?)?)?;
    lines.push(label_line(alloc, name)?)?;
    lines.push(word_line(alloc, object_words(alloc, tag, size, table, fields)?)?)?;
    Ok(lines)
}

/// An object that holds one number.
fn number_object(
    alloc: Global,
    name: &[u8],
    tag: u32,
    table: &[u8],
    value: usize,
) -> Result<Vec<Line>, AllocError>
    requires { value < 2 ^ 63 }
    ensures { IfOk result (λ lines. lines_of lines.items ≡ written.number_lines name.now tag table.now value) }
{
    let fields = vec![in alloc; number(value)]?;
    object(alloc, name, tag, 4, table, fields)
}

/// An Int. Returns `Err` only if memory runs out.
#[tactic(auto, unfolding(crate::specs::Labels::int_table))]
pub fn int_object(
    alloc: Global,
    name: &[u8],
    tag: u32,
    value: usize,
) -> Result<Vec<Line>, AllocError>
    requires { value < 2 ^ 63 }
    ensures { IfOk result (λ lines. lines_of lines.items ≡ written.int_lines name.now tag value) }
{
    number_object(alloc, name, tag, b"Int_dispTab", value)
}

/// A Bool. Returns `Err` only if memory runs out.
#[tactic(auto, unfolding(crate::specs::Labels::bool_table))]
pub fn bool_object(
    alloc: Global,
    name: &[u8],
    tag: u32,
    value: usize,
) -> Result<Vec<Line>, AllocError>
    requires { value < 2 ^ 63 }
    ensures { IfOk result (λ lines. lines_of lines.items ≡ written.bool_lines name.now tag value) }
{
    number_object(alloc, name, tag, b"Bool_dispTab", value)
}

/// The tags of the classes Int and String.
#[derive(Clone, Copy)]
pub struct StringTags {
    pub int: u32,
    pub string: u32,
}

/// A String without its bytes.
#[tactic(auto, unfolding(crate::specs::Labels::string_table))]
fn string_head(
    alloc: Global,
    name: &[u8],
    length_name: &[u8],
    tag: u32,
    size: usize,
) -> Result<Vec<Line>, AllocError>
    requires { size < 2 ^ 63 }
    ensures { IfOk result (λ lines. lines_of lines.items ≡ written.string_head_lines name.now length_name.now tag size) }
{
    let fields = vec![in alloc; address(alloc, length_name)?]?;
    object(alloc, name, tag, size, b"String_dispTab", fields)
}

/// A String, and in front of it the Int of its length. Returns `Err` only if memory runs out.
pub fn string_object(
    alloc: Global,
    name: &[u8],
    length_name: &[u8],
    tags: StringTags,
    bytes: &[u8],
) -> Result<Vec<Line>, AllocError>
    ensures { IfOk result (λ lines. lines_of lines.items ≡ written.string_lines name.now length_name.now tags.int tags.string bytes.now) }
{
    let length = bytes.len();
    let mut lines = int_object(alloc, length_name, tags.int, length)?;
    lines.append(&mut string_head(alloc, name, length_name, tags.string, length / 4 + 5)?)?;
    lines.push(text_line(alloc, bytes)?)?;
    lines.push(unlabelled(Statement::Directive(AsmDirective::Align(2))))?;
    Ok(lines)
}
