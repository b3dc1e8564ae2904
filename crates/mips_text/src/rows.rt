//! Printing a line of assembly: a mnemonic or a directive, and its operands with the separators between them.

ghost use Rattle.std.specs.Prelude.{◌≡◌, ◌++◌, ◌∷◌, [], OnOk, map};
ghost use Rattle.std.specs.Fmt.{signed_decimal};
ghost use Rattle.mips_isa.specs.Lines.{item_of};
ghost use Rattle.mips_text.specs.declared.directives.Directive.TheVariants.{Byte, Word};
ghost use Rattle.mips_text.specs.Names.{directive_text};
ghost use Rattle.mips_text.specs.Printing.{directed_text, ended_text, item_operand, memory_operand, registers_text, string_operand};
ghost use Rattle.mips_text.specs.Spelling.{gap_text, letter_text, register_operand};

use crate::directives::Directive;
use crate::mnemonics::Mnemonic;
use crate::registers::register_name;
use mips_isa::{Label, Reg, WordItem};
use std::alloc::AllocError;

/// Writes a mnemonic and registers.
pub(crate) fn put_registers(
    out: &mut Vec<u8>,
    mnemonic: Mnemonic,
    registers: &[Reg],
) -> Result<(), AllocError>
    ensures { OnOk result (out.new.items ≡ out.old.items ++ registers_text mnemonic registers.now) }
{
    out.extend_from_slice(mnemonic.name().as_bytes())?;
    for (index, register) in registers.iter().enumerate() {
        put_gap(out, index)?;
        put_register(out, *register)?;
    }
    Ok(())
}

/// Writes a mnemonic, registers, and a number.
pub(crate) fn put_numbered(
    out: &mut Vec<u8>,
    mnemonic: Mnemonic,
    registers: &[Reg],
    value: i64,
) -> Result<(), AllocError>
    ensures { OnOk result (out.new.items ≡ out.old.items ++ ended_text mnemonic registers.now (signed_decimal value)) }
{
    put_registers(out, mnemonic, registers)?;
    put_gap(out, registers.len())?;
    put_number(out, value)
}

/// Writes a mnemonic, registers, and a label.
pub(crate) fn put_named(
    out: &mut Vec<u8>,
    mnemonic: Mnemonic,
    registers: &[Reg],
    label: &Label,
) -> Result<(), AllocError>
    ensures { OnOk result (out.new.items ≡ out.old.items ++ ended_text mnemonic registers.now label.now) }
{
    put_registers(out, mnemonic, registers)?;
    put_gap(out, registers.len())?;
    out.extend_from_slice(label.as_slice())
}

/// Writes a mnemonic, a register, and an operand in memory.
pub(crate) fn put_in_memory(
    out: &mut Vec<u8>,
    mnemonic: Mnemonic,
    register: Reg,
    offset: i32,
    base: Reg,
) -> Result<(), AllocError>
    ensures { OnOk result (out.new.items ≡ out.old.items ++ ended_text mnemonic (register ∷ []) (memory_operand offset base)) }
{
    put_numbered(out, mnemonic, &[register], i64::from(offset))?;
    out.extend_from_slice(b"(")?;
    put_register(out, base)?;
    out.extend_from_slice(b")")
}

/// Writes a directive without operands.
pub(crate) fn put_directive(out: &mut Vec<u8>, directive: Directive) -> Result<(), AllocError>
    ensures { OnOk result (out.new.items ≡ out.old.items ++ directive_text directive) }
{
    out.extend_from_slice(directive.name().as_bytes())
}

/// Writes a directive and a label.
pub(crate) fn put_directive_named(
    out: &mut Vec<u8>,
    directive: Directive,
    label: &Label,
) -> Result<(), AllocError>
    ensures { OnOk result (out.new.items ≡ out.old.items ++ directed_text directive (label.now ∷ [])) }
{
    put_directive(out, directive)?;
    put_gap(out, 0)?;
    out.extend_from_slice(label.as_slice())
}

/// Writes a directive and a number.
pub(crate) fn put_directive_numbered(
    out: &mut Vec<u8>,
    directive: Directive,
    value: i64,
) -> Result<(), AllocError>
    ensures { OnOk result (out.new.items ≡ out.old.items ++ directed_text directive (signed_decimal value ∷ [])) }
{
    put_directive(out, directive)?;
    put_gap(out, 0)?;
    put_number(out, value)
}

/// Writes `.word` and its operands.
pub(crate) fn put_words(out: &mut Vec<u8>, items: &[WordItem]) -> Result<(), AllocError>
    ensures { OnOk result (out.new.items ≡ out.old.items ++ directed_text Word (map item_operand (map item_of items.now))) }
{
    put_directive(out, Directive::Word)?;
    for (index, item) in items.iter().enumerate() {
        put_gap(out, index)?;
        put_item(out, item)?;
    }
    Ok(())
}

/// Writes an operand of `.word`.
fn put_item(out: &mut Vec<u8>, item: &WordItem) -> Result<(), AllocError>
    ensures { OnOk result (out.new.items ≡ out.old.items ++ item_operand (item_of item.now)) }
{
    match item {
        WordItem::Number(value) => put_number(out, *value),
        WordItem::Address(label) => out.extend_from_slice(label.as_slice()),
    }
}

/// Writes `.byte` and its operands.
pub(crate) fn put_bytes(out: &mut Vec<u8>, values: &[i32]) -> Result<(), AllocError>
    ensures { OnOk result (out.new.items ≡ out.old.items ++ directed_text Byte (map signed_decimal values.now)) }
{
    put_directive(out, Directive::Byte)?;
    for (index, value) in values.iter().enumerate() {
        put_gap(out, index)?;
        put_number(out, i64::from(*value))?;
    }
    Ok(())
}

/// Writes a directive and a string in its quotes.
pub(crate) fn put_text(
    out: &mut Vec<u8>,
    directive: Directive,
    bytes: &[u8],
) -> Result<(), AllocError>
    ensures { OnOk result (out.new.items ≡ out.old.items ++ directed_text directive (string_operand bytes.now ∷ [])) }
{
    put_directive(out, directive)?;
    put_gap(out, 0)?;
    out.extend_from_slice(b"\"")?;
    for byte in bytes {
        put_letter(out, *byte)?;
    }
    out.extend_from_slice(b"\"")
}

/// Writes the text between the operand of this index, from 0, and the word before.
fn put_gap(out: &mut Vec<u8>, index: usize) -> Result<(), AllocError>
    ensures { OnOk result (out.new.items ≡ out.old.items ++ gap_text index) }
{
    if index == 0 {
        out.extend_from_slice(b" ")
    } else {
        out.extend_from_slice(b", ")
    }
}

fn put_register(out: &mut Vec<u8>, register: Reg) -> Result<(), AllocError>
    ensures { OnOk result (out.new.items ≡ out.old.items ++ register_operand register) }
{
    out.extend_from_slice(b"$")?;
    out.extend_from_slice(register_name(register).as_bytes())
}

fn put_number(out: &mut Vec<u8>, value: i64) -> Result<(), AllocError>
    ensures { OnOk result (out.new.items ≡ out.old.items ++ signed_decimal value) }
{
    let digits = value.to_string(*out.allocator())?;
    out.extend_from_slice(digits.as_bytes())
}

/// Writes a byte of a string, as an escape if it needs one.
fn put_letter(out: &mut Vec<u8>, byte: u8) -> Result<(), AllocError>
    ensures { OnOk result (out.new.items ≡ out.old.items ++ letter_text byte) }
{
    match byte {
        b'\n' => out.extend_from_slice(b"\\n"),
        b'\t' => out.extend_from_slice(b"\\t"),
        b'"' => out.extend_from_slice(b"\\\""),
        b'\\' => out.extend_from_slice(b"\\\\"),
        _ => out.extend_from_slice(&[byte]),
    }
}
