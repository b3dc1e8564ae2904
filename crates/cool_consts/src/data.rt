//! Generates the data lines of constants: their Int and String objects, with labels.

ghost use Rattle.std.specs.Prelude.{◌≡◌, ℕ, ◌++◌, List, map, codes, decimal, OnOk, IfOk};
ghost use Rattle.std.specs.Global.{Vec as Bytes};
ghost use Rattle.mips_isa.specs.Lines.{lines_of};
ghost use Rattle.cool_consts.specs.Labels as label;
ghost use Rattle.cool_consts.specs.LinesOfConstants.{integers_lines, strings_lines};

use cool_runtime::{StringTags, int_object, string_object};
use mips_isa::Line;
use std::alloc::{AllocError, Global};

/// The label of an integer.
fn int_constant(alloc: Global, number: usize) -> Result<Vec<u8>, AllocError>
    ensures { IfOk result (λ name. name.items ≡ label.int_constant number) }
{
    Ok(format!(in alloc; "int_const{number}")?.into_bytes())
}

/// The label of a string.
fn string_constant(alloc: Global, number: usize) -> Result<Vec<u8>, AllocError>
    ensures { IfOk result (λ name. name.items ≡ label.string_constant number) }
{
    Ok(format!(in alloc; "str_const{number}")?.into_bytes())
}

/// The label of the Int of the length of a string.
fn string_length(alloc: Global, number: usize) -> Result<Vec<u8>, AllocError>
    ensures { IfOk result (λ name. name.items ≡ label.string_length number) }
{
    Ok(format!(in alloc; "__length{number}")?.into_bytes())
}

/// Adds the objects of integers, with numbers from 0.
pub(crate) fn add_integers(
    alloc: Global,
    lines: &mut Vec<Line>,
    tag: u32,
    integers: &[u32],
) -> Result<(), AllocError>
    ensures { OnOk result (lines_of lines.new.items ≡ lines_of lines.old.items ++ integers_lines tag 0 integers.now) }
{
    for index in 0..integers.len() {
        let name = int_constant(alloc, index)?;
        let mut int = int_object(alloc, name.as_slice(), tag, integers[index] as usize)?;
        lines.append(&mut int)?;
    }
    Ok(())
}

/// Adds the objects of strings and of their lengths, with numbers from 0.
pub(crate) fn add_strings(
    alloc: Global,
    lines: &mut Vec<Line>,
    tags: StringTags,
    strings: &[Vec<u8>],
) -> Result<(), AllocError>
    ensures { OnOk result (lines_of lines.new.items ≡ lines_of lines.old.items ++ strings_lines tags.int tags.string 0 (map (λ (v : Bytes ℕ). v.items) strings.now)) }
{
    for index in 0..strings.len() {
        let name = string_constant(alloc, index)?;
        let length_name = string_length(alloc, index)?;
        let mut string = string_object(
            alloc,
            name.as_slice(),
            length_name.as_slice(),
            tags,
            strings[index].as_slice(),
        )?;
        lines.append(&mut string)?;
    }
    Ok(())
}
