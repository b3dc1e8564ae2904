//! Functions that return the assembly labels of integers, strings and file names, and add each of these constants to the constant table.

ghost use Rattle.std.specs.Prelude.{◌≡◌, ◌<◌, ◌-◌, ◌^◌, length, IfOk, OnOk};
ghost use Rattle.cool_consts.specs.Constants.{Constants, with_integer, with_string};
ghost use Rattle.cool_consts.specs.Labels.{int_constant, string_constant};
ghost use Rattle.cool_codegen.specs.Asked.{Extends, Keeps};
ghost use Rattle.cool_codegen.specs.Code.{file_label, file_name, integer_label, string_label};
ghost use Rattle.cool_codegen.specs.CodeSettings.{context};

use crate::code_setting::CodeSetting;
use crate::label_text::{add_number, text_of};
use cool_consts::Consts;
use cool_syntax::Place;
use std::alloc::{AllocError, Global};

/// The label of an integer of the source.
pub fn int_label(alloc: Global, consts: &mut Consts, value: u32) -> Result<Vec<u8>, AllocError>
    requires few { length consts.old.integers < 2 ^ 32 - 1 }
    ensures label { IfOk result (λ label. (g : Constants) → Extends consts.new g → label.items ≡ integer_label g value) }
    ensures integers { OnOk result (consts.new.integers ≡ with_integer consts.old.integers value) }
    ensures strings { consts.new.strings ≡ consts.old.strings }
    ensures kept { Keeps consts.old consts.new }
{
    let number = consts.int(value)?;
    int_name(alloc, number)
}

/// The label of the integer of a number.
fn int_name(alloc: Global, number: u32) -> Result<Vec<u8>, AllocError>
    ensures { IfOk result (λ label. label.items ≡ int_constant number) }
{
    let mut name = text_of(alloc, b"int_const")?;
    add_number(&mut name, number)?;
    Ok(name)
}

/// The label of a string of the source.
pub fn string_label(alloc: Global, consts: &mut Consts, bytes: &[u8]) -> Result<Vec<u8>, AllocError>
    requires few { length consts.old.strings < 2 ^ 32 - 1 }
    ensures label { IfOk result (λ label. (g : Constants) → Extends consts.new g → label.items ≡ string_label g bytes.now) }
    ensures integers { consts.new.integers ≡ consts.old.integers }
    ensures strings { OnOk result (consts.new.strings ≡ with_string consts.old.strings bytes.now) }
    ensures kept { Keeps consts.old consts.new }
{
    let number = consts.string(bytes)?;
    string_name(alloc, number)
}

/// The label of the string of a number.
fn string_name(alloc: Global, number: u32) -> Result<Vec<u8>, AllocError>
    ensures { IfOk result (λ label. label.items ≡ string_constant number) }
{
    let mut name = text_of(alloc, b"str_const")?;
    add_number(&mut name, number)?;
    Ok(name)
}

/// The label of the name of the file of a place.
pub fn file_label(
    setting: &CodeSetting<'_>,
    consts: &mut Consts,
    at: Place,
) -> Result<Vec<u8>, AllocError>
    requires few { length consts.old.strings < 2 ^ 32 - 1 }
    requires file { at.file < length setting.now.names.now }
    ensures label { IfOk result (λ label. (g : Constants) → Extends consts.new g → label.items ≡ file_label (context setting.now) g at) }
    ensures integers { consts.new.integers ≡ consts.old.integers }
    ensures strings { OnOk result (consts.new.strings ≡ with_string consts.old.strings (file_name (context setting.now) at)) }
    ensures kept { Keeps consts.old consts.new }
{
    let name = setting.names[at.file as usize].as_str();
    string_label(setting.alloc, consts, name.as_bytes())
}
