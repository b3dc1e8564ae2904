//! The function `inner_label`: it makes the assembly labels inside the code of a feature, such as the label of the end of a loop.

ghost use Rattle.std.specs.Prelude.{◌≡◌, ◌++◌, codes, decimal, IfOk, OnOk};
ghost use Rattle.cool_codegen.specs.Code.{label_at};
ghost use Rattle.cool_codegen.specs.CodeSettings.{context};

use crate::code_setting::CodeSetting;
use crate::label_text::{add_number, text_of};
use cool_syntax::NodeId;
use std::alloc::AllocError;

/// The label of a kind at a node. Returns `Err` only if memory runs out.
pub fn inner_label(setting: &CodeSetting<'_>, kind: &str, id: NodeId) -> Result<Vec<u8>, AllocError>
    ensures { IfOk result (λ label. label.items ≡ label_at (context setting.now) kind.now id) }
{
    let mut label = text_of(setting.alloc, kind.as_bytes())?;
    add_part(&mut label, setting.class.0)?;
    add_part(&mut label, setting.feature)?;
    add_part(&mut label, id.0)?;
    Ok(label)
}

/// Adds a number behind a `_`. Returns `Err` only if memory runs out.
fn add_part(label: &mut Vec<u8>, number: u32) -> Result<(), AllocError>
    ensures { OnOk result (label.new.items ≡ label.old.items ++ (codes "_" ++ decimal number)) }
{
    label.push(b'_')?;
    add_number(label, number)
}
