//! Functions that generate the code of an operation after the code of its operands, and the code of names, default values and new objects.

ghost use Rattle.std.specs.Prelude.{◌≡◌, ◌<◌, ◌-◌, ◌^◌, ◌++◌, length, OnOk};
ghost use Rattle.mips_isa.specs.Lines.{lines_of};
ghost use Rattle.cool_rules.specs.Conformance.{IsType};
ghost use Rattle.cool_consts.specs.Constants.{Constants, with_string};
ghost use Rattle.cool_codegen.specs.Asked.{Extends, Keeps};
ghost use Rattle.cool_codegen.specs.Code.{assign_code, bool_code, compare_code, default_code, divisor_code, file_name, int_code, name_code, new_code};
ghost use Rattle.cool_codegen.specs.CodeSettings.{context};
ghost use Rattle.cool_codegen.specs.Types.{is_self};

use crate::code_setting::CodeSetting;
use crate::constant_labels::file_label;
use crate::inner_labels::inner_label;
use crate::piece::{
    compare_equal, create, create_self, ends_where, flag, is_zero, less, less_equal, load, store,
    take, take_self, take_void, values,
};
use crate::variables::Variable;
use cool_classes::{BOOL, INT, STRING, Ty};
use cool_consts::Consts;
use cool_layout::{initializer_label, prototype_label};
use cool_rules::Scope;
use cool_runtime::draft::write;
use cool_runtime::piece::new_int;
use cool_syntax::{CompareOp, Name, NodeId, Place};
use mips_isa::Line;
use std::alloc::{AllocError, Global};

/// Adds the making of a Bool of a flag.
pub fn make_bool(
    setting: &CodeSetting<'_>,
    id: NodeId,
    lines: &mut Vec<Line>,
) -> Result<(), AllocError>
    ensures { OnOk result (lines_of lines.new.items ≡ lines_of lines.old.items ++ bool_code (context setting.now) id) }
{
    let end = inner_label(setting, "end", id)?;
    write(setting.alloc, lines, &flag(&end))?;
    Ok(())
}

/// Adds the making of an Int of a result, if it fits.
#[tactic(auto, unfolding(cool_runtime::specs::RoutineLabels::overflow_abort))]
pub fn make_int(
    setting: &CodeSetting<'_>,
    at: Place,
    id: NodeId,
    consts: &mut Consts,
    lines: &mut Vec<Line>,
) -> Result<(), AllocError>
    requires few { length consts.old.strings < 2 ^ 32 - 1 }
    requires file { at.file < length setting.now.names.now }
    ensures lines { OnOk result ((g : Constants) → Extends consts.new g → lines_of lines.new.items ≡ lines_of lines.old.items ++ int_code (context setting.now) g at id) }
    ensures integers { consts.new.integers ≡ consts.old.integers }
    ensures strings { OnOk result (consts.new.strings ≡ with_string consts.old.strings (file_name (context setting.now) at)) }
    ensures kept { Keeps consts.old consts.new }
{
    let file = file_label(setting, consts, at)?;
    let fits = inner_label(setting, "fits", id)?;
    write(
        setting.alloc,
        lines,
        &ends_where(&fits, &file, at.line, b"overflow_abort"),
    )?;
    write(setting.alloc, lines, &new_int())?;
    Ok(())
}

/// Adds the comparison of two operands.
pub fn compare(
    setting: &CodeSetting<'_>,
    op: CompareOp,
    id: NodeId,
    lines: &mut Vec<Line>,
) -> Result<(), AllocError>
    ensures { OnOk result (lines_of lines.new.items ≡ lines_of lines.old.items ++ compare_code (context setting.now) op id) }
{
    let alloc = setting.alloc;
    match op {
        CompareOp::Equal => {
            write(alloc, lines, &compare_equal())?;
            Ok(())
        }
        CompareOp::Less => {
            write(alloc, lines, &values())?;
            write(alloc, lines, &less())?;
            make_bool(setting, id, lines)?;
            Ok(())
        }
        CompareOp::LessEqual => {
            write(alloc, lines, &values())?;
            write(alloc, lines, &less_equal())?;
            make_bool(setting, id, lines)?;
            Ok(())
        }
    }
}

/// Whether this is the name `self`.
fn is_self(name: &Name) -> bool
    ensures { result ≡ is_self name.now }
{
    name.as_slice() == b"self".as_slice()
}

/// Adds the load of a name: of `self`, or of a variable.
pub fn take_name(
    alloc: Global,
    variables: &Scope<'_, Variable>,
    name: &Name,
    lines: &mut Vec<Line>,
) -> Result<(), AllocError>
    ensures { OnOk result (lines_of lines.new.items ≡ lines_of lines.old.items ++ name_code variables.now name.now) }
{
    if is_self(name) {
        write(alloc, lines, &take_self())?;
        return Ok(());
    }
    if let Some(variable) = variables.find(name) {
        write(
            alloc,
            lines,
            &load(variable.offset, variable.base.register()),
        )?;
    }
    Ok(())
}

/// Adds the store of a value to a name.
pub fn assign(
    alloc: Global,
    variables: &Scope<'_, Variable>,
    name: &Name,
    lines: &mut Vec<Line>,
) -> Result<(), AllocError>
    ensures { OnOk result (lines_of lines.new.items ≡ lines_of lines.old.items ++ assign_code variables.now name.now) }
{
    if is_self(name) {
        return Ok(());
    }
    if let Some(variable) = variables.find(name) {
        write(
            alloc,
            lines,
            &store(variable.offset, variable.base.register()),
        )?;
    }
    Ok(())
}

/// Adds the test that a divisor is not 0.
#[tactic(auto, unfolding(cool_runtime::specs::Labels::div_abort))]
pub fn test_divisor(
    setting: &CodeSetting<'_>,
    at: Place,
    id: NodeId,
    consts: &mut Consts,
    lines: &mut Vec<Line>,
) -> Result<(), AllocError>
    requires few { length consts.old.strings < 2 ^ 32 - 1 }
    requires file { at.file < length setting.now.names.now }
    ensures lines { OnOk result ((g : Constants) → Extends consts.new g → lines_of lines.new.items ≡ lines_of lines.old.items ++ divisor_code (context setting.now) g at id) }
    ensures integers { consts.new.integers ≡ consts.old.integers }
    ensures strings { OnOk result (consts.new.strings ≡ with_string consts.old.strings (file_name (context setting.now) at)) }
    ensures kept { Keeps consts.old consts.new }
{
    let file = file_label(setting, consts, at)?;
    let some = inner_label(setting, "some", id)?;
    write(setting.alloc, lines, &is_zero())?;
    write(
        setting.alloc,
        lines,
        &ends_where(&some, &file, at.line, b"div_abort"),
    )?;
    Ok(())
}

/// Adds the code for the default value of a variable of this type.
#[tactic(auto, unfolding(cool_runtime::specs::RoutineLabels::default_int, cool_runtime::specs::RoutineLabels::default_string, cool_runtime::specs::Labels::false_constant))]
pub fn take_default(alloc: Global, bound: Ty, lines: &mut Vec<Line>) -> Result<(), AllocError>
    ensures { OnOk result (lines_of lines.new.items ≡ lines_of lines.old.items ++ default_code bound) }
{
    match bound {
        Ty::Class(INT) => write(alloc, lines, &take(b"__default_int"))?,
        Ty::Class(BOOL) => write(alloc, lines, &take(b"bool_const0"))?,
        Ty::Class(STRING) => write(alloc, lines, &take(b"__default_string"))?,
        _ => write(alloc, lines, &take_void())?,
    }
    Ok(())
}

/// Adds the making of an object of a type.
pub fn take_new(
    setting: &CodeSetting<'_>,
    made: Ty,
    lines: &mut Vec<Line>,
) -> Result<(), AllocError>
    requires is_type { IsType setting.now.table.now made }
    ensures { OnOk result (lines_of lines.new.items ≡ lines_of lines.old.items ++ new_code setting.now.table.now made) }
{
    let alloc = setting.alloc;
    match made {
        Ty::SelfType => write(alloc, lines, &create_self())?,
        Ty::Class(class) => {
            let object = prototype_label(alloc, setting.table, class)?;
            let values = initializer_label(alloc, setting.table, class)?;
            write(alloc, lines, &create(&object, &values))?;
        }
    }
    Ok(())
}
