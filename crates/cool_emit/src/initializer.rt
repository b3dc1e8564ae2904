//! Generates the code of class initializers: the call of the parent's initializer, and the initial values of the attributes.

ghost use Rattle.std.specs.Prelude.{◌≡◌, ◌++◌, ◌<◌, ◌^◌, length, OnOk};
ghost use Rattle.mips_isa.specs.Lines.{lines_of};
ghost use Rattle.cool_classes.specs.Chains.{parent_of};
ghost use Rattle.cool_emit.specs.Additions.{Adds, files_of, IsSound};
ghost use Rattle.cool_layout.specs.Labels.{initializer};
ghost use Rattle.cool_codegen.specs.Pieces.{return_basic_lines};
ghost use Rattle.cool_emit.specs.Programs.{attributes_in, begin_code, end_code, initializer_code, parent_code};

use crate::emission::{Emission, Part};
use cool_classes::ClassId;
use cool_codegen::piece::{begin_init, call_init, leave, return_basic, take_self};
use cool_consts::Consts;
use cool_layout::initializer_label;
use cool_runtime::draft::write;
use cool_runtime::piece::enter;
use mips_isa::Line;
use std::alloc::{AllocError, Global};

/// The number of basic classes, which stand first.
pub(crate) const BASIC_CLASSES: u32 = 5;

/// Adds the initializer of a class. The one of a basic class does nothing. Returns `Err` only if memory runs out.
pub(crate) fn add_initializer(
    emission: &Emission<'_>,
    c: ClassId,
    consts: &mut Consts,
    lines: &mut Vec<Line>,
) -> Result<(), AllocError>
    requires sound { IsSound emission.now }
    requires class { c.0 < length emission.now.program.now }
    requires few_integers { length consts.old.integers < 2 ^ 30 }
    requires few_strings { length consts.old.strings < 2 ^ 30 }
    ensures { OnOk result (Adds (files_of emission.now) (attributes_in emission.now.program.now c) (λ g. initializer_code emission.now.program.now (files_of emission.now) g c) consts.old consts.new (lines_of lines.old.items) (lines_of lines.new.items)) }
{
    if c.0 < BASIC_CLASSES {
        return add_basic(emission, c, lines);
    }
    add_begin(emission, c, lines)?;
    emission.add_features(c, Part::Attributes, consts, lines)?;
    add_end(emission.alloc, lines)
}

/// Adds the initializer of a basic class. Returns `Err` only if memory runs out.
pub(crate) fn add_basic(
    emission: &Emission<'_>,
    c: ClassId,
    lines: &mut Vec<Line>,
) -> Result<(), AllocError>
    requires class { c.0 < length emission.now.program.now }
    ensures { OnOk result (lines_of lines.new.items ≡ lines_of lines.old.items ++ return_basic_lines (initializer emission.now.program.now c)) }
{
    let name = initializer_label(emission.alloc, emission.table(), c)?;
    write(emission.alloc, lines, &return_basic(name.as_slice()))
}

/// Adds what stands before the attributes in the initializer of a class that is not basic. Returns `Err` only if memory runs out.
pub(crate) fn add_begin(
    emission: &Emission<'_>,
    c: ClassId,
    lines: &mut Vec<Line>,
) -> Result<(), AllocError>
    requires class { c.0 < length emission.now.program.now }
    ensures { OnOk result (lines_of lines.new.items ≡ lines_of lines.old.items ++ begin_code emission.now.program.now c) }
{
    let alloc = emission.alloc;
    let name = initializer_label(alloc, emission.table(), c)?;
    write(alloc, lines, &begin_init(name.as_slice()))?;
    write(alloc, lines, &enter())?;
    add_parent(emission, c, lines)
}

/// Adds what stands behind the attributes there. Returns `Err` only if memory runs out.
pub(crate) fn add_end(alloc: Global, lines: &mut Vec<Line>) -> Result<(), AllocError>
    ensures { OnOk result (lines_of lines.new.items ≡ lines_of lines.old.items ++ end_code) }
{
    write(alloc, lines, &take_self())?;
    write(alloc, lines, &leave(12))
}

/// Adds the call of the parent's initializer, whose attributes come first. Returns `Err` only if memory runs out.
fn add_parent(emission: &Emission<'_>, c: ClassId, lines: &mut Vec<Line>) -> Result<(), AllocError>
    requires class { c.0 < length emission.now.program.now }
    ensures { OnOk result (lines_of lines.new.items ≡ lines_of lines.old.items ++ parent_code emission.now.program.now (parent_of emission.now.program.now c)) }
{
    match emission.table().parent(c) {
        Some(parent) => {
            let name = initializer_label(emission.alloc, emission.table(), parent)?;
            write(emission.alloc, lines, &call_init(name.as_slice()))
        }
        None => Ok(()),
    }
}
