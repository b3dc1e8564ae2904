//! The function `add_basic`: it adds the methods of a basic class to its dispatch table (the Cool manual, section 8).

ghost use Rattle.std.specs.Prelude.{◌≡◌, [], ◌<◌, IfSome, OnOk, length};
ghost use Rattle.cool_classes.specs.Features.{basic_methods};
ghost use Rattle.cool_layout.specs.Roots.{IsRooted};
ghost use Rattle.cool_layout.specs.SlotTables.{AreTables, Has, basic_own};

use crate::slots::{Table, add_method};
use cool_classes::{ClassTable, MethodRef, NamedMethod, basic_class_methods};
use std::alloc::{AllocError, Global};

/// Adds the methods of a basic class. Returns `Err` only if memory runs out.
pub(crate) fn add_basic(
    alloc: Global,
    t: &ClassTable,
    tables: &[Table],
    table: &mut Table,
    class: u32,
) -> Result<(), AllocError>
    requires rooted { IsRooted t.now }
    requires tables { AreTables t.now (length tables.now) tables.now }
    requires within { IfSome table.old.above (λ k. k < length tables.now) }
    requires table { Has t.now [] table.old }
    ensures above { table.new.above ≡ table.old.above }
    ensures table { OnOk result (Has t.now (basic_own (basic_methods class)) table.new) }
{
    let methods = basic_class_methods(class);
    for own in methods {
        let NamedMethod(name, method) = *own;
        add_method(alloc, t, tables, table, name, MethodRef::Basic(method))?;
    }
    Ok(())
}
