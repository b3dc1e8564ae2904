//! Functions that write the lines of assembly of the tables of classes: the table of their names, that of their prototypes and initializers, and the dispatch
//! tables.

ghost use Rattle.std.specs.Prelude.{◌≡◌, ◌<◌, ◌++◌, ◌∷◌, [], map, flat_map, length, IfOk, OnOk};
ghost use Rattle.std.specs.List.{AllByRecursion};
ghost use Rattle.mips_isa.specs.Lines.{lines_of, item_of, Address};
ghost use Rattle.cool_classes.specs.Features.{HasMethod};
ghost use Rattle.cool_runtime.specs.LinesOfData.{words};
ghost use Rattle.cool_layout.specs.Labels as label;
ghost use Rattle.cool_layout.specs.LinesOfLayout as written;
ghost use Rattle.cool_layout.specs.Members as member;
ghost use Rattle.cool_layout.specs.Preorder.{preorder};
ghost use Rattle.cool_layout.specs.Roots.{IsRooted};
ghost use Rattle.cool_layout.specs.SlotTables.{AreTables};

use crate::labels::{initializer_label, method_label, name_label, prototype_label, table_label};
use crate::slots::Table;
use cool_classes::{ClassId, ClassTable, MethodRef};
use cool_runtime::{address, label_line, word_line};
use mips_isa::{Line, WordItem};
use std::alloc::{AllocError, Global};

/// The addresses of the names of classes.
fn name_addresses(alloc: Global, order: &[ClassId]) -> Result<Vec<WordItem>, AllocError>
    ensures { IfOk result (λ items. map item_of items.items ≡ map (λ c. Address (label.class_name c)) order.now) }
{
    let mut items = Vec::new(alloc);
    for class in order {
        let name = name_label(alloc, *class)?;
        items.push(address(alloc, name.as_slice())?)?;
    }
    Ok(items)
}

/// Adds the table of the names of classes. Returns `Err` only if memory runs out.
#[tactic(auto, unfolding(cool_runtime::specs::Labels::name_table))]
pub(crate) fn add_class_names(
    alloc: Global,
    lines: &mut Vec<Line>,
    order: &[ClassId],
) -> Result<(), AllocError>
    ensures { OnOk result (lines_of lines.new.items ≡ lines_of lines.old.items ++ written.class_names_lines order.now) }
{
    lines.push(label_line(alloc, b"class_nameTab")?)?;
    lines.push(word_line(alloc, name_addresses(alloc, order)?)?)?;
    Ok(())
}

/// Adds the addresses of the prototype and of the initializer of a class.
fn add_class_object(
    alloc: Global,
    lines: &mut Vec<Line>,
    t: &ClassTable,
    class: ClassId,
) -> Result<(), AllocError>
    requires within { class.0 < length t.now }
    ensures { OnOk result (lines_of lines.new.items ≡ lines_of lines.old.items ++ words (Address (label.prototype t.now class) ∷ Address (label.initializer t.now class) ∷ []) ∷ []) }
{
    let prototype = prototype_label(alloc, t, class)?;
    let initializer = initializer_label(alloc, t, class)?;
    let mut items = Vec::new(alloc);
    items.push(address(alloc, prototype.as_slice())?)?;
    items.push(address(alloc, initializer.as_slice())?)?;
    lines.push(word_line(alloc, items)?)?;
    Ok(())
}

/// Adds the table of the prototypes and the initializers of classes. Returns `Err` only if memory runs out.
#[tactic(auto, unfolding(cool_runtime::specs::RoutineLabels::class_objects))]
pub(crate) fn add_class_objects(
    alloc: Global,
    lines: &mut Vec<Line>,
    t: &ClassTable,
    order: &[ClassId],
) -> Result<(), AllocError>
    requires within { AllByRecursion (λ c. c.0 < length t.now) order.now }
    ensures { OnOk result (lines_of lines.new.items ≡ lines_of lines.old.items ++ written.class_objects_lines t.now order.now) }
{
    lines.push(label_line(alloc, b"class_objTab")?)?;
    for class in order {
        add_class_object(alloc, lines, t, *class)?;
    }
    Ok(())
}

/// The addresses of methods.
fn method_addresses(
    alloc: Global,
    t: &ClassTable,
    methods: &[MethodRef],
) -> Result<Vec<WordItem>, AllocError>
    requires has { AllByRecursion (HasMethod t.now) methods.now }
    ensures { IfOk result (λ items. map item_of items.items ≡ map (λ m. Address (label.method_label t.now m)) methods.now) }
{
    let mut items = Vec::new(alloc);
    for method in methods {
        let name = method_label(alloc, t, *method)?;
        items.push(address(alloc, name.as_slice())?)?;
    }
    Ok(items)
}

/// Adds the dispatch table of a class, which has these methods.
fn add_dispatch_table(
    alloc: Global,
    lines: &mut Vec<Line>,
    t: &ClassTable,
    class: ClassId,
    methods: &[MethodRef],
) -> Result<(), AllocError>
    requires rooted { IsRooted t.now }
    requires within { class.0 < length t.now }
    requires methods { methods.now ≡ member.methods t.now class }
    ensures { OnOk result (lines_of lines.new.items ≡ lines_of lines.old.items ++ written.dispatch_table_lines t.now class) }
{
    let name = table_label(alloc, t, class)?;
    lines.push(label_line(alloc, name.as_slice())?)?;
    lines.push(word_line(alloc, method_addresses(alloc, t, methods)?)?)?;
    Ok(())
}

/// Adds the dispatch tables of classes. Returns `Err` only if memory runs out.
pub(crate) fn add_dispatch_tables(
    alloc: Global,
    lines: &mut Vec<Line>,
    t: &ClassTable,
    order: &[ClassId],
    tables: &[Table],
) -> Result<(), AllocError>
    requires rooted { IsRooted t.now }
    requires order { order.now ≡ preorder t.now }
    requires tables { AreTables t.now (length t.now) tables.now }
    ensures { OnOk result (lines_of lines.new.items ≡ lines_of lines.old.items ++ flat_map (written.dispatch_table_lines t.now) order.now) }
{
    for tag in 0..order.len() {
        let methods = tables[tag].methods.as_slice();
        add_dispatch_table(alloc, lines, t, order[tag], methods)?;
    }
    Ok(())
}
