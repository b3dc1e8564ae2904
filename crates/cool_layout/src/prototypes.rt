//! Functions that write the lines of assembly of prototypes (the objects that `new` copies) and of the default values of attributes (the Cool manual, section
//! 5.1).

ghost use Rattle.std.specs.Prelude.{◌≡◌, ◌<◌, ◌++◌, map, flat_map, length, IfOk, OnOk};
ghost use Rattle.std.specs.List.{AllByRecursion};
ghost use Rattle.mips_isa.specs.Lines.{lines_of, item_of};
ghost use Rattle.cool_classes.specs.Features.{HasAttribute, attribute_type};
ghost use Rattle.cool_classes.specs.Chains.{name_of};
ghost use Rattle.cool_layout.specs.LinesOfLayout as written;
ghost use Rattle.cool_layout.specs.Members as member;
ghost use Rattle.cool_layout.specs.Preorder as place;
ghost use Rattle.cool_layout.specs.Roots.{IsRooted};
ghost use Rattle.cool_layout.specs.SlotTables.{AreTables};

use crate::attributes::next_attributes;
use crate::labels::{prototype_label, table_label};
use crate::slots::Table;
use cool_classes::{AttributeRef, BOOL, ClassId, ClassTable, INT, STRING, Ty};
use cool_runtime::{StringTags, address, int_object, number, object};
use mips_isa::{Line, WordItem};
use std::alloc::{AllocError, Global};

/// The words of an object's head: its tag, its size and its dispatch table.
const HEAD_WORDS: usize = 3;

/// The size in words of the String of no bytes.
const EMPTY_STRING_WORDS: usize = 5;

/// The default value of an attribute whose type is this class.
#[tactic(auto, unfolding(cool_runtime::specs::RoutineLabels::default_int, cool_runtime::specs::RoutineLabels::default_string, cool_runtime::specs::Labels::false_constant))]
fn default_of_class(alloc: Global, t: &ClassTable, class: ClassId) -> Result<WordItem, AllocError>
    requires rooted { IsRooted t.now }
    requires within { class.0 < length t.now }
    ensures { IfOk result (λ item. item_of item ≡ written.default_value (name_of t.now class)) }
{
    let _table = t;
    if class == INT {
        address(alloc, b"__default_int")
    } else if class == BOOL {
        address(alloc, b"bool_const0")
    } else if class == STRING {
        address(alloc, b"__default_string")
    } else {
        Ok(number(0))
    }
}

/// The default value of an attribute.
fn default_value(
    alloc: Global,
    t: &ClassTable,
    attribute: AttributeRef,
) -> Result<WordItem, AllocError>
    requires rooted { IsRooted t.now }
    requires has { HasAttribute t.now attribute }
    ensures { IfOk result (λ item. item_of item ≡ written.default_value (attribute_type t.now attribute)) }
{
    match t.attribute_type(attribute) {
        Ty::Class(class) => default_of_class(alloc, t, class),
        Ty::SelfType => Ok(number(0)),
    }
}

/// The default values of attributes.
fn default_values(
    alloc: Global,
    t: &ClassTable,
    attributes: &[AttributeRef],
) -> Result<Vec<WordItem>, AllocError>
    requires rooted { IsRooted t.now }
    requires have { AllByRecursion (HasAttribute t.now) attributes.now }
    ensures { IfOk result (λ fields. map item_of fields.items ≡ map (λ a. written.default_value (attribute_type t.now a)) attributes.now) }
{
    let mut fields = Vec::new(alloc);
    for attribute in attributes {
        fields.push(default_value(alloc, t, *attribute)?)?;
    }
    Ok(fields)
}

/// The fields after the head of a new object of a class with these attributes.
fn new_fields(
    alloc: Global,
    t: &ClassTable,
    class: ClassId,
    attributes: &[AttributeRef],
) -> Result<Vec<WordItem>, AllocError>
    requires rooted { IsRooted t.now }
    requires within { class.0 < length t.now }
    requires attributes { attributes.now ≡ member.attributes t.now class }
    ensures { IfOk result (λ fields. map item_of fields.items ≡ written.new_fields t.now class) }
{
    if class == INT || class == BOOL {
        Ok(vec![in alloc; number(0)]?)
    } else if class == STRING {
        empty_string_fields(alloc)
    } else {
        default_values(alloc, t, attributes)
    }
}

/// The fields after the head of the empty String: its length, and a zero.
#[tactic(auto, unfolding(cool_runtime::specs::RoutineLabels::default_int))]
fn empty_string_fields(alloc: Global) -> Result<Vec<WordItem>, AllocError>
    ensures { IfOk result (λ fields. map item_of fields.items ≡ written.empty_string_fields) }
{
    let mut fields = Vec::new(alloc);
    fields.push(address(alloc, b"__default_int")?)?;
    fields.push(number(0))?;
    Ok(fields)
}

/// Adds the prototype of a class with a tag and these attributes.
fn add_prototype(
    alloc: Global,
    lines: &mut Vec<Line>,
    t: &ClassTable,
    tag: u32,
    class: ClassId,
    attributes: &[AttributeRef],
) -> Result<(), AllocError>
    requires rooted { IsRooted t.now }
    requires within { class.0 < length t.now }
    requires tag { tag ≡ place.tag t.now class }
    requires attributes { attributes.now ≡ member.attributes t.now class }
    ensures { OnOk result (lines_of lines.new.items ≡ lines_of lines.old.items ++ written.prototype_lines t.now class) }
{
    let name = prototype_label(alloc, t, class)?;
    let table = table_label(alloc, t, class)?;
    let fields = new_fields(alloc, t, class, attributes)?;
    let size = HEAD_WORDS + fields.len();
    let mut prototype = object(alloc, name.as_slice(), tag, size, table.as_slice(), fields)?;
    lines.append(&mut prototype)
}

/// Adds the prototypes of classes. Returns `Err` only if memory runs out.
pub(crate) fn add_prototypes(
    alloc: Global,
    lines: &mut Vec<Line>,
    t: &ClassTable,
    order: &[ClassId],
    tables: &[Table],
) -> Result<(), AllocError>
    requires rooted { IsRooted t.now }
    requires order { order.now ≡ place.preorder t.now }
    requires tables { AreTables t.now (length t.now) tables.now }
    ensures { OnOk result (lines_of lines.new.items ≡ lines_of lines.old.items ++ flat_map (written.prototype_lines t.now) order.now) }
{
    let mut known = Vec::new(alloc);
    for tag in 0..order.len() {
        let class = order[tag];
        let above = tables[tag].above;
        let attributes = next_attributes(alloc, t, known.as_slice(), above, class)?;
        add_prototype(alloc, lines, t, tag as u32, class, attributes.as_slice())?;
        known.push(attributes)?;
    }
    Ok(())
}

/// Adds the Int 0 and the empty String. Returns `Err` only if memory runs out.
#[tactic(auto, unfolding(cool_runtime::specs::RoutineLabels::default_int, cool_runtime::specs::RoutineLabels::default_string, cool_runtime::specs::Labels::string_table))]
pub(crate) fn add_defaults(
    alloc: Global,
    lines: &mut Vec<Line>,
    t: &ClassTable,
    tags: StringTags,
) -> Result<(), AllocError>
    requires int { tags.int ≡ written.int_tag t.now }
    requires string { tags.string ≡ written.string_tag t.now }
    ensures { OnOk result (lines_of lines.new.items ≡ lines_of lines.old.items ++ written.default_lines t.now) }
{
    let _table = t;
    lines.append(&mut int_object(alloc, b"__default_int", tags.int, 0)?)?;
    let mut string = object(
        alloc,
        b"__default_string",
        tags.string,
        EMPTY_STRING_WORDS,
        b"String_dispTab",
        empty_string_fields(alloc)?,
    )?;
    lines.append(&mut string)
}
