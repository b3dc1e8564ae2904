//! The type `CodeSetting`, the constant context of code generation for one feature: its class and expression, the class table, and the layout with offsets and
//! slots.

ghost use Rattle.std.specs.Prelude.{◌≡◌, ◌<◌, ◌+◌, ◌-◌, ◌*◌, pos, length, unwrap_or, Contains};
ghost use Rattle.cool_classes.specs.ClimbedChains.{above};
ghost use Rattle.cool_classes.specs.Features.{attribute_type, HasAttribute};
ghost use Rattle.cool_rules.specs.Conformance.{IsType};
ghost use Rattle.cool_rules.specs.Rules.{type_meant};
ghost use Rattle.cool_layout.specs.Members.{attributes, offset, slot};
ghost use Rattle.cool_layout.specs.Preorder.{last_tag, tag};
ghost use Rattle.cool_codegen.specs.Code.{minus};
ghost use Rattle.cool_codegen.specs.CodeSettings.{IsSound};

use crate::number::{negative, signed};
use cool_classes::{AttributeRef, ClassId, ClassTable, Ty};
use cool_layout::Layout;
use cool_rules::NodeTypes;
use cool_syntax::{Body, Name};
use std::alloc::Global;

/// The wanted output for a feature: only the lines of its code, or the spans of its expressions too.
#[derive(Clone, Copy)]
pub enum Wanted {
    Lines,
    Spans,
}

/// The wanted output, the classes with their layout, the names of the files, the feature, and its expression with the types of its nodes.
#[derive(Clone, Copy)]
pub struct CodeSetting<'a> {
    pub alloc: Global,
    pub wanted: Wanted,
    pub table: &'a ClassTable,
    pub layout: &'a Layout,
    pub names: &'a [String],
    pub class: ClassId,
    pub feature: u32,
    pub body: &'a Body,
    pub types: &'a NodeTypes,
}

impl<'a> CodeSetting<'a> {
    /// The number of classes above a class.
    pub fn depth(&self, class: ClassId) -> u32
        requires sound { IsSound self.now }
        requires class { class.0 < length self.now.table.now }
        ensures { result ≡ length (above self.now.table.now class) }
    {
        self.table.depth(class)
    }

    /// The offset of the method of a name in the dispatch table of a class, in bytes.
    pub fn slot_offset(&self, class: ClassId, name: &Name) -> i32
        requires sound { IsSound self.now }
        requires class { class.0 < length self.now.table.now }
        ensures { result ≡ pos (4 * unwrap_or (slot self.now.table.now class name.now) 0) }
    {
        match self.layout.slot(class, name) {
            Some(slot) => signed(4 * slot),
            None => 0,
        }
    }

    /// The tag of a class, with the other sign.
    pub fn minus_tag(&self, class: ClassId) -> i32
        requires sound { IsSound self.now }
        requires class { class.0 < length self.now.table.now }
        ensures { result ≡ minus (tag self.now.table.now class) }
    {
        negative(self.layout.tag(class))
    }

    /// The number of tags of a class and those below it.
    pub fn tag_count(&self, class: ClassId) -> i32
        requires sound { IsSound self.now }
        requires class { class.0 < length self.now.table.now }
        ensures { result ≡ pos (last_tag self.now.table.now class - tag self.now.table.now class + 1) }
    {
        signed(self.layout.last_tag(class) - self.layout.tag(class) + 1)
    }

    /// The offset of an attribute in the objects of the class, in bytes.
    pub fn offset(&self, attribute: AttributeRef) -> i32
        requires sound { IsSound self.now }
        requires there { Contains (attributes self.now.table.now self.now.class) attribute }
        ensures { result ≡ pos (offset self.now.table.now self.now.class attribute) }
    {
        signed(self.layout.offset(self.class, attribute))
    }
}
