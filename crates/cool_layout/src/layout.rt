//! The type `Layout`: the tags of classes, the offsets of attributes and the slots of methods, with functions that look them up and write them as lines of
//! assembly.

ghost use Rattle.std.specs.Prelude.{◌≡◌, ◌<◌, ◌↔◌, ℕ, List, length, map, get_or, IfOk, IfSome, IsNone, Some, None, Contains, is_some};
ghost use Rattle.mips_isa.specs.Lines.{lines_of};
ghost use Rattle.cool_classes.specs.declared.class_id.ClassId as number;
ghost use Rattle.cool_classes.specs.Chains.{Class, Below, IsChain};
ghost use Rattle.cool_classes.specs.Features.{implementation};
ghost use Rattle.cool_classes.specs.Limits.{KeepsLimits};
ghost use Rattle.cool_layout.specs.Preorder.{tag, last_tag};
ghost use Rattle.cool_layout.specs.Members.{attributes, offset, slot};
ghost use Rattle.cool_layout.specs.Layouts.{IsLayoutOf};
ghost use Rattle.cool_layout.specs.LinesOfLayout.{layout_lines};

use crate::offsets::offsets_of;
use crate::order::preorder;
use crate::prototypes::{add_defaults, add_prototypes};
use crate::slots::{Table, find_slot, tables_of};
use crate::tables::{add_class_names, add_class_objects, add_dispatch_tables};
use crate::tags::{lasts_of, tags_of};
use crate::texts::{add_names, add_texts};
use cool_classes::{AttributeRef, ClassId, ClassTable, INT, STRING};
use cool_runtime::StringTags;
use cool_syntax::Name;
use mips_isa::Line;
use std::alloc::{AllocError, Global};

/// The run-time layout of the classes of a table.
#[derive(Drop)]
pub struct Layout {
    /// The classes in preorder.
    order: Vec<ClassId>,
    /// The tag of each class.
    tags: Vec<u32>,
    /// The last tag below each class.
    lasts: Vec<u32>,
    /// The offsets of the attributes of each class, by feature.
    offsets: Vec<Vec<u32>>,
    /// The methods of each class by slot, by the tag of the class.
    tables: Vec<Table>,
}

impl Layout {
    /// The layout of a table. Returns `Err` only if memory runs out.
    pub fn new(alloc: Global, t: &ClassTable) -> Result<Layout, AllocError>
        requires limits { KeepsLimits t.now }
        ensures { IfOk result (λ layout. IsLayoutOf layout t.now) }
    {
        let walk = preorder(alloc, t)?;
        let tags = tags_of(alloc, t, &walk)?;
        let lasts = lasts_of(alloc, t, &walk, tags.as_slice())?;
        let offsets = offsets_of(alloc, t, &walk, tags.as_slice())?;
        let tables = tables_of(alloc, t, &walk, tags.as_slice())?;
        Ok(Layout {
            order: walk.order,
            tags,
            lasts,
            offsets,
            tables,
        })
    }

    /// The tag of a class.
    pub fn tag(&self, c: ClassId) -> u32
        requires { (p : List Class) × IsLayoutOf self.now p × (c.0 < length p) }
        ensures { (p : List Class) → IsLayoutOf self.now p → c.0 < length p → result ≡ tag p c }
    {
        self.tags[c.0 as usize]
    }

    /// The greatest tag of a class and those below it.
    pub fn last_tag(&self, c: ClassId) -> u32
        requires { (p : List Class) × IsLayoutOf self.now p × (c.0 < length p) }
        ensures { (p : List Class) → IsLayoutOf self.now p → c.0 < length p → result ≡ last_tag p c }
    {
        self.lasts[c.0 as usize]
    }

    /// The offset of an attribute in the objects of the class, in bytes.
    pub fn offset(&self, c: ClassId, a: AttributeRef) -> u32
        requires { (p : List Class) × IsLayoutOf self.now p × (c.0 < length p) × Contains (attributes p c) a }
        ensures offset { (p : List Class) → IsLayoutOf self.now p → c.0 < length p → Contains (attributes p c) a → result ≡ offset p c a }
        ensures same { (p : List Class) (d : number.ClassId) → IsLayoutOf self.now p → c.0 < length p → d.0 < length p → Contains (attributes p c) a → Below p d c → result ≡ offset p d a }
    {
        let _class = c;
        self.offsets[a.owner.0 as usize][a.index as usize]
    }

    /// The slot of a method of a class in its dispatch table; none if the class has no method of that name.
    pub fn slot(&self, c: ClassId, f: &Name) -> Option<u32>
        requires { (p : List Class) × IsLayoutOf self.now p × (c.0 < length p) }
        ensures slot { (p : List Class) → IsLayoutOf self.now p → c.0 < length p → result ≡ slot p c f.now }
        ensures none { (p : List Class) (ds : List number.ClassId) → IsLayoutOf self.now p → c.0 < length p → IsChain p (Some c) ds → is_some result ≡ is_some (implementation p ds f.now) }
        ensures same { (p : List Class) (d : number.ClassId) (k : ℕ) → IsLayoutOf self.now p → c.0 < length p → d.0 < length p → Below p d c → result ≡ Some k → slot p d f.now ≡ Some k }
    {
        let tag = self.tags[c.0 as usize];
        match find_slot(self.tables.as_slice(), tag as usize, f.as_slice()) {
            Some(slot) => Some(slot as u32),
            None => None,
        }
    }

    /// The lines of the layout in the data, of the table for which it was made. Returns `Err` only if memory runs out.
    pub fn lines(&self, alloc: Global, t: &ClassTable) -> Result<Vec<Line>, AllocError>
        requires layout { IsLayoutOf self.now t.now }
        ensures { IfOk result (λ lines. lines_of lines.items ≡ layout_lines t.now) }
    {
        let order = self.order.as_slice();
        let tables = self.tables.as_slice();
        let tags = StringTags {
            int: self.tag(INT),
            string: self.tag(STRING),
        };
        let mut lines = Vec::new(alloc);
        add_class_names(alloc, &mut lines, order)?;
        add_class_objects(alloc, &mut lines, t, order)?;
        add_dispatch_tables(alloc, &mut lines, t, order, tables)?;
        add_prototypes(alloc, &mut lines, t, order, tables)?;
        add_defaults(alloc, &mut lines, t, tags)?;
        add_names(alloc, &mut lines, t, tags, order)?;
        add_texts(alloc, &mut lines)?;
        Ok(lines)
    }
}
