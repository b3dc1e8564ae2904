//! Functions that build the dispatch tables of classes, which have a method in each slot, and look up the slot of a method name.

ghost use Rattle.std.specs.Prelude.{◌≡◌, ℕ, ◌++◌, ◌∷◌, [], ◌<◌, List, Option as Maybe, length, position, bytes_eq, IfSome, IfOk, OnOk};
ghost use Rattle.cool_classes.specs.declared.method.MethodRef.{MethodRef as AnyMethod};
ghost use Rattle.cool_layout.specs.SlotTables.{IsTableFor, OwnMethod, AreLow, AreTables, class_of, slots_in, Has, user_own, own_methods, IsAbove, IsTableAt};
ghost use Rattle.cool_layout.specs.Preorder.{tag};
ghost use Rattle.cool_layout.specs.Walks.{IsWalk, AreTagsOf};
ghost use Rattle.cool_layout.specs.Members.{slot};
ghost use Rattle.cool_layout.specs.Roots.{IsRooted};
ghost use Rattle.cool_classes.specs.Chains.{Class, features_of};

use crate::basic::add_basic;
use crate::order::Walk;
use cool_classes::{ClassId, ClassTable, MethodRef};
use cool_syntax::Feature;
use indexmap::IndexMap;
use std::alloc::{AllocError, Global};

/// The number of basic classes.
const BASIC_CLASSES: u32 = 5;

/// The slots of a class.
#[derive(Drop)]
pub(crate) struct Table {
    /// The tag of the parent.
    pub(crate) above: Option<usize>,
    /// The slots of the methods that the class has of its own.
    pub(crate) own: IndexMap<Vec<u8>, usize>,
    /// The method in each slot.
    pub(crate) methods: Vec<MethodRef>,
}

/// Adds a method of the class's own, which has this slot in the parent's table, if it has one there.
fn add_own(
    alloc: Global,
    table: &mut Table,
    inherited: Option<usize>,
    name: &[u8],
    method: MethodRef,
) -> Result<(), AllocError>
    requires low { IfSome inherited (λ k. k < length table.old.methods.items) }
    ensures above { table.new.above ≡ table.old.above }
    ensures table { OnOk result ((above : List (List ℕ)) (methods : List ℕ → Maybe AnyMethod) (own : List OwnMethod) → inherited ≡ position (bytes_eq name.now) above → IsTableFor above methods own table.old → IsTableFor above methods (own ++ record { name = name.now; method = method } ∷ []) table.new) }
{
    if table.own.get(name).is_some() {
        return Ok(());
    }
    let slot = match inherited {
        Some(slot) => {
            table.methods[slot] = method;
            slot
        }
        None => {
            table.methods.push(method)?;
            table.methods.len() - 1
        }
    };
    table.own.insert(Vec::from_slice(alloc, name)?, slot)?;
    Ok(())
}

/// The slot of a name in the table at a tag, or in the nearest one above it that has the name.
pub(crate) fn find_slot(tables: &[Table], start: usize, name: &[u8]) -> Option<usize>
    requires low { AreLow tables.now }
    requires within { start < length tables.now }
    ensures { (p : List Class) (n : ℕ) → IsRooted p → AreTables p n tables.now → result ≡ slot p (class_of p start) name.now }
{
    let mut at = start;
    loop {
        let table = &tables[at];
        if let Some(slot) = table.own.get(name) {
            return Some(*slot);
        }
        match table.above {
            Some(above) => at = above,
            None => return None,
        }
    }
}

/// The slot of a name in the table at a tag, if there is one, or in those above it.
fn inherited_slot(tables: &[Table], above: Option<usize>, name: &[u8]) -> Option<usize>
    requires low { AreLow tables.now }
    requires within { IfSome above (λ k. k < length tables.now) }
    ensures { (p : List Class) (n : ℕ) → IsRooted p → AreTables p n tables.now → result ≡ position (bytes_eq name.now) (slots_in p above) }
{
    match above {
        Some(tag) => find_slot(tables, tag, name),
        None => None,
    }
}

/// Adds a method of the class's own. Returns `Err` only if memory runs out.
pub(crate) fn add_method(
    alloc: Global,
    t: &ClassTable,
    tables: &[Table],
    table: &mut Table,
    name: &[u8],
    method: MethodRef,
) -> Result<(), AllocError>
    requires rooted { IsRooted t.now }
    requires tables { AreTables t.now (length tables.now) tables.now }
    requires within { IfSome table.old.above (λ k. k < length tables.now) }
    requires table { (own : List OwnMethod) × Has t.now own table.old }
    ensures above { table.new.above ≡ table.old.above }
    ensures table { OnOk result ((own : List OwnMethod) → Has t.now own table.old → Has t.now (own ++ record { name = name.now; method = method } ∷ []) table.new) }
{
    let _table = t;
    let inherited = inherited_slot(tables, table.above, name);
    add_own(alloc, table, inherited, name, method)
}

/// Adds the methods among the features of a class. Returns `Err` only if memory runs out.
fn add_features(
    alloc: Global,
    t: &ClassTable,
    tables: &[Table],
    table: &mut Table,
    class: ClassId,
) -> Result<(), AllocError>
    requires rooted { IsRooted t.now }
    requires tables { AreTables t.now (length tables.now) tables.now }
    requires within { IfSome table.old.above (λ k. k < length tables.now) }
    requires class { class.0 < length t.now }
    requires table { Has t.now [] table.old }
    ensures above { table.new.above ≡ table.old.above }
    ensures table { OnOk result (Has t.now (user_own class 0 (features_of t.now class)) table.new) }
{
    let features = t.features(class);
    for index in 0..features.len() {
        if let Feature::Method(method) = &features[index] {
            let name = method.name.as_slice();
            let place = MethodRef::User {
                owner: class,
                index: index as u32,
            };
            add_method(alloc, t, tables, table, name, place)?;
        }
    }
    Ok(())
}

/// A table with the slots of the one above it, and no method of its own. Returns `Err` only if memory runs out.
fn start_table(
    alloc: Global,
    t: &ClassTable,
    tables: &[Table],
    above: Option<usize>,
) -> Result<Table, AllocError>
    requires rooted { IsRooted t.now }
    requires tables { AreTables t.now (length tables.now) tables.now }
    requires within { IfSome above (λ k. k < length tables.now) }
    ensures above { IfOk result (λ table. table.above ≡ above) }
    ensures table { IfOk result (λ table. Has t.now [] table) }
{
    let _table = t;
    let methods = match above {
        Some(tag) => Vec::from_slice(alloc, tables[tag].methods.as_slice())?,
        None => Vec::new(alloc),
    };
    Ok(Table {
        above,
        own: IndexMap::new(alloc),
        methods,
    })
}

/// Adds the methods that a class has of its own. Returns `Err` only if memory runs out.
fn add_all_own(
    alloc: Global,
    t: &ClassTable,
    tables: &[Table],
    table: &mut Table,
    class: ClassId,
) -> Result<(), AllocError>
    requires rooted { IsRooted t.now }
    requires tables { AreTables t.now (length tables.now) tables.now }
    requires within { IfSome table.old.above (λ k. k < length tables.now) }
    requires class { class.0 < length t.now }
    requires table { Has t.now [] table.old }
    ensures above { table.new.above ≡ table.old.above }
    ensures table { OnOk result (Has t.now (own_methods t.now class) table.new) }
{
    if class.0 < BASIC_CLASSES {
        add_basic(alloc, t, tables, table, class.0)
    } else {
        add_features(alloc, t, tables, table, class)
    }
}

/// The tag of the parent of a class.
pub(crate) fn tag_above(t: &ClassTable, tags: &[u32], class: ClassId) -> Option<usize>
    requires rooted { IsRooted t.now }
    requires tags { AreTagsOf t.now tags.now }
    requires class { class.0 < length t.now }
    ensures { IsAbove t.now (tag t.now class) result }
{
    match t.parent(class) {
        Some(above) => Some(tags[above.0 as usize] as usize),
        None => None,
    }
}

/// The tables of all classes, by their tags. Returns `Err` only if memory runs out.
pub(crate) fn tables_of(
    alloc: Global,
    t: &ClassTable,
    walk: &Walk,
    tags: &[u32],
) -> Result<Vec<Table>, AllocError>
    requires rooted { IsRooted t.now }
    requires walk { IsWalk t.now walk.now }
    requires tags { AreTagsOf t.now tags.now }
    ensures { IfOk result (λ tables. AreTables t.now (length t.now) tables.items) }
{
    let mut tables = Vec::new(alloc);
    for tag in 0..t.count() {
        let class = walk.order[tag as usize];
        let above = tag_above(t, tags, class);
        let mut table = start_table(alloc, t, tables.as_slice(), above)?;
        add_all_own(alloc, t, tables.as_slice(), &mut table, class)?;
        tables.push(table)?;
    }
    Ok(tables)
}
