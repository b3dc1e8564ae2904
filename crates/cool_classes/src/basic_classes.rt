//! The basic classes: their number, their names, and their entries in a table (the Cool manual, section 8).

ghost use Rattle.std.specs.Prelude.{◌≡◌, ◌<◌, IfOk, []};
ghost use Rattle.cool_classes.specs.Chains.{name_of};
ghost use Rattle.cool_classes.specs.Entries.{basic_entries};
ghost use Rattle.cool_classes.specs.FirstNames.{FindsNames};
ghost use Rattle.cool_classes.specs.Settled.{basic_names};
ghost use Rattle.cool_classes.specs.Tables.{basic_classes};

use crate::class_id::{BOOL, ClassId, INT, IO, OBJECT, STRING};
use crate::entry::Entry;
use crate::first_names::{FirstNames, add_name};
use cool_syntax::{Listed, Name};
use std::alloc::{AllocError, Global};

/// The number of basic classes.
pub(crate) const BASIC_CLASSES: u32 = 5;

/// The name of a basic class.
pub(crate) fn class_name(class: ClassId) -> &'static [u8]
    requires basic { class.0 < 5 }
    ensures { result.now ≡ name_of basic_classes class }
{
    match class {
        OBJECT => b"Object",
        IO => b"IO",
        INT => b"Int",
        BOOL => b"Bool",
        _ => b"String",
    }
}

/// The names of the basic classes. Returns `Err` only if memory runs out.
pub(crate) fn basic_names(alloc: Global) -> Result<FirstNames, AllocError>
    ensures { IfOk result (λ names. FindsNames names.entries basic_names) }
{
    let mut names = FirstNames::new(alloc);
    for class in 0..BASIC_CLASSES {
        add_name(alloc, &mut names, class_name(ClassId(class)), class)?;
    }
    Ok(names)
}

/// The basic classes as the first entries of a table. Returns `Err` only if memory runs out.
pub(crate) fn basic_entries(alloc: Global) -> Result<Vec<Entry>, AllocError>
    ensures { IfOk result (λ entries. entries.items ≡ basic_entries) }
{
    let mut entries = Vec::new(alloc);
    entries.push(basic_entry(alloc, OBJECT, None, 0)?)?;
    entries.push(basic_entry(alloc, IO, Some(OBJECT), 1)?)?;
    entries.push(basic_entry(alloc, INT, Some(OBJECT), 1)?)?;
    entries.push(basic_entry(alloc, BOOL, Some(OBJECT), 1)?)?;
    entries.push(basic_entry(alloc, STRING, Some(OBJECT), 1)?)?;
    Ok(entries)
}

/// A basic class. Returns `Err` only if memory runs out.
fn basic_entry(
    alloc: Global,
    class: ClassId,
    parent: Option<ClassId>,
    depth: u32,
) -> Result<Entry, AllocError>
    requires basic { class.0 < 5 }
    ensures { IfOk result (λ entry. entry ≡ record { name = name_of basic_classes class; parent = parent; depth = depth; features = [] }) }
{
    Ok(Entry {
        name: Name::new(alloc, class_name(class))?,
        parent,
        depth,
        features: Listed::new(Vec::new(alloc)),
    })
}
