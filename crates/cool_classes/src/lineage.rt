//! The type `Lineage`: a class, and the list of its ancestors from its parent up to Object.

ghost use Rattle.std.specs.Prelude.{◌≡◌, ◌<◌, length, IfOk};
ghost use Rattle.cool_classes.specs.Entries.{classes, depth_at};
ghost use Rattle.cool_classes.specs.Tables.{IsGrounded};
ghost use Rattle.cool_classes.specs.Lineages.{IsLineage, AreWithin};
ghost use Rattle.cool_classes.specs.Chains.{IsChain, parent_of};

use crate::class_id::ClassId;
use crate::climbing::{chain, parent};
use crate::entry::Entry;
use std::alloc::{AllocError, Global};

/// A class, and the classes above it from its parent up to Object.
#[derive(Drop)]
pub(crate) struct Lineage {
    pub(crate) class: ClassId,
    pub(crate) above: Vec<ClassId>,
}

/// The lineage of a class. Returns `Err` only if memory runs out.
pub(crate) fn lineage_of(
    alloc: Global,
    entries: &[Entry],
    class: ClassId,
) -> Result<Lineage, AllocError>
    requires within { class.0 < length entries.now }
    requires grounded { IsGrounded (classes entries.now) (depth_at entries.now) }
    ensures class { IfOk result (λ lineage. lineage.class ≡ class) }
    ensures lineage { IfOk result (λ lineage. IsLineage entries.now lineage) }
{
    Ok(Lineage {
        class,
        above: above(alloc, entries, class)?,
    })
}

/// The classes above a class. Returns `Err` only if memory runs out.
fn above(alloc: Global, entries: &[Entry], class: ClassId) -> Result<Vec<ClassId>, AllocError>
    requires within { class.0 < length entries.now }
    requires grounded { IsGrounded (classes entries.now) (depth_at entries.now) }
    ensures within { IfOk result (λ ids. AreWithin entries.now ids.items) }
    ensures chain { IfOk result (λ ids. IsChain (classes entries.now) (parent_of (classes entries.now) class) ids.items) }
{
    match parent(entries, class) {
        Some(parent) => chain(alloc, entries, parent),
        None => Ok(Vec::new(alloc)),
    }
}
