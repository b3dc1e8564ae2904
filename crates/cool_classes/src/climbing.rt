//! Functions that go from a class to its ancestors: they list the ancestors, test whether a class inherits from another, and find the least common ancestor of
//! two classes.

ghost use Rattle.std.specs.Prelude.{◌≡◌, ◌<◌, ◌↔◌, IsTrue, IfOk, Some, List, length};
ghost use Rattle.cool_classes.specs.declared.class_id.ClassId as number;
ghost use Rattle.cool_classes.specs.Chains.{IsChain, Below, IsJoin, parent_of};
ghost use Rattle.cool_classes.specs.Tables.{IsGrounded};
ghost use Rattle.cool_classes.specs.Entries.{classes, depth_at};

use crate::class_id::ClassId;
use crate::entry::Entry;
use std::alloc::{AllocError, Global};

/// The parent of a class.
pub(crate) fn parent(entries: &[Entry], c: ClassId) -> Option<ClassId>
    requires within { c.0 < length entries.now }
    ensures { result ≡ parent_of (classes entries.now) c }
{
    entries[c.0 as usize].parent
}

/// The number of classes above a class.
pub(crate) fn depth(entries: &[Entry], c: ClassId) -> u32
    requires within { c.0 < length entries.now }
    ensures { result ≡ depth_at entries.now c }
{
    entries[c.0 as usize].depth
}

/// Whether a class is another one or has it above it.
pub(crate) fn is_below(entries: &[Entry], a: ClassId, b: ClassId) -> bool
    requires within { a.0 < length entries.now }
    requires grounded { IsGrounded (classes entries.now) (depth_at entries.now) }
    ensures { IsTrue result ↔ Below (classes entries.now) a b }
{
    let mut class = a;
    while class != b {
        match parent(entries, class) {
            Some(above) => class = above,
            None => return false,
        }
    }
    true
}

/// The least class that both are below.
pub(crate) fn join(entries: &[Entry], a: ClassId, b: ClassId) -> ClassId
    requires a_within { a.0 < length entries.now }
    requires b_within { b.0 < length entries.now }
    requires grounded { IsGrounded (classes entries.now) (depth_at entries.now) }
    ensures within { result.0 < length entries.now }
    ensures join { IsJoin (classes entries.now) a b result }
{
    let mut left = a;
    let mut right = b;
    while left != right {
        if depth(entries, left) < depth(entries, right) {
            right = parent_of_lower(entries, right);
        } else {
            left = parent_of_lower(entries, left);
        }
    }
    left
}

/// The classes from one up to Object. Returns `Err` only if memory runs out.
pub(crate) fn chain(
    alloc: Global,
    entries: &[Entry],
    c: ClassId,
) -> Result<Vec<ClassId>, AllocError>
    requires within { c.0 < length entries.now }
    requires grounded { IsGrounded (classes entries.now) (depth_at entries.now) }
    ensures { IfOk result (λ ids. IsChain (classes entries.now) (Some c) ids.items) }
{
    let mut ids = Vec::new(alloc);
    let mut class = c;
    while let Some(above) = parent(entries, class) {
        ids.push(class)?;
        class = above;
    }
    ids.push(class)?;
    Ok(ids)
}

/// The parent of a class that has classes above it.
fn parent_of_lower(entries: &[Entry], c: ClassId) -> ClassId
    requires within { c.0 < length entries.now }
    requires grounded { IsGrounded (classes entries.now) (depth_at entries.now) }
    requires lower { 0 < depth_at entries.now c }
    ensures { parent_of (classes entries.now) c ≡ Some result }
{
    match parent(entries, c) {
        Some(above) => above,
        None => unreachable!(),
    }
}
