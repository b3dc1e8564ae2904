//! Functions that compute the tag of each class, which is its position in preorder, and the greatest tag among the class and those below it.

ghost use Rattle.std.specs.Prelude.{◌≡◌, ◌<◌, ◌^◌, List, length, get_or, IfOk};
ghost use Rattle.std.specs.List.{AllByRecursion};
ghost use Rattle.cool_classes.specs.Chains.{Class};
ghost use Rattle.cool_layout.specs.Preorder.{preorder, tag, last_tag};
ghost use Rattle.cool_layout.specs.Roots.{IsRooted};
ghost use Rattle.cool_layout.specs.Walks.{IsWalk, AreTagsOf, AreLastsOf};

use crate::order::Walk;
use cool_classes::{ClassId, ClassTable};
use std::alloc::{AllocError, Global};

/// The tag of each class: its place in preorder. Returns `Err` only if memory runs out.
pub(crate) fn tags_of(alloc: Global, t: &ClassTable, walk: &Walk) -> Result<Vec<u32>, AllocError>
    requires rooted { IsRooted t.now }
    requires walk { IsWalk t.now walk.now }
    ensures { IfOk result (λ tags. AreTagsOf t.now tags.items) }
{
    let mut tags = vec![in alloc; 0; t.count() as usize]?;
    for tag in 0..t.count() {
        let class = walk.order[tag as usize];
        tags[class.0 as usize] = tag;
    }
    Ok(tags)
}

/// The greatest tag of a class and those below it.
fn last_tag(t: &ClassTable, walk: &Walk, tags: &[u32], class: ClassId) -> u32
    requires rooted { IsRooted t.now }
    requires walk { IsWalk t.now walk.now }
    requires tags { AreTagsOf t.now tags.now }
    requires within { class.0 < length t.now }
    ensures { result ≡ last_tag t.now class }
{
    let tag = tags[class.0 as usize];
    match walk.next[tag as usize] {
        Some(next) => tags[next.0 as usize] - 1,
        None => t.count() - 1,
    }
}

/// The last tag of each class. Returns `Err` only if memory runs out.
pub(crate) fn lasts_of(
    alloc: Global,
    t: &ClassTable,
    walk: &Walk,
    tags: &[u32],
) -> Result<Vec<u32>, AllocError>
    requires rooted { IsRooted t.now }
    requires walk { IsWalk t.now walk.now }
    requires tags { AreTagsOf t.now tags.now }
    ensures { IfOk result (λ lasts. AreLastsOf t.now lasts.items) }
{
    let mut lasts = Vec::new(alloc);
    for number in 0..t.count() {
        lasts.push(last_tag(t, walk, tags, ClassId(number)))?;
    }
    Ok(lasts)
}
