//! Functions that compute the offsets of attributes in the objects of classes.

ghost use Rattle.std.specs.Prelude.{◌≡◌, ℕ, ◌+◌, ◌≤◌, ◌<◌, length, IfOk};
ghost use Rattle.cool_classes.specs.Limits.{KeepsLimits};
ghost use Rattle.cool_layout.specs.Roots.{IsRooted};
ghost use Rattle.cool_layout.specs.Offsets.{AreCounts, AreOffsets, offsets_among, above_count, attribute_count};
ghost use Rattle.cool_layout.specs.Preorder.{tag};
ghost use Rattle.cool_layout.specs.Walks.{IsWalk, AreTagsOf};

use crate::order::Walk;
use crate::slots::tag_above;
use cool_classes::{ClassId, ClassTable};
use cool_syntax::Feature;
use std::alloc::{AllocError, Global};

/// The first attribute's offset: three words of head stand before it.
const HEAD_BYTES: u32 = 12;

/// The offset of each attribute among the features of a class, with so many attributes above; 0 for methods. Returns `Err` only if memory runs out.
fn own_offsets(alloc: Global, features: &[Feature], above: usize) -> Result<Vec<u32>, AllocError>
    requires few { above + attribute_count features.now ≤ 2000 }
    ensures { IfOk result (λ offsets. offsets.items ≡ offsets_among above features.now) }
{
    let mut offsets = Vec::new(alloc);
    let mut count = above as u32;
    for index in 0..features.len() {
        match &features[index] {
            Feature::Attribute(_) => {
                offsets.push(HEAD_BYTES + 4 * count)?;
                count += 1;
            }
            Feature::Method(_) => offsets.push(0)?,
        }
    }
    Ok(offsets)
}

/// The number of attributes among the features of a class.
fn own_count(features: &[Feature]) -> usize
    ensures { result ≡ attribute_count features.now }
{
    let mut count = 0;
    for index in 0..features.len() {
        match &features[index] {
            Feature::Attribute(_) => count += 1,
            Feature::Method(_) => {}
        }
    }
    count
}

/// The number of attributes of the parent of a class, by the counts of classes with smaller tags.
fn count_above(t: &ClassTable, tags: &[u32], counts: &[usize], class: ClassId) -> usize
    requires rooted { IsRooted t.now }
    requires tags { AreTagsOf t.now tags.now }
    requires class { class.0 < length t.now }
    requires counts { AreCounts t.now counts.now }
    requires known { tag t.now class ≤ length counts.now }
    ensures { result ≡ above_count t.now class }
{
    match tag_above(t, tags, class) {
        Some(above) => counts[above],
        None => 0,
    }
}

/// The number of attributes of the class of each tag, with those that it inherits. Returns `Err` only if memory runs out.
fn counts_of(
    alloc: Global,
    t: &ClassTable,
    walk: &Walk,
    tags: &[u32],
) -> Result<Vec<usize>, AllocError>
    requires rooted { IsRooted t.now }
    requires walk { IsWalk t.now walk.now }
    requires tags { AreTagsOf t.now tags.now }
    requires limits { KeepsLimits t.now }
    ensures same { IfOk result (λ counts. length counts.items ≡ length t.now) }
    ensures counts { IfOk result (λ counts. AreCounts t.now counts.items) }
{
    let mut counts = Vec::new(alloc);
    for tag in 0..t.count() {
        let class = walk.order[tag as usize];
        let above = count_above(t, tags, counts.as_slice(), class);
        counts.push(above + own_count(t.features(class)))?;
    }
    Ok(counts)
}

/// The offsets of the attributes of each class, by feature. Returns `Err` only if memory runs out.
pub(crate) fn offsets_of(
    alloc: Global,
    t: &ClassTable,
    walk: &Walk,
    tags: &[u32],
) -> Result<Vec<Vec<u32>>, AllocError>
    requires rooted { IsRooted t.now }
    requires walk { IsWalk t.now walk.now }
    requires tags { AreTagsOf t.now tags.now }
    requires limits { KeepsLimits t.now }
    ensures { IfOk result (λ all. AreOffsets t.now (length t.now) all.items) }
{
    let counts = counts_of(alloc, t, walk, tags)?;
    let mut all = Vec::new(alloc);
    for number in 0..t.count() {
        let class = ClassId(number);
        let above = count_above(t, tags, counts.as_slice(), class);
        all.push(own_offsets(alloc, t.features(class), above)?)?;
    }
    Ok(all)
}
