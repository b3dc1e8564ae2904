//! Functions that list the attributes of classes, inherited ones included, class by class in preorder, so that each class extends the list of its parent.

ghost use Rattle.std.specs.Prelude.{◌≡◌, ◌<◌, ◌++◌, length, IfOk};
ghost use Rattle.cool_classes.specs.Chains.{features_of};
ghost use Rattle.cool_classes.specs.Features.{own_attributes};
ghost use Rattle.cool_layout.specs.AttributeLists.{AreAttributes};
ghost use Rattle.cool_layout.specs.Members as member;
ghost use Rattle.cool_layout.specs.Roots.{IsRooted};
ghost use Rattle.cool_layout.specs.SlotTables.{class_of, IsAbove};

use cool_classes::{AttributeRef, ClassId, ClassTable};
use cool_syntax::Feature;
use std::alloc::{AllocError, Global};

/// Attributes with those after them that a class has of its own, in textual order.
fn with_own(
    alloc: Global,
    t: &ClassTable,
    above: &[AttributeRef],
    class: ClassId,
) -> Result<Vec<AttributeRef>, AllocError>
    requires rooted { IsRooted t.now }
    requires within { class.0 < length t.now }
    ensures { IfOk result (λ all. all.items ≡ above.now ++ own_attributes class 0 (features_of t.now class)) }
{
    let mut all = Vec::from_slice(alloc, above)?;
    let features = t.features(class);
    for index in 0..features.len() {
        if let Feature::Attribute(_) = &features[index] {
            all.push(AttributeRef {
                owner: class,
                index: index as u32,
            })?;
        }
    }
    Ok(all)
}

/// The attributes of the class of the next tag, whose parent has the tag `above` if it has a parent. Returns `Err` only if memory runs out.
pub(crate) fn next_attributes(
    alloc: Global,
    t: &ClassTable,
    known: &[Vec<AttributeRef>],
    above: Option<usize>,
    class: ClassId,
) -> Result<Vec<AttributeRef>, AllocError>
    requires rooted { IsRooted t.now }
    requires within { class.0 < length t.now }
    requires known { AreAttributes t.now known.now }
    requires class { class ≡ class_of t.now (length known.now) }
    requires above { IsAbove t.now (length known.now) above }
    ensures { IfOk result (λ all. all.items ≡ member.attributes t.now class) }
{
    match above {
        Some(tag) => with_own(alloc, t, known[tag].as_slice(), class),
        None => with_own(alloc, t, &[], class),
    }
}
