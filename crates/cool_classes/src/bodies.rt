//! Functions that replace the expression of a feature, or a whole feature, in the entries of a class table.

ghost use Rattle.std.specs.Prelude.{◌≡◌, ◌<◌, Some, length, IsSome};
ghost use Rattle.std.specs.List.{slice_get};
ghost use Rattle.cool_classes.specs.Bodies.{body_in, body_at, with_body, changed_at, with_body_at};
ghost use Rattle.cool_classes.specs.Chains.{features_of};
ghost use Rattle.cool_classes.specs.Entries.{classes, entry_with_body, entry_with_feature};

use crate::class_id::ClassId;
use crate::entry::Entry;
use cool_syntax::{Body, Feature, Listed};
use std::alloc::Global;
use std::mem::replace;

/// Puts a body in the place of that of a feature, counted from 0, and gives the one that was there. It takes no memory.
pub(crate) fn swap_body(
    alloc: Global,
    entries: &mut [Entry],
    c: ClassId,
    feature: u32,
    body: Body,
) -> Body
    requires within { c.0 < length entries.old }
    requires has { IsSome (body_at (classes entries.old) c feature) }
    ensures gave { body_at (classes entries.old) c feature ≡ Some result }
    ensures now { entries.new ≡ changed_at c.0 (entry_with_body feature body) entries.old }
{
    let entry = &mut entries[c.0 as usize];
    let mut features = replace(&mut entry.features, Listed::new(Vec::new(alloc))).into_vec();
    let before = exchange(&mut features[feature as usize], body);
    entry.features = Listed::new(features);
    before
}

/// Puts a feature in the place of one of a class, counted from 0, and gives the one that was there. It takes no memory.
pub(crate) fn swap_feature(
    alloc: Global,
    entries: &mut [Entry],
    c: ClassId,
    index: u32,
    feature: Feature,
) -> Feature
    requires within { c.0 < length entries.old }
    requires has { IsSome (slice_get (features_of (classes entries.old) c) index) }
    ensures gave { slice_get (features_of (classes entries.old) c) index ≡ Some result }
    ensures now { entries.new ≡ changed_at c.0 (entry_with_feature index feature) entries.old }
{
    let entry = &mut entries[c.0 as usize];
    let mut features = replace(&mut entry.features, Listed::new(Vec::new(alloc))).into_vec();
    let before = replace(&mut features[index as usize], feature);
    entry.features = Listed::new(features);
    before
}

/// Puts a body in the place of that of a feature, and gives the one that was there.
fn exchange(feature: &mut Feature, body: Body) -> Body
    requires has { IsSome (body_in (Some feature.old)) }
    ensures gave { body_in (Some feature.old) ≡ Some result }
    ensures now { feature.new ≡ with_body body feature.old }
{
    match feature {
        Feature::Method(method) => replace(&mut method.body, body),
        Feature::Attribute(attribute) => match &mut attribute.init {
            Some(init) => replace(init, body),
            None => unreachable!(),
        },
    }
}
