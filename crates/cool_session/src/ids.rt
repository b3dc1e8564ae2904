//! The positions of the features of a class table in order: the class of each feature, and the number of the feature in this class.

ghost use Rattle.std.specs.Prelude.{◌≡◌, ◌<◌, ◌^◌, ◌++◌, length, IfOk, OnOk};
ghost use Rattle.cool_session.specs.Ids.{ids, ids_in};

use cool_classes::{ClassId, ClassTable};
use cool_syntax::Feature;
use std::alloc::{AllocError, Global};

/// A feature of a class, by its number among the features of the class.
#[derive(Clone, Copy)]
pub(crate) struct FeatureId {
    pub(crate) class: ClassId,
    pub(crate) index: u32,
}

/// The features of a table, in order. Returns `Err` only if memory runs out.
pub(crate) fn feature_ids(alloc: Global, t: &ClassTable) -> Result<Vec<FeatureId>, AllocError>
    ensures { IfOk result (λ all. all.items ≡ ids t.now) }
{
    let mut all = Vec::new(alloc);
    for number in 0..t.count() {
        let c = ClassId(number);
        add_ids(c, t.features(c), &mut all)?;
    }
    Ok(all)
}

/// Adds the features of a class. Returns `Err` only if memory runs out.
fn add_ids(c: ClassId, features: &[Feature], all: &mut Vec<FeatureId>) -> Result<(), AllocError>
    requires { length features.now < 2 ^ 32 }
    ensures { OnOk result (all.new.items ≡ all.old.items ++ ids_in c 0 features.now) }
{
    for i in 0..features.len() {
        all.push(FeatureId {
            class: c,
            index: i as u32,
        })?;
    }
    Ok(())
}
