//! The trait `Typer` of type checkers for single features, which count how often they are called.

ghost use Rattle.std.specs.Prelude.{◌≡◌, ◌<◌, ℕ, length, IfErr, OnOk, Ok, Some};
ghost use Rattle.std.specs.List.{AllByRecursion, slice_get};
ghost use Rattle.cool_syntax.specs.declared.file_tree.Feature as syntax;
ghost use Rattle.cool_syntax.specs.TreesWithinLimits.{IsFeatureWithin};
ghost use Rattle.cool_classes.specs.Chains.{features_of};
ghost use Rattle.cool_check.specs.Calls.{called};
ghost use Rattle.cool_check.specs.Faults.{IsPlacedError};
ghost use Rattle.cool_check.specs.FirstFaults.{IsFirst};
ghost use Rattle.cool_check.specs.TypingFaults.{feature_checked};

use crate::fault::CheckError;
use crate::feature::check_feature;
use cool_classes::{ClassId, ClassTable};
use std::alloc::Global;

/// Checks features of class tables.
pub trait Typer {
    /// The number of its calls.
    ghost calls: { Self → ℕ };

    /// Checks one feature of a class, by its number among the features of the class, as `check_feature` does.
    fn type_feature(
        &mut self,
        alloc: Global,
        t: &ClassTable,
        c: ClassId,
        feature: u32,
    ) -> Result<(), CheckError>
        requires class { c.0 < length t.now }
        requires feature { feature < length (features_of t.now c) }
        ensures typed { (x : syntax.Feature) → slice_get (features_of t.now c) feature ≡ Some x → OnOk result (feature_checked t.now c x ≡ Ok tt) }
        ensures first { (x : syntax.Feature) → slice_get (features_of t.now c) feature ≡ Some x → IfErr result (IsFirst (feature_checked t.now c x)) }
        ensures places { (n : ℕ) → AllByRecursion (IsFeatureWithin n) (features_of t.now c) → IfErr result (IsPlacedError n) }
        ensures counted { calls self.new ≡ called 1 (calls self.old) };
}

/// A typer that asks `check_feature`.
#[derive(Drop)]
pub struct PlainTyper {
    calls: u64,
}

impl PlainTyper {
    /// A typer that was never asked.
    pub fn new() -> PlainTyper
        ensures { result.calls ≡ 0 }
    {
        PlainTyper { calls: 0 }
    }
}

impl Typer for PlainTyper {
    ghost calls = { λ typer. typer.calls };

    fn type_feature(
        &mut self,
        alloc: Global,
        t: &ClassTable,
        c: ClassId,
        feature: u32,
    ) -> Result<(), CheckError> {
        self.calls = self.calls.saturating_add(1);
        check_feature(alloc, t, c, feature)
    }
}
