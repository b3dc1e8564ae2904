//! Functions that count the attributes and methods of classes, with the inherited ones, and test whether they exceed the compiler's limits.

ghost use Rattle.std.specs.Prelude.{◌≡◌, ◌<◌, ◌^◌, ◌∷◌, length, if◌then◌else◌, nat_lt, IfOk};
ghost use Rattle.std.specs.List.{AllByRecursion};
ghost use Rattle.cool_classes.specs.declared.class_id.ClassId as number;
ghost use Rattle.cool_classes.specs.Chains.{features_of};
ghost use Rattle.cool_classes.specs.Features.{own_attributes};
ghost use Rattle.cool_classes.specs.Entries.{classes};
ghost use Rattle.cool_classes.specs.Lineages.{IsLineage, AreWithin, AreCounts, sum_at};
ghost use Rattle.cool_classes.specs.MethodNames.{new_name, new_methods};
ghost use Rattle.cool_classes.specs.OwnNames.{AreTableNames};
ghost use Rattle.cool_classes.specs.FeatureFaults.{is_over_limit};

use crate::basic_classes::BASIC_CLASSES;
use crate::basic_methods::basic_method_count;
use crate::class_id::ClassId;
use crate::first_names::is_first_at;
use crate::lineage::{Lineage, lineage_of};
use crate::own_names::{TableNames, nearest_method};
use crate::{MOST_ATTRIBUTES, MOST_METHODS};
use cool_syntax::Feature;
use std::alloc::{AllocError, Global};

/// The numbers of attributes and of names of methods that each class adds to those of the classes above it.
#[derive(Drop)]
pub(crate) struct Counts {
    attributes: Vec<usize>,
    methods: Vec<usize>,
}

/// The numbers that each class adds to the classes above it. Returns `Err` only if memory runs out.
pub(crate) fn counts_of(alloc: Global, table: &TableNames<'_>) -> Result<Counts, AllocError>
    requires table { AreTableNames table.now }
    ensures { IfOk result (λ counts. AreCounts (length table.now.entries.now) (classes table.now.entries.now) counts) }
{
    let entries = table.entries;
    let mut attributes = Vec::new(alloc);
    let mut methods = Vec::new(alloc);
    for index in 0..entries.len() {
        let lineage = lineage_of(alloc, entries, ClassId(index as u32))?;
        attributes.push(attribute_count(entries[index].features.as_slice()))?;
        methods.push(new_method_count(table, &lineage))?;
    }
    Ok(Counts {
        attributes,
        methods,
    })
}

/// The number of attributes among features.
fn attribute_count(features: &[Feature]) -> usize
    ensures { (c : number.ClassId) → result ≡ length (own_attributes c 0 features.now) }
{
    let mut count = 0;
    for index in 0..features.len() {
        if let Feature::Attribute(_) = &features[index] {
            count += 1;
        }
    }
    count
}

/// The number of names of methods that a class adds to those of the classes above it.
fn new_method_count(table: &TableNames<'_>, lineage: &Lineage) -> usize
    requires table { AreTableNames table.now }
    requires lineage { IsLineage table.now.entries.now lineage.now }
    ensures { result ≡ length (new_methods (classes table.now.entries.now) lineage.now.above.items lineage.now.class) }
{
    let class = lineage.class.0;
    if class < BASIC_CLASSES {
        return basic_method_count(class);
    }
    let features = table.entries[class as usize].features.as_slice();
    let mut count = 0;
    for index in 0..features.len() {
        if is_new(table, lineage, &features[index], index as u32) {
            count += 1;
        }
    }
    count
}

/// Whether a feature is a method, the first of its name in its class, with none of that name above.
fn is_new(table: &TableNames<'_>, lineage: &Lineage, feature: &Feature, index: u32) -> bool
    requires table { AreTableNames table.now }
    requires lineage { IsLineage table.now.entries.now lineage.now }
    ensures { (if result then 1 else 0) ≡ length (new_name (classes table.now.entries.now) lineage.now.above.items (features_of (classes table.now.entries.now) lineage.now.class) index feature.now) }
{
    match feature {
        Feature::Method(method) => {
            let name = method.name.as_slice();
            let own = &table.own[lineage.class.0 as usize];
            is_first_at(&own.methods, name, index)
                && nearest_method(table, lineage.above.as_slice(), name).is_none()
        }
        Feature::Attribute(_) => false,
    }
}

/// Whether a class has more attributes or methods than a class may have.
pub(crate) fn is_over_limit(table: &TableNames<'_>, counts: &Counts, lineage: &Lineage) -> bool
    requires lineage { IsLineage table.now.entries.now lineage.now }
    requires counts { AreCounts (length table.now.entries.now) (classes table.now.entries.now) counts.now }
    requires table { AreTableNames table.now }
    ensures { result ≡ is_over_limit (classes table.now.entries.now) (lineage.now.class ∷ lineage.now.above.items) }
{
    exceed(counts.attributes.as_slice(), lineage, MOST_ATTRIBUTES)
        || exceed(counts.methods.as_slice(), lineage, MOST_METHODS)
}

/// Whether a class and those above it have more than so many, by the counts of each.
fn exceed(counts: &[usize], lineage: &Lineage, most: usize) -> bool
    requires class { lineage.now.class.0 < length counts.now }
    requires above { AllByRecursion (λ c. c.0 < length counts.now) lineage.now.above.items }
    ensures { result ≡ nat_lt most (sum_at counts.now (lineage.now.class ∷ lineage.now.above.items)) }
{
    let above = lineage.above.as_slice();
    let mut left = most;
    for index in 0..above.len() {
        let count = counts[above[index].0 as usize];
        if left < count {
            return true;
        }
        left -= count;
    }
    left < counts[lineage.class.0 as usize]
}
