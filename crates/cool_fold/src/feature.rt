//! Folds the expression of a feature, and returns the types of its nodes.

ghost use Rattle.std.specs.Prelude.{◌≡◌, ◌<◌, length, Some, IfOk};
ghost use Rattle.std.specs.List.{slice_get};
ghost use Rattle.std.specs.Option.{option_map};
ghost use Rattle.cool_syntax.specs.declared.file_tree.Feature as syntax;
ghost use Rattle.cool_classes.specs.Bodies.{body_at};
ghost use Rattle.cool_classes.specs.Chains.{features_of};
ghost use Rattle.cool_rules.specs.NodeTypes.{feature_types};
ghost use Rattle.cool_fold.specs.Definers.{AreDefiners};
ghost use Rattle.cool_rules.specs.NodeScopes.{expression_of};
ghost use Rattle.cool_fold.specs.Folding.{fold_feature};

use crate::definers::Definers;
use crate::expression::fold;
use crate::folding_setting::FoldingSetting;
use crate::place::Placed;
use cool_classes::{ClassId, ClassTable};
use cool_pool::Column;
use cool_rules::{NodeTypes, TypedProgram};
use cool_syntax::{Body, Feature};
use std::alloc::{AllocError, Global};

/// The folded expression of a feature, where it has one, and the types of its nodes.
#[derive(Drop)]
pub(crate) struct FoldedFeature {
    pub(crate) body: Option<Body>,
    pub(crate) types: NodeTypes,
}

/// The folded expression of a feature of a class, by its number among the features of the class: the body of a method or an initial value, and none for an
/// attribute without one; and the types of its nodes. The classes that define methods are those of the program.
///
/// Returns `Err` only if memory runs out. It calls itself once for each level of an expression, so it takes stack in proportion to the depth.
pub(crate) fn fold_body<'a>(
    alloc: Global,
    p: &'a TypedProgram,
    definers: &Definers<'a>,
    c: ClassId,
    feature: u32,
) -> Result<FoldedFeature, AllocError>
    requires definers { AreDefiners p.now definers.now }
    requires class { c.0 < length p.now }
    requires feature { feature < length (features_of p.now c) }
    ensures body { (x : syntax.Feature) → slice_get (features_of p.now c) feature ≡ Some x → IfOk result (λ f. f.body ≡ expression_of (fold_feature p.now c x)) }
    ensures types { (x : syntax.Feature) → slice_get (features_of p.now c) feature ≡ Some x → IfOk result (λ f. f.types ≡ feature_types p.now c (fold_feature p.now c x)) }
{
    let table = p.table();
    let Some(body) = expression_at(table, c, feature) else {
        return Ok(FoldedFeature {
            body: None,
            types: NodeTypes::of(Vec::new(alloc)),
        });
    };
    let setting = FoldingSetting {
        alloc,
        table,
        definers,
        class: c,
        body,
        types: p.types(c, feature),
    };
    let nodes = Vec::new(alloc);
    let column = Column::new(alloc, body.len())?;
    let mut placed = Placed {
        nodes,
        types: column,
    };
    fold(&setting, &mut placed, body.root())?;
    let Placed { nodes, types } = placed;
    let folded = NodeTypes::of(types.into_values());
    Ok(FoldedFeature {
        body: Some(Body::from_nodes(nodes)),
        types: folded,
    })
}

/// The expression of a feature of a class, by its number among the features of the class, where it has one.
fn expression_at(table: &ClassTable, c: ClassId, feature: u32) -> Option<&Body>
    requires class { c.0 < length table.now }
    requires feature { feature < length (features_of table.now c) }
    ensures { option_map (λ body. body.now) result ≡ body_at table.now c feature }
{
    match &table.features(c)[feature as usize] {
        Feature::Method(method) => Some(&method.body),
        Feature::Attribute(attribute) => attribute.init.as_ref(),
    }
}
