//! The function `fold`, which folds each expression of a program.

ghost use Rattle.std.specs.Prelude.{◌≡◌, ◌<◌, ◌++◌, ℕ, length, IfOk, OnOk};
ghost use Rattle.cool_classes.specs.Chains.{features_of};
ghost use Rattle.cool_rules.specs.Fits.{Fits};
ghost use Rattle.cool_rules.specs.NodeTypes.{columns_of, features_types, table_types};
ghost use Rattle.cool_fold.specs.Definers.{AreDefiners};
ghost use Rattle.cool_fold.specs.Expressions.{expressions_of, expressions_from};
ghost use Rattle.cool_fold.specs.Folding.{fold_table};

use crate::definers::Definers;
use crate::feature::{FoldedFeature, fold_body};
use cool_classes::ClassId;
use cool_rules::{NodeTypes, TypedProgram};
use cool_syntax::Body;
use std::alloc::{AllocError, Global};

/// The expression of a feature: the body of a method or an initial value, with the class and the number of the feature among those of the
/// class.
#[derive(Drop)]
struct Expression {
    class: ClassId,
    feature: u32,
    body: Body,
}

/// Expressions, and the types of the nodes of each feature's expression, class by class.
#[derive(Drop)]
struct Expressions {
    all: Vec<Expression>,
    types: Vec<Vec<NodeTypes>>,
}

/// The program with each expression folded, by the types of the program as it was.
///
/// Returns `Err` only if memory runs out. Each node is folded once; a dispatch goes through the classes that define its method besides. The folded
/// expressions stand beside those of the program until all are made: memory in proportion to the nodes of the program. It takes stack in proportion to the
/// depth of the deepest expression.
pub fn fold(alloc: Global, p: TypedProgram) -> Result<TypedProgram, AllocError>
    ensures folded { IfOk result (λ q. q ≡ fold_table p) }
    ensures fits { (count : ℕ) → Fits p count → IfOk result (λ q. Fits q count) }
{
    let Expressions { mut all, types } = folded_expressions(alloc, &p)?;
    let mut table = p.into_table();
    while let Some(expression) = all.pop() {
        let Expression {
            class,
            feature,
            body,
        } = expression;
        table.swap_body(class, feature, body);
    }
    Ok(TypedProgram::new(table, types))
}

/// The expressions of the folded program, in order. Returns `Err` only if memory runs out.
fn folded_expressions(alloc: Global, p: &TypedProgram) -> Result<Expressions, AllocError>
    ensures all { IfOk result (λ folded. folded.all.items ≡ expressions_from 0 (fold_table p.now)) }
    ensures types { IfOk result (λ folded. columns_of folded.types.items ≡ table_types (fold_table p.now)) }
{
    let table = p.table();
    let definers = Definers::new(alloc, table)?;
    let mut all = Vec::new(alloc);
    let mut types = Vec::new(alloc);
    for number in 0..table.count() {
        types.push(add_folded(alloc, p, &definers, ClassId(number), &mut all)?)?;
    }
    Ok(Expressions { all, types })
}

/// Adds the folded expressions of the features of a class, in order, and answers the types of the nodes of each. Returns `Err` only if memory runs out.
fn add_folded<'a>(
    alloc: Global,
    p: &'a TypedProgram,
    definers: &Definers<'a>,
    class: ClassId,
    all: &mut Vec<Expression>,
) -> Result<Vec<NodeTypes>, AllocError>
    requires definers { AreDefiners p.now definers.now }
    requires class { class.0 < length p.now }
    ensures expressions { OnOk result (all.new.items ≡ all.old.items ++ expressions_of class 0 (features_of (fold_table p.now) class)) }
    ensures types { IfOk result (λ types. types.items ≡ features_types (fold_table p.now) class (features_of (fold_table p.now) class)) }
{
    let mut columns = Vec::new(alloc);
    let count = p.table().features(class).len() as u32;
    for feature in 0..count {
        let FoldedFeature { body, types } = fold_body(alloc, p, definers, class, feature)?;
        columns.push(types)?;
        if let Some(body) = body {
            all.push(Expression {
                class,
                feature,
                body,
            })?;
        }
    }
    Ok(columns)
}
