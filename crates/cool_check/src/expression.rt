//! Functions that check expressions and compute their types: those for names, constants, conditionals, loops and blocks are here, and other modules have the
//! other kinds.

ghost use Rattle.std.specs.Prelude.{◌≡◌, ◌≤◌, ◌+◌, ◌<◌, ◌++◌, ℕ, [], Ok, true, false, length, IfOk, IfErr, OnOk};
ghost use Rattle.std.specs.List.{AllByRecursion};
ghost use Rattle.cool_syntax.specs.Tree.{place_of, tree_size, trees_size};
ghost use Rattle.cool_syntax.specs.NodeGroups.{IsControl, IsLeaf};
ghost use Rattle.cool_syntax.specs.NodeLists.{tree_at, HasPartsBelow, tree_of_node, trees_of};
ghost use Rattle.cool_syntax.specs.TokenFacts.{IsPlaced};
ghost use Rattle.cool_syntax.specs.TreesWithinLimits.{AreTreesWithin, IsTreeWithin};
ghost use Rattle.cool_rules.specs.Conformance.{IsType};
ghost use Rattle.cool_check.specs.Checks.{nodes_typed, parts_typed, all_typed, IsReady, IsAnswer, IsTypeOf};
ghost use Rattle.cool_check.specs.Faults.{IsPlacedError, StandsAt};
ghost use Rattle.cool_rules.specs.Rules.{same_type};
ghost use Rattle.cool_check.specs.FirstFaults.{all_checked, last_checked, name_checked, is_self, unfit, IsFirst};
ghost use Rattle.cool_check.specs.Contexts.{context};
ghost use Rattle.cool_check.specs.TypingSettings.{IsSound};
ghost use Rattle.cool_check.specs.declared.fault.CheckError.TheVariants as error;
ghost use Rattle.cool_check.specs.declared.fault.TypeKind.TheVariants as kind;
ghost use Rattle.cool_classes.specs.declared.class_id.Ty.TheVariants.{Class as IsClass};
ghost use Rattle.cool_rules.specs.Typing.{bool_type, object_type};
ghost use Rattle.cool_rules.specs.Scopes.{AreTypes};

use crate::binding::type_of_binding;
use crate::dispatch::type_of_call;
use crate::fault::{CheckError, TypeKind, TypingRule};
use crate::operator::{type_of_binary, type_of_unary};
use crate::typing_setting::TypingSetting;
use cool_classes::{BOOL, ClassId, INT, OBJECT, STRING, Ty};
use cool_pool::Column;
use cool_rules::Scope;
use cool_syntax::{Name, Node, NodeId, Place};

/// The type of the expression at this number. It is added to the types of the nodes, after those of the parts.
#[cycle(typing)]
pub(crate) fn type_of<'a>(
    setting: &TypingSetting<'a, '_>,
    locals: &mut Scope<'a, Ty>,
    types: &mut Column<Ty>,
    id: NodeId,
) -> Result<Ty, CheckError>
    requires ready { IsReady setting.now locals.old id.0 }
    requires room { length types.old.held + tree_size (tree_at setting.now.body.now id) ≤ types.old.room }
    ensures scope { OnOk result (locals.new ≡ locals.old) }
    ensures column { OnOk result (types.new.held ≡ types.old.held ++ nodes_typed setting.now locals.old (tree_at setting.now.body.now id)) }
    ensures room { OnOk result (length types.new.held + types.old.room ≤ length types.old.held + tree_size (tree_at setting.now.body.now id) + types.new.room) }
    ensures answer { IsTypeOf setting.now locals.old (tree_at setting.now.body.now id) result }
{
    let found = type_of_node(setting, locals, types, id, setting.body.node(id))?;
    types.push(found);
    Ok(found)
}

/// The type of the expression of a node, whose parts have numbers below this one.
#[cycle(typing)]
fn type_of_node<'a>(
    setting: &TypingSetting<'a, '_>,
    locals: &mut Scope<'a, Ty>,
    types: &mut Column<Ty>,
    id: NodeId,
    node: &'a Node,
) -> Result<Ty, CheckError>
    requires parts { HasPartsBelow id.0 node.now }
    requires ready { IsReady setting.now locals.old id.0 }
    requires room { length types.old.held + tree_size (tree_of_node setting.now.body.now node.now) ≤ types.old.room }
    ensures scope { OnOk result (locals.new ≡ locals.old) }
    ensures column { OnOk result (types.new.held ≡ types.old.held ++ parts_typed setting.now locals.old (tree_of_node setting.now.body.now node.now)) }
    ensures room { OnOk result (length types.new.held + 1 + types.old.room ≤ length types.old.held + tree_size (tree_of_node setting.now.body.now node.now) + types.new.room) }
    ensures answer { IsTypeOf setting.now locals.old (tree_of_node setting.now.body.now node.now) result }
{
    match node {
        Node::Dispatch { .. } | Node::StaticDispatch { .. } => {
            type_of_call(setting, locals, types, id, node)
        }
        Node::Let { .. } | Node::Case { .. } => type_of_binding(setting, locals, types, id, node),
        Node::If { .. } | Node::While { .. } | Node::Block { .. } => {
            type_of_control(setting, locals, types, id, node)
        }
        Node::Assign { .. } | Node::IsVoid { .. } | Node::Neg { .. } | Node::Not { .. } => {
            type_of_unary(setting, locals, types, id, node)
        }
        Node::Arith { .. } | Node::Compare { .. } => type_of_binary(
            setting, locals, types, id, node,
        ),
        Node::New { .. }
        | Node::Id { .. }
        | Node::Int { .. }
        | Node::Str { .. }
        | Node::Bool { .. } => type_of_leaf(setting, locals, node),
    }
}

/// The type of a name, a constant or a new object.
fn type_of_leaf(
    setting: &TypingSetting<'_, '_>,
    locals: &Scope<'_, Ty>,
    node: &Node,
) -> Result<Ty, CheckError>
    requires group { IsLeaf node.now }
    requires sound { IsSound setting.now }
    requires locals { AreTypes setting.now.table.now locals.now }
    ensures { IsTypeOf setting.now locals.now (tree_of_node setting.now.body.now node.now) result }
{
    match node {
        Node::Id { at, name } => type_of_name(setting, locals, TypingRule::Id, *at, name),
        Node::New { class, .. } => match setting.type_named(&class.name) {
            Some(made) => Ok(made),
            None => Err(CheckError::at(TypingRule::New, TypeKind::E11, class.at)),
        },
        Node::Int { .. } => Ok(Ty::Class(INT)),
        Node::Str { .. } => Ok(Ty::Class(STRING)),
        Node::Bool { .. } => Ok(Ty::Class(BOOL)),
        _ => unreachable!(),
    }
}

/// The type of a name in this rule: that of `self`, of the latest variable of this name or else of the attribute.
pub(crate) fn type_of_name(
    setting: &TypingSetting<'_, '_>,
    locals: &Scope<'_, Ty>,
    rule: TypingRule,
    at: Place,
    name: &Name,
) -> Result<Ty, CheckError>
    requires sound { IsSound setting.now }
    requires locals { AreTypes setting.now.table.now locals.now }
    ensures answer { IsAnswer (name_checked (context setting.now) locals.now rule at name.now) (IsType setting.now.table.now) (λ n. IsPlaced n at) result }
    ensures fault { IfErr result (StandsAt at) }
{
    if is_self(name) {
        return Ok(Ty::SelfType);
    }
    match locals.find(name).or(setting.attributes.find(name)) {
        Some(found) => Ok(found),
        None => Err(CheckError::at(rule, TypeKind::E1, at)),
    }
}

/// Whether this is the name `self`.
pub(crate) fn is_self(name: &Name) -> bool
    ensures { result ≡ is_self name.now }
{
    name.as_slice() == b"self".as_slice()
}

/// The type of a conditional, a loop or a block, whose parts have numbers below this one.
#[cycle(typing)]
fn type_of_control<'a>(
    setting: &TypingSetting<'a, '_>,
    locals: &mut Scope<'a, Ty>,
    types: &mut Column<Ty>,
    id: NodeId,
    node: &'a Node,
) -> Result<Ty, CheckError>
    requires group { IsControl node.now }
    requires parts { HasPartsBelow id.0 node.now }
    requires ready { IsReady setting.now locals.old id.0 }
    requires room { length types.old.held + tree_size (tree_of_node setting.now.body.now node.now) ≤ types.old.room }
    ensures scope { OnOk result (locals.new ≡ locals.old) }
    ensures column { OnOk result (types.new.held ≡ types.old.held ++ parts_typed setting.now locals.old (tree_of_node setting.now.body.now node.now)) }
    ensures room { OnOk result (length types.new.held + 1 + types.old.room ≤ length types.old.held + tree_size (tree_of_node setting.now.body.now node.now) + types.new.room) }
    ensures answer { IsTypeOf setting.now locals.old (tree_of_node setting.now.body.now node.now) result }
{
    match node {
        Node::If { test, yes, no, .. } => {
            let predicate = type_of(setting, locals, types, *test)?;
            let first = type_of(setting, locals, types, *yes)?;
            let second = type_of(setting, locals, types, *no)?;
            expect_bool(setting, TypingRule::If, *test, predicate)?;
            Ok(setting.join(first, second))
        }
        Node::While { test, body, .. } => {
            let predicate = type_of(setting, locals, types, *test)?;
            type_of(setting, locals, types, *body)?;
            expect_bool(setting, TypingRule::While, *test, predicate)?;
            Ok(Ty::Class(OBJECT))
        }
        Node::Block { items, .. } => type_of_last(setting, locals, types, id, items.as_slice()),
        _ => unreachable!(),
    }
}

/// Refuses a predicate that is not Bool, by this rule.
fn expect_bool(
    setting: &TypingSetting<'_, '_>,
    rule: TypingRule,
    test: NodeId,
    found: Ty,
) -> Result<(), CheckError>
    requires below { test.0 < tree_size setting.now.body.now }
    ensures holds { IfOk result (λ u. same_type found bool_type ≡ true) }
    ensures fails { IfErr result (λ e. (same_type found bool_type ≡ false) × (e ≡ error.Fault (unfit rule kind.E9 (place_of (tree_at setting.now.body.now test)) found bool_type))) }
    ensures places { (n : ℕ) → IsTreeWithin n (tree_at setting.now.body.now test) → IfErr result (IsPlacedError n) }
{
    if is_class(found, BOOL) {
        return Ok(());
    }
    let at = setting.body.node(test).place();
    Err(CheckError::unfit(rule, TypeKind::E9, at, found, Ty::Class(BOOL)))
}

/// Whether a type is this class.
pub(crate) fn is_class(a: Ty, class: ClassId) -> bool
    ensures { result ≡ same_type a (IsClass class) }
{
    match a {
        Ty::Class(found) => found == class,
        Ty::SelfType => false,
    }
}

/// The type of the last of some expressions, in order. A text has one at least; that of none is Object.
#[cycle(typing)]
fn type_of_last<'a>(
    setting: &TypingSetting<'a, '_>,
    locals: &mut Scope<'a, Ty>,
    types: &mut Column<Ty>,
    end: NodeId,
    items: &[NodeId],
) -> Result<Ty, CheckError>
    requires items { AllByRecursion (λ item. item.0 < end.0) items.now }
    requires ready { IsReady setting.now locals.old end.0 }
    requires room { length types.old.held + trees_size (trees_of setting.now.body.now items.now) ≤ types.old.room }
    ensures scope { OnOk result (locals.new ≡ locals.old) }
    ensures column { OnOk result (types.new.held ≡ types.old.held ++ all_typed setting.now locals.old (trees_of setting.now.body.now items.now)) }
    ensures room { OnOk result (length types.new.held + types.old.room ≤ length types.old.held + trees_size (trees_of setting.now.body.now items.now) + types.new.room) }
    ensures answer { IsAnswer (last_checked (context setting.now) locals.old object_type (trees_of setting.now.body.now items.now)) (IsType setting.now.table.now) (λ n. AreTreesWithin n (trees_of setting.now.body.now items.now)) result }
{
    let mut last = Ty::Class(OBJECT);
    for item in items {
        last = type_of(setting, locals, types, *item)?;
    }
    Ok(last)
}

/// The types of some expressions, in order.
#[cycle(typing)]
pub(crate) fn types_of<'a>(
    setting: &TypingSetting<'a, '_>,
    locals: &mut Scope<'a, Ty>,
    types: &mut Column<Ty>,
    end: NodeId,
    items: &[NodeId],
) -> Result<Vec<Ty>, CheckError>
    requires items { AllByRecursion (λ item. item.0 < end.0) items.now }
    requires ready { IsReady setting.now locals.old end.0 }
    requires room { length types.old.held + trees_size (trees_of setting.now.body.now items.now) ≤ types.old.room }
    ensures types { IfOk result (λ found. AllByRecursion (IsType setting.now.table.now) found.items) }
    ensures each { IfOk result (λ found. length found.items ≡ length items.now) }
    ensures typed { IfOk result (λ found. all_checked (context setting.now) locals.old [] (trees_of setting.now.body.now items.now) ≡ Ok found.items) }
    ensures first { IfErr result (IsFirst (all_checked (context setting.now) locals.old [] (trees_of setting.now.body.now items.now))) }
    ensures scope { OnOk result (locals.new ≡ locals.old) }
    ensures column { OnOk result (types.new.held ≡ types.old.held ++ all_typed setting.now locals.old (trees_of setting.now.body.now items.now)) }
    ensures room { OnOk result (length types.new.held + types.old.room ≤ length types.old.held + trees_size (trees_of setting.now.body.now items.now) + types.new.room) }
    ensures places { (n : ℕ) → AreTreesWithin n (trees_of setting.now.body.now items.now) → IfErr result (IsPlacedError n) }
{
    let mut found = Vec::new(setting.alloc);
    for item in items {
        found.push(type_of(setting, locals, types, *item)?)?;
    }
    Ok(found)
}
