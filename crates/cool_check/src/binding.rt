//! Functions that check `let` and `case` expressions and compute their types.

ghost use Rattle.std.specs.Prelude.{◌≡◌, ◌≤◌, ◌+◌, ◌++◌, ◌<◌, [], None, length, IfSome, OnOk};
ghost use Rattle.std.specs.List.{AllByRecursion};
ghost use Rattle.cool_syntax.specs.Tree.{tree_size, maybe_size, cases_size};
ghost use Rattle.cool_syntax.specs.NodeGroups.{IsBinding};
ghost use Rattle.cool_syntax.specs.NodeLists.{tree_at, HasPartsBelow, cases_of, maybe_tree_of, tree_of_node};
ghost use Rattle.cool_syntax.specs.TokenFacts.{IsPlaced};
ghost use Rattle.cool_syntax.specs.TreesWithinLimits.{AreCasesWithin, IsMaybeWithin};
ghost use Rattle.cool_rules.specs.Conformance.{IsType};
ghost use Rattle.cool_check.specs.Checks.{nodes_typed, parts_typed, maybe_typed, cases_typed, IsReady, IsAnswer, IsTypeOf};
ghost use Rattle.cool_check.specs.FirstFaults.{maybe_checked, cases_checked, bound_type, branch_class, joined, bind};
ghost use Rattle.cool_rules.specs.Rules.{is_among};
ghost use Rattle.cool_check.specs.Contexts.{context};
ghost use Rattle.cool_check.specs.TypingSettings.{IsSound};

use crate::expression::{is_self, type_of};
use crate::fault::{CheckError, TypeKind, TypingRule};
use crate::typing_setting::TypingSetting;
use cool_classes::{ClassId, OBJECT, Ty};
use cool_pool::Column;
use cool_rules::Scope;
use cool_syntax::{Name, Node, NodeBranch, NodeId, Place, TypeRef};

/// The type of a `let` or a `case`, whose parts have numbers below this one.
#[cycle(typing)]
pub(crate) fn type_of_binding<'a>(
    setting: &TypingSetting<'a, '_>,
    locals: &mut Scope<'a, Ty>,
    types: &mut Column<Ty>,
    id: NodeId,
    node: &'a Node,
) -> Result<Ty, CheckError>
    requires group { IsBinding node.now }
    requires parts { HasPartsBelow id.0 node.now }
    requires ready { IsReady setting.now locals.old id.0 }
    requires room { length types.old.held + tree_size (tree_of_node setting.now.body.now node.now) ≤ types.old.room }
    ensures scope { OnOk result (locals.new ≡ locals.old) }
    ensures column { OnOk result (types.new.held ≡ types.old.held ++ parts_typed setting.now locals.old (tree_of_node setting.now.body.now node.now)) }
    ensures room { OnOk result (length types.new.held + 1 + types.old.room ≤ length types.old.held + tree_size (tree_of_node setting.now.body.now node.now) + types.new.room) }
    ensures answer { IsTypeOf setting.now locals.old (tree_of_node setting.now.body.now node.now) result }
{
    match node {
        Node::Let {
            at,
            name,
            declared,
            init,
            body,
        } => {
            let given = type_of_option(setting, locals, types, id, *init)?;
            let bound = bound_type(setting, *at, name, declared, given)?;
            type_within(setting, locals, types, name, bound, *body)
        }
        Node::Case {
            value,
            branches,
            ..
        } => {
            type_of(setting, locals, types, *value)?;
            type_of_branches(setting, locals, types, id, branches.as_slice())
        }
        _ => unreachable!(),
    }
}

/// The type of an initial value, where there is one.
#[cycle(typing)]
fn type_of_option<'a>(
    setting: &TypingSetting<'a, '_>,
    locals: &mut Scope<'a, Ty>,
    types: &mut Column<Ty>,
    end: NodeId,
    init: Option<NodeId>,
) -> Result<Option<Ty>, CheckError>
    requires init { IfSome init (λ value. value.0 < end.0) }
    requires ready { IsReady setting.now locals.old end.0 }
    requires room { length types.old.held + maybe_size (maybe_tree_of setting.now.body.now init) ≤ types.old.room }
    ensures scope { OnOk result (locals.new ≡ locals.old) }
    ensures column { OnOk result (types.new.held ≡ types.old.held ++ maybe_typed setting.now locals.old (maybe_tree_of setting.now.body.now init)) }
    ensures room { OnOk result (length types.new.held + types.old.room ≤ length types.old.held + maybe_size (maybe_tree_of setting.now.body.now init) + types.new.room) }
    ensures answer { IsAnswer (maybe_checked (context setting.now) locals.old (maybe_tree_of setting.now.body.now init)) (λ given. IfSome given (IsType setting.now.table.now)) (λ n. IsMaybeWithin n (maybe_tree_of setting.now.body.now init)) result }
{
    match init {
        Some(value) => Ok(Some(type_of(setting, locals, types, value)?)),
        None => Ok(None),
    }
}

/// The type of the variable of a `let` whose initial value, if any, has this type.
fn bound_type(
    setting: &TypingSetting<'_, '_>,
    at: Place,
    name: &Name,
    declared: &TypeRef,
    given: Option<Ty>,
) -> Result<Ty, CheckError>
    requires sound { IsSound setting.now }
    requires given { IfSome given (IsType setting.now.table.now) }
    ensures { IsAnswer (bound_type (context setting.now) at name.now declared.now given) (IsType setting.now.table.now) (λ n. IsPlaced n at × IsPlaced n declared.now.at) result }
{
    if is_self(name) {
        return Err(CheckError::at(TypingRule::Let, TypeKind::E10, at));
    }
    let Some(bound) = setting.type_named(&declared.name) else {
        return Err(CheckError::at(TypingRule::Let, TypeKind::E11, declared.at));
    };
    match given {
        Some(value) if !setting.conforms(value, bound) => {
            Err(CheckError::unfit(TypingRule::Let, TypeKind::E17, at, value, bound))
        }
        _ => Ok(bound),
    }
}

/// The type of an expression in the scope with one more variable.
#[cycle(typing)]
fn type_within<'a>(
    setting: &TypingSetting<'a, '_>,
    locals: &mut Scope<'a, Ty>,
    types: &mut Column<Ty>,
    name: &'a Name,
    bound: Ty,
    body: NodeId,
) -> Result<Ty, CheckError>
    requires bound { IsType setting.now.table.now bound }
    requires ready { IsReady setting.now locals.old body.0 }
    requires room { length types.old.held + tree_size (tree_at setting.now.body.now body) ≤ types.old.room }
    ensures scope { OnOk result (locals.new ≡ locals.old) }
    ensures column { OnOk result (types.new.held ≡ types.old.held ++ nodes_typed setting.now (bind name.now bound locals.old) (tree_at setting.now.body.now body)) }
    ensures room { OnOk result (length types.new.held + types.old.room ≤ length types.old.held + tree_size (tree_at setting.now.body.now body) + types.new.room) }
    ensures answer { IsTypeOf setting.now (bind name.now bound locals.old) (tree_at setting.now.body.now body) result }
{
    locals.enter(name, bound)?;
    let found = type_of(setting, locals, types, body)?;
    locals.leave();
    Ok(found)
}

/// The join of the types of branches, in order. A text has one at least; that of none is Object.
#[cycle(typing)]
fn type_of_branches<'a>(
    setting: &TypingSetting<'a, '_>,
    locals: &mut Scope<'a, Ty>,
    types: &mut Column<Ty>,
    end: NodeId,
    branches: &'a [NodeBranch],
) -> Result<Ty, CheckError>
    requires branches { AllByRecursion (λ branch. branch.body.0 < end.0) branches.now }
    requires ready { IsReady setting.now locals.old end.0 }
    requires room { length types.old.held + cases_size (cases_of setting.now.body.now branches.now) ≤ types.old.room }
    ensures scope { OnOk result (locals.new ≡ locals.old) }
    ensures column { OnOk result (types.new.held ≡ types.old.held ++ cases_typed setting.now locals.old (cases_of setting.now.body.now branches.now)) }
    ensures room { OnOk result (length types.new.held + types.old.room ≤ length types.old.held + cases_size (cases_of setting.now.body.now branches.now) + types.new.room) }
    ensures answer { IsAnswer (cases_checked (context setting.now) locals.old [] None (cases_of setting.now.body.now branches.now)) (IsType setting.now.table.now) (λ n. AreCasesWithin n (cases_of setting.now.body.now branches.now)) result }
{
    let mut classes = Vec::new(setting.alloc);
    let mut joined = None;
    for branch in branches {
        let class = branch_class(setting, branch, &classes)?;
        let found = type_within(
            setting,
            locals,
            types,
            &branch.name,
            Ty::Class(class),
            branch.body,
        )?;
        classes.push(class)?;
        joined = Some(joined_with(setting, joined, found));
    }
    Ok(joined.unwrap_or(Ty::Class(OBJECT)))
}

/// The join of a type with that of the branches before, where there are any.
fn joined_with(setting: &TypingSetting<'_, '_>, earlier: Option<Ty>, found: Ty) -> Ty
    requires sound { IsSound setting.now }
    requires earlier { IfSome earlier (IsType setting.now.table.now) }
    requires found { IsType setting.now.table.now found }
    ensures is_type { IsType setting.now.table.now result }
    ensures joined { result ≡ joined (context setting.now) earlier found }
{
    match earlier {
        Some(so_far) => setting.join(so_far, found),
        None => found,
    }
}

/// The class of a branch, after branches of these classes.
fn branch_class(
    setting: &TypingSetting<'_, '_>,
    branch: &NodeBranch,
    earlier: &[ClassId],
) -> Result<ClassId, CheckError>
    requires sound { IsSound setting.now }
    ensures { IsAnswer (branch_class (context setting.now) branch.now.at branch.now.name branch.now.declared earlier.now) (λ class. class.0 < length setting.now.table.now) (λ n. IsPlaced n branch.now.at × IsPlaced n branch.now.declared.at) result }
{
    if is_self(&branch.name) {
        return Err(CheckError::at(TypingRule::Case, TypeKind::E10, branch.at));
    }
    let at = branch.declared.at;
    match setting.type_named(&branch.declared.name) {
        Some(Ty::SelfType) => Err(CheckError::at(TypingRule::Case, TypeKind::E12, at)),
        None => Err(CheckError::at(TypingRule::Case, TypeKind::E11, at)),
        Some(Ty::Class(class)) if is_among(earlier, class) => {
            Err(CheckError::at(TypingRule::Case, TypeKind::E13, at))
        }
        Some(Ty::Class(class)) => Ok(class),
    }
}

/// Whether a class is one of some.
fn is_among(classes: &[ClassId], class: ClassId) -> bool
    ensures { result ≡ is_among classes.now class }
{
    classes.contains(&class)
}
