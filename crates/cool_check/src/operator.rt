//! Functions that check assignments and operators and compute their types.

ghost use Rattle.std.specs.Prelude.{◌≡◌, length, ◌≤◌, ◌+◌, ◌++◌, true, false, IfOk, IfErr, OnOk};
ghost use Rattle.cool_syntax.specs.Tree.{tree_size};
ghost use Rattle.cool_syntax.specs.NodeGroups.{IsBinary, IsUnary};
ghost use Rattle.cool_syntax.specs.NodeLists.{HasPartsBelow, tree_of_node};
ghost use Rattle.cool_syntax.specs.TokenFacts.{IsPlaced};
ghost use Rattle.cool_rules.specs.Conformance.{IsType};
ghost use Rattle.cool_check.specs.Checks.{parts_typed, IsReady, IsAnswer, IsTypeOf};
ghost use Rattle.cool_check.specs.Faults.{StandsAt};
ghost use Rattle.cool_rules.specs.Rules.{same_type};
ghost use Rattle.cool_rules.specs.Typing.{has_values};
ghost use Rattle.cool_check.specs.FirstFaults.{assigned, compared, unfit};
ghost use Rattle.cool_check.specs.Contexts.{context};
ghost use Rattle.cool_check.specs.declared.fault.CheckError.TheVariants as error;
ghost use Rattle.cool_classes.specs.declared.class_id.Ty.TheVariants.{Class as IsClass};
ghost use Rattle.cool_rules.specs.Scopes.{AreTypes};
ghost use Rattle.cool_check.specs.TypingSettings.{IsSound};

use crate::expression::{is_class, is_self, type_of, type_of_name};
use crate::fault::{CheckError, TypeKind, TypingRule};
use crate::typing_setting::TypingSetting;
use cool_classes::{BOOL, ClassId, INT, STRING, Ty};
use cool_pool::Column;
use cool_rules::Scope;
use cool_syntax::{CompareOp, Name, Node, NodeId, Place};

/// The type of an assignment or of an operator with one operand, which has a number below this one.
#[cycle(typing)]
pub(crate) fn type_of_unary<'a>(
    setting: &TypingSetting<'a, '_>,
    locals: &mut Scope<'a, Ty>,
    types: &mut Column<Ty>,
    id: NodeId,
    node: &'a Node,
) -> Result<Ty, CheckError>
    requires group { IsUnary node.now }
    requires parts { HasPartsBelow id.0 node.now }
    requires ready { IsReady setting.now locals.old id.0 }
    requires room { length types.old.held + tree_size (tree_of_node setting.now.body.now node.now) ≤ types.old.room }
    ensures scope { OnOk result (locals.new ≡ locals.old) }
    ensures column { OnOk result (types.new.held ≡ types.old.held ++ parts_typed setting.now locals.old (tree_of_node setting.now.body.now node.now)) }
    ensures room { OnOk result (length types.new.held + 1 + types.old.room ≤ length types.old.held + tree_size (tree_of_node setting.now.body.now node.now) + types.new.room) }
    ensures answer { IsTypeOf setting.now locals.old (tree_of_node setting.now.body.now node.now) result }
{
    match node {
        Node::Assign { at, name, value } => {
            let given = type_of(setting, locals, types, *value)?;
            assigned(setting, locals, *at, name, given)
        }
        Node::IsVoid { value, .. } => {
            type_of(setting, locals, types, *value)?;
            Ok(Ty::Class(BOOL))
        }
        Node::Neg { at, value } => {
            let found = type_of(setting, locals, types, *value)?;
            expect(found, INT, TypingRule::Neg, TypeKind::E14, *at)?;
            Ok(Ty::Class(INT))
        }
        Node::Not { at, value } => {
            let found = type_of(setting, locals, types, *value)?;
            expect(found, BOOL, TypingRule::Not, TypeKind::E16, *at)?;
            Ok(Ty::Class(BOOL))
        }
        _ => unreachable!(),
    }
}

/// The type of an assignment to a name of a value of this type.
fn assigned(
    setting: &TypingSetting<'_, '_>,
    locals: &Scope<'_, Ty>,
    at: Place,
    name: &Name,
    given: Ty,
) -> Result<Ty, CheckError>
    requires sound { IsSound setting.now }
    requires locals { AreTypes setting.now.table.now locals.now }
    requires given { IsType setting.now.table.now given }
    ensures answer { IsAnswer (assigned (context setting.now) locals.now at name.now given) (IsType setting.now.table.now) (λ n. IsPlaced n at) result }
    ensures fault { IfErr result (StandsAt at) }
{
    if is_self(name) {
        return Err(CheckError::at(TypingRule::Assign, TypeKind::E2, at));
    }
    let declared = type_of_name(setting, locals, TypingRule::Assign, at, name)?;
    if setting.conforms(given, declared) {
        Ok(given)
    } else {
        Err(CheckError::unfit(TypingRule::Assign, TypeKind::E3, at, given, declared))
    }
}

/// Refuses an operand of another class than this with this fault.
fn expect(
    found: Ty,
    class: ClassId,
    rule: TypingRule,
    kind: TypeKind,
    at: Place,
) -> Result<(), CheckError>
    ensures holds { IfOk result (λ u. same_type found (IsClass class) ≡ true) }
    ensures fails { IfErr result (λ e. (same_type found (IsClass class) ≡ false) × (e ≡ error.Fault (unfit rule kind at found (IsClass class)))) }
{
    if is_class(found, class) {
        Ok(())
    } else {
        Err(CheckError::unfit(rule, kind, at, found, Ty::Class(class)))
    }
}

/// The type of an operator with two operands, which have numbers below this one.
#[cycle(typing)]
pub(crate) fn type_of_binary<'a>(
    setting: &TypingSetting<'a, '_>,
    locals: &mut Scope<'a, Ty>,
    types: &mut Column<Ty>,
    id: NodeId,
    node: &'a Node,
) -> Result<Ty, CheckError>
    requires group { IsBinary node.now }
    requires parts { HasPartsBelow id.0 node.now }
    requires ready { IsReady setting.now locals.old id.0 }
    requires room { length types.old.held + tree_size (tree_of_node setting.now.body.now node.now) ≤ types.old.room }
    ensures scope { OnOk result (locals.new ≡ locals.old) }
    ensures column { OnOk result (types.new.held ≡ types.old.held ++ parts_typed setting.now locals.old (tree_of_node setting.now.body.now node.now)) }
    ensures room { OnOk result (length types.new.held + 1 + types.old.room ≤ length types.old.held + tree_size (tree_of_node setting.now.body.now node.now) + types.new.room) }
    ensures answer { IsTypeOf setting.now locals.old (tree_of_node setting.now.body.now node.now) result }
{
    match node {
        Node::Arith {
            at,
            left,
            right,
            ..
        } => {
            let first = type_of(setting, locals, types, *left)?;
            let second = type_of(setting, locals, types, *right)?;
            expect(first, INT, TypingRule::Arith, TypeKind::E14, *at)?;
            expect(second, INT, TypingRule::Arith, TypeKind::E14, *at)?;
            Ok(Ty::Class(INT))
        }
        Node::Compare {
            at,
            op,
            left,
            right,
        } => {
            let first = type_of(setting, locals, types, *left)?;
            let second = type_of(setting, locals, types, *right)?;
            compared(*op, first, second, *at)
        }
        _ => unreachable!(),
    }
}

/// The type of a comparison of operands of these types.
fn compared(op: CompareOp, first: Ty, second: Ty, at: Place) -> Result<Ty, CheckError>
    ensures answer { IsAnswer (compared op first second at) (λ t. t ≡ IsClass BOOL) (λ n. IsPlaced n at) result }
    ensures fault { IfErr result (StandsAt at) }
{
    match op {
        CompareOp::Less | CompareOp::LessEqual => {
            expect(first, INT, TypingRule::Compare, TypeKind::E14, at)?;
            expect(second, INT, TypingRule::Compare, TypeKind::E14, at)?;
        }
        CompareOp::Equal => {
            if !same_type(first, second) && (has_values(first) || has_values(second)) {
                return Err(CheckError::unfit(
                    TypingRule::Compare,
                    TypeKind::E15,
                    at,
                    second,
                    first,
                ));
            }
        }
    }
    Ok(Ty::Class(BOOL))
}

/// Whether a type is Int, Bool or String, whose objects are compared by value.
fn has_values(a: Ty) -> bool
    ensures { result ≡ has_values a }
{
    is_class(a, INT) || is_class(a, BOOL) || is_class(a, STRING)
}

/// Whether two types are one.
fn same_type(a: Ty, b: Ty) -> bool
    ensures { result ≡ same_type a b }
{
    match b {
        Ty::Class(class) => is_class(a, class),
        Ty::SelfType => matches!(a, Ty::SelfType),
    }
}
