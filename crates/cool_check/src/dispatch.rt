//! Functions that check dispatches (method calls) and compute their types.

ghost use Rattle.std.specs.Prelude.{◌≡◌, ◌≤◌, ◌+◌, ◌++◌, ◌<◌, ℕ, length, IfSome, OnOk};
ghost use Rattle.cool_syntax.specs.Tree.{tree_size};
ghost use Rattle.cool_syntax.specs.NodeGroups.{IsCall};
ghost use Rattle.cool_syntax.specs.NodeLists.{HasPartsBelow, tree_of_node, trees_of};
ghost use Rattle.cool_syntax.specs.TokenFacts.{IsPlaced};
ghost use Rattle.cool_syntax.specs.TreesWithinLimits.{AreTreesWithin};
ghost use Rattle.cool_classes.specs.Features.{HasMethod, formals_of};
ghost use Rattle.cool_rules.specs.Conformance.{IsType};
ghost use Rattle.cool_check.specs.Checks.{parts_typed, IsReady, AreArguments, IsAnswer, IsTypeOf};
ghost use Rattle.cool_check.specs.FirstFaults.{static_class, call_checked, misfit, resulting};
ghost use Rattle.cool_check.specs.Contexts.{context};
ghost use Rattle.cool_check.specs.TypingSettings.{IsSound};

use crate::expression::{type_of, types_of};
use crate::fault::{CheckError, TypeFault, TypeKind, TypingRule};
use crate::typing_setting::TypingSetting;
use cool_classes::{ClassId, MethodRef, Ty};
use cool_pool::Column;
use cool_rules::{Scope, class_of};
use cool_syntax::{Name, Node, NodeId, Place, TypeRef};

/// The type of a dispatch, whose parts have numbers below this one.
#[cycle(typing)]
pub(crate) fn type_of_call<'a>(
    setting: &TypingSetting<'a, '_>,
    locals: &mut Scope<'a, Ty>,
    types: &mut Column<Ty>,
    id: NodeId,
    node: &'a Node,
) -> Result<Ty, CheckError>
    requires group { IsCall node.now }
    requires parts { HasPartsBelow id.0 node.now }
    requires ready { IsReady setting.now locals.old id.0 }
    requires room { length types.old.held + tree_size (tree_of_node setting.now.body.now node.now) ≤ types.old.room }
    ensures scope { OnOk result (locals.new ≡ locals.old) }
    ensures column { OnOk result (types.new.held ≡ types.old.held ++ parts_typed setting.now locals.old (tree_of_node setting.now.body.now node.now)) }
    ensures room { OnOk result (length types.new.held + 1 + types.old.room ≤ length types.old.held + tree_size (tree_of_node setting.now.body.now node.now) + types.new.room) }
    ensures answer { IsTypeOf setting.now locals.old (tree_of_node setting.now.body.now node.now) result }
{
    match node {
        Node::Dispatch {
            at,
            receiver,
            name,
            args,
        } => {
            let object = type_of(setting, locals, types, *receiver)?;
            let given = types_of(setting, locals, types, id, args.as_slice())?;
            let class = class_of(setting.class, object);
            let called = Called {
                rule: TypingRule::Dispatch,
                at: *at,
                class,
                object,
                name,
            };
            type_of_result(setting, &called, args.as_slice(), &given)
        }
        Node::StaticDispatch {
            at,
            receiver,
            class,
            name,
            args,
        } => {
            let object = type_of(setting, locals, types, *receiver)?;
            let given = types_of(setting, locals, types, id, args.as_slice())?;
            let class = static_class(setting, class, object)?;
            let called = Called {
                rule: TypingRule::StaticDispatch,
                at: *at,
                class,
                object,
                name,
            };
            type_of_result(setting, &called, args.as_slice(), &given)
        }
        _ => unreachable!(),
    }
}

/// A call: its rule, its place, the class in which the method is looked for, the type of the receiver, and the method's name.
#[derive(Clone, Copy)]
struct Called<'a> {
    rule: TypingRule,
    at: Place,
    class: ClassId,
    object: Ty,
    name: &'a Name,
}

/// The class after `@` for a receiver of this type.
fn static_class(
    setting: &TypingSetting<'_, '_>,
    class: &TypeRef,
    object: Ty,
) -> Result<ClassId, CheckError>
    requires sound { IsSound setting.now }
    requires object { IsType setting.now.table.now object }
    ensures { IsAnswer (static_class (context setting.now) class.now object) (λ found. found.0 < length setting.now.table.now) (λ n. IsPlaced n class.now.at) result }
{
    match setting.type_named(&class.name) {
        Some(Ty::SelfType) => Err(CheckError::at(
            TypingRule::StaticDispatch,
            TypeKind::E7,
            class.at,
        )),
        None => Err(CheckError::at(TypingRule::StaticDispatch, TypeKind::E11, class.at)),
        Some(Ty::Class(found)) => {
            if setting.conforms(object, Ty::Class(found)) {
                Ok(found)
            } else {
                Err(CheckError::unfit(
                    TypingRule::StaticDispatch,
                    TypeKind::E8,
                    class.at,
                    object,
                    Ty::Class(found),
                ))
            }
        }
    }
}

/// The type of a call with these arguments, which have these types.
fn type_of_result(
    setting: &TypingSetting<'_, '_>,
    called: &Called<'_>,
    args: &[NodeId],
    given: &[Ty],
) -> Result<Ty, CheckError>
    requires sound { IsSound setting.now }
    requires class { called.now.class.0 < length setting.now.table.now }
    requires object { IsType setting.now.table.now called.now.object }
    requires arguments { AreArguments setting.now args.now given.now }
    ensures { IsAnswer (call_checked (context setting.now) called.now.rule called.now.at called.now.class called.now.object called.now.name.now (trees_of setting.now.body.now args.now) given.now) (IsType setting.now.table.now) (λ n. IsPlaced n called.now.at × AreTreesWithin n (trees_of setting.now.body.now args.now)) result }
{
    let Some(method) = setting.method(called.class, called.name) else {
        return Err(CheckError::in_class(called.rule, TypeKind::E4, called.at, called.class));
    };
    if setting.table.formal_count(method) as usize != args.len() {
        return Err(CheckError::in_class(called.rule, TypeKind::E5, called.at, called.class));
    }
    match misfit(setting, called.rule, method, args, given) {
        Some(fault) => Err(CheckError::Fault(fault)),
        None => Ok(resulting(called.object, setting.result(method))),
    }
}

/// The fault of the first argument that does not conform to its formal.
fn misfit(
    setting: &TypingSetting<'_, '_>,
    rule: TypingRule,
    method: MethodRef,
    args: &[NodeId],
    given: &[Ty],
) -> Option<TypeFault>
    requires sound { IsSound setting.now }
    requires has { HasMethod setting.now.table.now method }
    requires arguments { AreArguments setting.now args.now given.now }
    requires formals { length (formals_of setting.now.table.now method) ≡ length args.now }
    ensures misfit { result ≡ misfit (context setting.now) rule (formals_of setting.now.table.now method) given.now (trees_of setting.now.body.now args.now) }
    ensures places { (n : ℕ) → AreTreesWithin n (trees_of setting.now.body.now args.now) → IfSome result (λ fault. IsPlaced n fault.at) }
{
    for index in 0..args.len() {
        let formal = setting.formal(method, index as u32);
        if !setting.conforms(given[index], formal) {
            let at = setting.body.node(args[index]).place();
            return Some(TypeFault::unfit(rule, TypeKind::E6, at, given[index], formal));
        }
    }
    None
}

/// The type of a call of a method with this result for a receiver of this type.
fn resulting(receiver: Ty, declared: Ty) -> Ty
    ensures { result ≡ resulting receiver declared }
{
    match declared {
        Ty::SelfType => receiver,
        Ty::Class(class) => Ty::Class(class),
    }
}
