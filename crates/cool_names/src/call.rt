//! Functions that collect the occurrences of names in method calls, each with its definition, as marks. To find the method, they compute the type of the
//! receiver from its form (`seen_type` of `Marks.antt`), because a source that is being edited may have no types yet.

ghost use Rattle.std.specs.Prelude.{◌≡◌, ◌<◌, ◌++◌, IfSome, OnOk, [], if◌then◌else◌};
ghost use Rattle.cool_syntax.specs.NodeGroups.{IsCall};
ghost use Rattle.cool_syntax.specs.NodeLists.{tree_at, HasPartsBelow, tree_of_node};
ghost use Rattle.cool_rules.specs.Conformance.{IsType};
ghost use Rattle.cool_names.specs.Marks.{is_written, marks_of, seen_type};
ghost use Rattle.cool_names.specs.Scopes.{variables};
ghost use Rattle.cool_names.specs.NamingSettings.{IsReady, context};

use crate::declaration::Declaration;
use crate::expression::{add_all, add_marks};
use crate::mark::Mark;
use crate::naming_setting::NamingSetting;
use cool_classes::{BOOL, INT, OBJECT, STRING, Ty};
use cool_rules::Scope;
use cool_syntax::{Node, NodeId, Place};
use std::alloc::AllocError;

/// Adds the marks of a call, whose parts have numbers below this one. Returns `Err` only if memory runs out.
#[cycle(walk)]
pub(crate) fn add_call<'a>(
    setting: &NamingSetting<'a, '_>,
    locals: &mut Scope<'a, Declaration<'a>>,
    marks: &mut Vec<Mark>,
    id: NodeId,
    node: &'a Node,
) -> Result<(), AllocError>
    requires group { IsCall node.now }
    requires parts { HasPartsBelow id.0 node.now }
    requires ready { IsReady setting.now id.0 }
    ensures scope { OnOk result (locals.new ≡ locals.old) }
    ensures marks { OnOk result (marks.new.items ≡ marks.old.items ++ marks_of (context setting.now) (variables locals.old) (tree_of_node setting.now.body.now node.now)) }
{
    match node {
        Node::Dispatch {
            at,
            receiver,
            name,
            args,
        } => {
            add_receiver(setting, locals, marks, *at, *receiver)?;
            let owner = seen_type(setting, locals, *receiver);
            marks.push(setting.call_mark(*at, name, owner)?)?;
            add_all(setting, locals, marks, id, args.as_slice())
        }
        Node::StaticDispatch {
            at,
            receiver,
            class,
            name,
            args,
        } => {
            add_marks(setting, locals, marks, *receiver)?;
            setting.add_static(marks, *at, class, name)?;
            add_all(setting, locals, marks, id, args.as_slice())
        }
        _ => unreachable!(),
    }
}

/// Adds the marks of a receiver, where it stands in the text. Returns `Err` only if memory runs out.
#[cycle(walk)]
fn add_receiver<'a>(
    setting: &NamingSetting<'a, '_>,
    locals: &mut Scope<'a, Declaration<'a>>,
    marks: &mut Vec<Mark>,
    at: Place,
    receiver: NodeId,
) -> Result<(), AllocError>
    requires ready { IsReady setting.now receiver.0 }
    ensures scope { OnOk result (locals.new ≡ locals.old) }
    ensures marks { OnOk result (marks.new.items ≡ marks.old.items ++ (if is_written at (tree_at setting.now.body.now receiver) then marks_of (context setting.now) (variables locals.old) (tree_at setting.now.body.now receiver) else [])) }
{
    if setting.body.node(receiver).place().byte == at.byte {
        return Ok(());
    }
    add_marks(setting, locals, marks, receiver)
}

/// The type that the expression at this number has at first sight, where it has one.
fn seen_type<'a>(
    setting: &NamingSetting<'a, '_>,
    locals: &Scope<'a, Declaration<'a>>,
    id: NodeId,
) -> Option<Ty>
    requires ready { IsReady setting.now id.0 }
    ensures is_type { IfSome result (IsType setting.now.program.table.now) }
    ensures seen { result ≡ seen_type (context setting.now) (variables locals.now) (tree_at setting.now.body.now id) }
{
    match setting.body.node(id) {
        Node::Id { name, .. } => setting.type_of_variable(locals, name),
        Node::New { class, .. } => setting.program.type_named(&class.name),
        Node::Assign { value, .. } => seen_type(setting, locals, *value),
        Node::Dispatch { receiver, name, .. } => {
            let object = seen_type(setting, locals, *receiver);
            setting.type_of_call(object, object, name)
        }
        Node::StaticDispatch {
            receiver,
            class,
            name,
            ..
        } => {
            let object = seen_type(setting, locals, *receiver);
            setting.type_of_call(object, setting.program.type_named(&class.name), name)
        }
        Node::Arith { .. } | Node::Neg { .. } | Node::Int { .. } => Some(Ty::Class(INT)),
        Node::Compare { .. } | Node::Not { .. } | Node::IsVoid { .. } | Node::Bool { .. } => {
            Some(Ty::Class(BOOL))
        }
        Node::Str { .. } => Some(Ty::Class(STRING)),
        Node::While { .. } => Some(Ty::Class(OBJECT)),
        Node::If { .. } | Node::Block { .. } | Node::Let { .. } | Node::Case { .. } => None,
    }
}
