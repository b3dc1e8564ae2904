//! Functions that collect the occurrences of names in expressions, each with its definition, as marks: names, new objects, conditionals, loops, blocks and
//! operators.

ghost use Rattle.std.specs.Prelude.{◌≡◌, ◌<◌, ◌++◌, OnOk, IfSome};
ghost use Rattle.std.specs.List.{AllByRecursion};
ghost use Rattle.cool_syntax.specs.NodeGroups.{IsBinary, IsControl, IsLeaf, IsUnary};
ghost use Rattle.cool_syntax.specs.NodeLists.{tree_at, HasPartsBelow, tree_of_node, trees_of};
ghost use Rattle.cool_names.specs.Marks.{marks_of, marks_of_all};
ghost use Rattle.cool_names.specs.Scopes.{variables};
ghost use Rattle.cool_names.specs.NamingSettings.{IsReady, IsSound, context};

use crate::binding::add_binding;
use crate::call::add_call;
use crate::declaration::Declaration;
use crate::mark::{Mark, Role};
use crate::naming_setting::NamingSetting;
use cool_rules::Scope;
use cool_syntax::{Node, NodeId};
use std::alloc::AllocError;

/// Adds the marks of the expression at this number. Returns `Err` only if memory runs out.
#[cycle(walk)]
pub(crate) fn add_marks<'a>(
    setting: &NamingSetting<'a, '_>,
    locals: &mut Scope<'a, Declaration<'a>>,
    marks: &mut Vec<Mark>,
    id: NodeId,
) -> Result<(), AllocError>
    requires ready { IsReady setting.now id.0 }
    ensures scope { OnOk result (locals.new ≡ locals.old) }
    ensures marks { OnOk result (marks.new.items ≡ marks.old.items ++ marks_of (context setting.now) (variables locals.old) (tree_at setting.now.body.now id)) }
{
    let node = setting.body.node(id);
    match node {
        Node::Dispatch { .. } | Node::StaticDispatch { .. } => {
            add_call(setting, locals, marks, id, node)
        }
        Node::Let { .. } | Node::Case { .. } => add_binding(setting, locals, marks, id, node),
        Node::If { .. } | Node::While { .. } | Node::Block { .. } => {
            add_control(setting, locals, marks, id, node)
        }
        Node::Assign { .. } | Node::IsVoid { .. } | Node::Neg { .. } | Node::Not { .. } => {
            add_unary(setting, locals, marks, id, node)
        }
        Node::Arith { left, right, .. } | Node::Compare { left, right, .. } => {
            add_marks(setting, locals, marks, *left)?;
            add_marks(setting, locals, marks, *right)
        }
        Node::New { .. }
        | Node::Id { .. }
        | Node::Int { .. }
        | Node::Str { .. }
        | Node::Bool { .. } => add_leaf(setting, locals, marks, node),
    }
}

/// Adds the mark of a name or a new object; a constant has none. Returns `Err` only if memory runs out.
fn add_leaf<'a>(
    setting: &NamingSetting<'a, '_>,
    locals: &Scope<'a, Declaration<'a>>,
    marks: &mut Vec<Mark>,
    node: &Node,
) -> Result<(), AllocError>
    requires group { IsLeaf node.now }
    requires sound { IsSound setting.now }
    ensures { OnOk result (marks.new.items ≡ marks.old.items ++ marks_of (context setting.now) (variables locals.now) (tree_of_node setting.now.body.now node.now)) }
{
    match node {
        Node::Id { at, name } => {
            marks.push(setting.variable_mark(locals, Role::Variable, *at, name)?)?;
        }
        Node::New { class, .. } => marks.push(setting.program.type_mark(class)?)?,
        _ => {}
    }
    Ok(())
}

/// Adds the marks of an assignment or of an operator with one operand, which has a number below this one. Returns `Err` only if memory runs out.
#[cycle(walk)]
fn add_unary<'a>(
    setting: &NamingSetting<'a, '_>,
    locals: &mut Scope<'a, Declaration<'a>>,
    marks: &mut Vec<Mark>,
    id: NodeId,
    node: &'a Node,
) -> Result<(), AllocError>
    requires group { IsUnary node.now }
    requires parts { HasPartsBelow id.0 node.now }
    requires ready { IsReady setting.now id.0 }
    ensures scope { OnOk result (locals.new ≡ locals.old) }
    ensures marks { OnOk result (marks.new.items ≡ marks.old.items ++ marks_of (context setting.now) (variables locals.old) (tree_of_node setting.now.body.now node.now)) }
{
    match node {
        Node::Assign { at, name, value } => {
            marks.push(setting.variable_mark(locals, Role::Assigned, *at, name)?)?;
            add_marks(setting, locals, marks, *value)
        }
        Node::IsVoid { value, .. } | Node::Neg { value, .. } | Node::Not { value, .. } => {
            add_marks(setting, locals, marks, *value)
        }
        _ => unreachable!(),
    }
}

/// Adds the marks of a conditional, a loop or a block, whose parts have numbers below this one. Returns `Err` only if memory runs out.
#[cycle(walk)]
fn add_control<'a>(
    setting: &NamingSetting<'a, '_>,
    locals: &mut Scope<'a, Declaration<'a>>,
    marks: &mut Vec<Mark>,
    id: NodeId,
    node: &'a Node,
) -> Result<(), AllocError>
    requires group { IsControl node.now }
    requires parts { HasPartsBelow id.0 node.now }
    requires ready { IsReady setting.now id.0 }
    ensures scope { OnOk result (locals.new ≡ locals.old) }
    ensures marks { OnOk result (marks.new.items ≡ marks.old.items ++ marks_of (context setting.now) (variables locals.old) (tree_of_node setting.now.body.now node.now)) }
{
    match node {
        Node::If { test, yes, no, .. } => {
            add_marks(setting, locals, marks, *test)?;
            add_marks(setting, locals, marks, *yes)?;
            add_marks(setting, locals, marks, *no)
        }
        Node::While { test, body, .. } => {
            add_marks(setting, locals, marks, *test)?;
            add_marks(setting, locals, marks, *body)
        }
        Node::Block { items, .. } => add_all(setting, locals, marks, id, items.as_slice()),
        _ => unreachable!(),
    }
}

/// Adds the marks of some expressions, in order. Returns `Err` only if memory runs out.
#[cycle(walk)]
pub(crate) fn add_all<'a>(
    setting: &NamingSetting<'a, '_>,
    locals: &mut Scope<'a, Declaration<'a>>,
    marks: &mut Vec<Mark>,
    end: NodeId,
    items: &[NodeId],
) -> Result<(), AllocError>
    requires items { AllByRecursion (λ item. item.0 < end.0) items.now }
    requires ready { IsReady setting.now end.0 }
    ensures scope { OnOk result (locals.new ≡ locals.old) }
    ensures marks { OnOk result (marks.new.items ≡ marks.old.items ++ marks_of_all (context setting.now) (variables locals.old) (trees_of setting.now.body.now items.now)) }
{
    for item in items {
        add_marks(setting, locals, marks, *item)?;
    }
    Ok(())
}
