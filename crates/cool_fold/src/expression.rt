//! Folds an expression: appends its node after the nodes of its folded parts.

ghost use Rattle.std.specs.Prelude.{◌≡◌, ◌+◌, ◌-◌, ◌<◌, ◌≤◌, ◌^◌, length, OnOk};
ghost use Rattle.std.specs.List.{AllByRecursion};
ghost use Rattle.cool_syntax.specs.NodeGroups.{IsLeaf};
ghost use Rattle.cool_syntax.specs.NodeLists.{tree_at, trees_of};
ghost use Rattle.cool_syntax.specs.Tree.{tree_size, trees_size};
ghost use Rattle.cool_fold.specs.FoldedNodes.{FoldsNode, FoldsPart, FoldsParts};
ghost use Rattle.cool_fold.specs.FoldingSettings.{IsSound};

use crate::constant::Constant;
use crate::fold_binding::{fold_case, fold_let};
use crate::fold_call::{fold_dispatch, fold_static};
use crate::fold_control::{fold_block, fold_if, fold_while};
use crate::fold_operator::{fold_binary, fold_unary};
use crate::folding_setting::FoldingSetting;
use crate::place::{Found, Placed, place, place_constant};
use cool_syntax::{Node, NodeId};
use std::alloc::AllocError;

/// Folds the expression at this number. Returns `Err` only if memory runs out.
///
/// It calls itself once for each level of an expression. So that a level takes little of the process's stack, each form has a function of its own, which is
/// not inlined and keeps no node and no copy while a part is folded. These are made afterwards, by a function that places the form and calls no folding.
#[cycle(folding)]
pub(crate) fn fold<'a>(
    setting: &FoldingSetting<'a, '_>,
    placed: &mut Placed,
    id: NodeId,
) -> Result<Found<'a>, AllocError>
    requires sound { IsSound setting.now }
    requires below { id.0 < tree_size setting.now.body.now }
    requires room { length placed.old.nodes.items + tree_size (tree_at setting.now.body.now id) < 2 ^ 32 - 1 }
    requires types { length placed.old.types.held + tree_size (tree_at setting.now.body.now id) ≤ placed.old.types.room }
    ensures few { OnOk result (length placed.new.nodes.items ≤ length placed.old.nodes.items + tree_size (tree_at setting.now.body.now id)) }
    ensures types { OnOk result (length placed.new.types.held + placed.old.types.room ≤ length placed.old.types.held + tree_size (tree_at setting.now.body.now id) + placed.new.types.room) }
    ensures folded { FoldsPart setting.now id placed.old placed.new result }
{
    let node = setting.body.node(id);
    match node {
        Node::Dispatch { .. } => fold_dispatch(setting, placed, id, node),
        Node::StaticDispatch { .. } => fold_static(setting, placed, id, node),
        Node::Let { .. } => fold_let(setting, placed, id, node),
        Node::Case { .. } => fold_case(setting, placed, id, node),
        Node::If { .. } => fold_if(setting, placed, id, node),
        Node::While { .. } => fold_while(setting, placed, id, node),
        Node::Block { .. } => fold_block(setting, placed, id, node),
        Node::Assign { .. } | Node::IsVoid { .. } | Node::Neg { .. } | Node::Not { .. } => {
            fold_unary(setting, placed, id, node)
        }
        Node::Arith { .. } | Node::Compare { .. } => fold_binary(setting, placed, id, node),
        Node::New { .. }
        | Node::Id { .. }
        | Node::Int { .. }
        | Node::Str { .. }
        | Node::Bool { .. } => { fold_leaf(setting, placed, id, node) }
    }
}

/// Folds a name, a constant or a new object: it stays. Returns `Err` only if memory runs out.
#[inline(never)]
fn fold_leaf<'a>(
    setting: &FoldingSetting<'a, '_>,
    placed: &mut Placed,
    id: NodeId,
    node: &'a Node,
) -> Result<Found<'a>, AllocError>
    requires group { IsLeaf node.now }
    requires sound { IsSound setting.now }
    requires below { id.0 < tree_size setting.now.body.now }
    requires room { length placed.old.nodes.items + 1 < 2 ^ 32 - 1 }
    requires types { length placed.old.types.held + 1 ≤ placed.old.types.room }
    ensures few { OnOk result (length placed.new.nodes.items ≤ length placed.old.nodes.items + 1) }
    ensures types { OnOk result (length placed.new.types.held + placed.old.types.room ≤ length placed.old.types.held + 1 + placed.new.types.room) }
    ensures folded { FoldsNode setting.now id node.now placed.old placed.new result }
{
    let alloc = setting.alloc;
    let ty = setting.types.get(id);
    match node {
        Node::New { at, class } => {
            let class = class.copy(alloc)?;
            place(placed, Node::New { at: *at, class }, ty)
        }
        Node::Id { at, name } => {
            let name = name.copy(alloc)?;
            place(placed, Node::Id { at: *at, name }, ty)
        }
        Node::Int { at, value } => {
            let number = Constant::Number(value.cast_signed());
            let value = *value;
            let made = Node::Int { at: *at, value };
            place_constant(placed, made, ty, Some(number))
        }
        Node::Str { at, bytes } => {
            let text = Constant::Text(bytes);
            let bytes = bytes.copy(alloc)?;
            let made = Node::Str { at: *at, bytes };
            place_constant(placed, made, ty, Some(text))
        }
        Node::Bool { at, value } => {
            let value = *value;
            let made = Node::Bool { at: *at, value };
            place_constant(placed, made, ty, Some(Constant::Truth(value)))
        }
        _ => unreachable!(),
    }
}

/// Folds some expressions, in order. It is inlined, so that a level of a block or of arguments has no frame more. Returns `Err` only if memory runs out.
#[cycle(folding)]
#[inline(always)]
pub(crate) fn fold_all<'a>(
    setting: &FoldingSetting<'a, '_>,
    placed: &mut Placed,
    end: NodeId,
    items: &[NodeId],
) -> Result<Vec<NodeId>, AllocError>
    requires items { AllByRecursion (λ item. item.0 < end.0) items.now }
    requires sound { IsSound setting.now }
    requires below { end.0 < tree_size setting.now.body.now }
    requires room { length placed.old.nodes.items + trees_size (trees_of setting.now.body.now items.now) < 2 ^ 32 - 1 }
    requires types { length placed.old.types.held + trees_size (trees_of setting.now.body.now items.now) ≤ placed.old.types.room }
    ensures few { OnOk result (length placed.new.nodes.items ≤ length placed.old.nodes.items + trees_size (trees_of setting.now.body.now items.now)) }
    ensures types { OnOk result (length placed.new.types.held + placed.old.types.room ≤ length placed.old.types.held + trees_size (trees_of setting.now.body.now items.now) + placed.new.types.room) }
    ensures folded { FoldsParts setting.now items.now placed.old placed.new result }
{
    let mut ids = Vec::new(setting.alloc);
    for item in items {
        let found = fold(setting, placed, *item)?;
        ids.push(found.id)?;
    }
    Ok(ids)
}
