//! Folds assignments and operators.

ghost use Rattle.std.specs.Prelude.{◌≡◌, ◌+◌, ◌-◌, ◌<◌, ◌≤◌, ◌^◌, length, OnOk};
ghost use Rattle.cool_syntax.specs.NodeGroups.{IsBinary, IsUnary};
ghost use Rattle.cool_syntax.specs.NodeLists.{HasPartsBelow, tree_of_node};
ghost use Rattle.cool_syntax.specs.Tree.{tree_size};
ghost use Rattle.cool_fold.specs.FoldedNodes.{FoldsNode};
ghost use Rattle.cool_fold.specs.FoldingSettings.{IsSound};

use crate::expression::fold;
use crate::folding_setting::FoldingSetting;
use crate::form::{left_operand, operand, right_operand};
use crate::place::{Found, Placed};
use crate::place_operator::{place_binary, place_unary};
use cool_syntax::{Node, NodeId};
use std::alloc::AllocError;

/// Folds an assignment, `isvoid`, `~` or `not`, whose part has a number below this one. Returns `Err` only if memory runs out.
#[cycle(folding)]
#[inline(never)]
pub(crate) fn fold_unary<'a>(
    setting: &FoldingSetting<'a, '_>,
    placed: &mut Placed,
    id: NodeId,
    node: &'a Node,
) -> Result<Found<'a>, AllocError>
    requires group { IsUnary node.now }
    requires parts { HasPartsBelow id.0 node.now }
    requires sound { IsSound setting.now }
    requires below { id.0 < tree_size setting.now.body.now }
    requires room { length placed.old.nodes.items + tree_size (tree_of_node setting.now.body.now node.now) < 2 ^ 32 - 1 }
    requires types { length placed.old.types.held + tree_size (tree_of_node setting.now.body.now node.now) ≤ placed.old.types.room }
    ensures few { OnOk result (length placed.new.nodes.items ≤ length placed.old.nodes.items + tree_size (tree_of_node setting.now.body.now node.now)) }
    ensures types { OnOk result (length placed.new.types.held + placed.old.types.room ≤ length placed.old.types.held + tree_size (tree_of_node setting.now.body.now node.now) + placed.new.types.room) }
    ensures folded { FoldsNode setting.now id node.now placed.old placed.new result }
{
    let start = placed.nodes.len();
    let part = fold(setting, placed, operand(node))?;
    place_unary(setting, placed, start, node, setting.types.get(id), &part)
}

/// Folds arithmetic or a comparison, whose parts have numbers below this one. Returns `Err` only if memory runs out.
#[cycle(folding)]
#[inline(never)]
pub(crate) fn fold_binary<'a>(
    setting: &FoldingSetting<'a, '_>,
    placed: &mut Placed,
    id: NodeId,
    node: &'a Node,
) -> Result<Found<'a>, AllocError>
    requires group { IsBinary node.now }
    requires parts { HasPartsBelow id.0 node.now }
    requires sound { IsSound setting.now }
    requires below { id.0 < tree_size setting.now.body.now }
    requires room { length placed.old.nodes.items + tree_size (tree_of_node setting.now.body.now node.now) < 2 ^ 32 - 1 }
    requires types { length placed.old.types.held + tree_size (tree_of_node setting.now.body.now node.now) ≤ placed.old.types.room }
    ensures few { OnOk result (length placed.new.nodes.items ≤ length placed.old.nodes.items + tree_size (tree_of_node setting.now.body.now node.now)) }
    ensures types { OnOk result (length placed.new.types.held + placed.old.types.room ≤ length placed.old.types.held + tree_size (tree_of_node setting.now.body.now node.now) + placed.new.types.room) }
    ensures folded { FoldsNode setting.now id node.now placed.old placed.new result }
{
    let start = placed.nodes.len();
    let left = fold(setting, placed, left_operand(node))?;
    let right = fold(setting, placed, right_operand(node))?;
    place_binary(setting, placed, start, node, &left, &right)
}
