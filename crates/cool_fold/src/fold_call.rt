//! Folds dispatches.

ghost use Rattle.std.specs.Prelude.{◌≡◌, ◌+◌, ◌-◌, ◌<◌, ◌≤◌, ◌^◌, length, OnOk};
ghost use Rattle.std.specs.List.{AllByRecursion};
ghost use Rattle.cool_syntax.specs.NodeLists.{HasPartsBelow, tree_of_node, trees_of};
ghost use Rattle.cool_syntax.specs.Tree.{tree_size, trees_size};
ghost use Rattle.cool_fold.specs.FoldedNodes.{FoldsNode, FoldsParts};
ghost use Rattle.cool_fold.specs.Forms.{IsDispatch, IsStaticDispatch};
ghost use Rattle.cool_fold.specs.FoldingSettings.{IsSound};

use crate::expression::{fold, fold_all};
use crate::folding_setting::FoldingSetting;
use crate::place::{Found, Placed};
use crate::place_form::{place_dispatch, place_static};
use cool_rules::class_of;
use cool_syntax::{Node, NodeId};
use std::alloc::AllocError;

/// Folds a dispatch: to a direct call, if no class below the receiver's defines the method anew. Its parts have numbers below this one. Returns `Err` only
/// if memory runs out.
#[cycle(folding)]
#[inline(never)]
pub(crate) fn fold_dispatch<'a>(
    setting: &FoldingSetting<'a, '_>,
    placed: &mut Placed,
    id: NodeId,
    node: &'a Node,
) -> Result<Found<'a>, AllocError>
    requires form { IsDispatch node.now }
    requires parts { HasPartsBelow id.0 node.now }
    requires sound { IsSound setting.now }
    requires below { id.0 < tree_size setting.now.body.now }
    requires room { length placed.old.nodes.items + tree_size (tree_of_node setting.now.body.now node.now) < 2 ^ 32 - 1 }
    requires types { length placed.old.types.held + tree_size (tree_of_node setting.now.body.now node.now) ≤ placed.old.types.room }
    ensures few { OnOk result (length placed.new.nodes.items ≤ length placed.old.nodes.items + tree_size (tree_of_node setting.now.body.now node.now)) }
    ensures types { OnOk result (length placed.new.types.held + placed.old.types.room ≤ length placed.old.types.held + tree_size (tree_of_node setting.now.body.now node.now) + placed.new.types.room) }
    ensures folded { FoldsNode setting.now id node.now placed.old placed.new result }
{
    match node {
        Node::Dispatch { receiver, args, .. } => {
            let object = fold(setting, placed, *receiver)?.id;
            let args = fold_args(setting, placed, id, args.as_slice())?;
            let class = class_of(setting.class, setting.types.get(*receiver));
            place_dispatch(
                setting,
                placed,
                node,
                setting.types.get(id),
                class,
                object,
                args,
            )
        }
        _ => unreachable!(),
    }
}

/// Folds a dispatch to the method of a class that it names. Its parts have numbers below this one. Returns `Err` only if memory runs out.
#[cycle(folding)]
#[inline(never)]
pub(crate) fn fold_static<'a>(
    setting: &FoldingSetting<'a, '_>,
    placed: &mut Placed,
    id: NodeId,
    node: &'a Node,
) -> Result<Found<'a>, AllocError>
    requires form { IsStaticDispatch node.now }
    requires parts { HasPartsBelow id.0 node.now }
    requires sound { IsSound setting.now }
    requires below { id.0 < tree_size setting.now.body.now }
    requires room { length placed.old.nodes.items + tree_size (tree_of_node setting.now.body.now node.now) < 2 ^ 32 - 1 }
    requires types { length placed.old.types.held + tree_size (tree_of_node setting.now.body.now node.now) ≤ placed.old.types.room }
    ensures few { OnOk result (length placed.new.nodes.items ≤ length placed.old.nodes.items + tree_size (tree_of_node setting.now.body.now node.now)) }
    ensures types { OnOk result (length placed.new.types.held + placed.old.types.room ≤ length placed.old.types.held + tree_size (tree_of_node setting.now.body.now node.now) + placed.new.types.room) }
    ensures folded { FoldsNode setting.now id node.now placed.old placed.new result }
{
    match node {
        Node::StaticDispatch { receiver, args, .. } => {
            let object = fold(setting, placed, *receiver)?.id;
            let args = fold_args(setting, placed, id, args.as_slice())?;
            place_static(setting, placed, node, setting.types.get(id), object, args)
        }
        _ => unreachable!(),
    }
}

/// Folds arguments, in order. It is not inlined, so that a level of a receiver does not take the stack that arguments need. Returns `Err` only if memory
/// runs out.
#[cycle(folding)]
#[inline(never)]
fn fold_args<'a>(
    setting: &FoldingSetting<'a, '_>,
    placed: &mut Placed,
    end: NodeId,
    args: &[NodeId],
) -> Result<Vec<NodeId>, AllocError>
    requires args { AllByRecursion (λ item. item.0 < end.0) args.now }
    requires sound { IsSound setting.now }
    requires below { end.0 < tree_size setting.now.body.now }
    requires room { length placed.old.nodes.items + trees_size (trees_of setting.now.body.now args.now) < 2 ^ 32 - 1 }
    requires types { length placed.old.types.held + trees_size (trees_of setting.now.body.now args.now) ≤ placed.old.types.room }
    ensures few { OnOk result (length placed.new.nodes.items ≤ length placed.old.nodes.items + trees_size (trees_of setting.now.body.now args.now)) }
    ensures types { OnOk result (length placed.new.types.held + placed.old.types.room ≤ length placed.old.types.held + trees_size (trees_of setting.now.body.now args.now) + placed.new.types.room) }
    ensures folded { FoldsParts setting.now args.now placed.old placed.new result }
{
    fold_all(setting, placed, end, args)
}
