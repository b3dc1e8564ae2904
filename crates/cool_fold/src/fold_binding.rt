//! Folds `let` and `case` expressions.

ghost use Rattle.std.specs.Prelude.{◌≡◌, ◌+◌, ◌-◌, ◌<◌, ◌≤◌, ◌^◌, length, IfSome, OnOk};
ghost use Rattle.std.specs.List.{AllByRecursion};
ghost use Rattle.cool_syntax.specs.NodeLists.{HasPartsBelow, cases_of, maybe_tree_of, tree_of_node};
ghost use Rattle.cool_syntax.specs.Tree.{cases_size, maybe_size, tree_size};
ghost use Rattle.cool_fold.specs.FoldedNodes.{FoldsBranches, FoldsNode, MayFoldPart};
ghost use Rattle.cool_fold.specs.Forms.{IsCase, IsLet};
ghost use Rattle.cool_fold.specs.FoldingSettings.{IsSound};

use crate::expression::fold;
use crate::folding_setting::FoldingSetting;
use crate::place::{Found, Placed};
use crate::place_form::{add_branch, place_case, place_let};
use cool_syntax::{Node, NodeBranch, NodeId};
use std::alloc::AllocError;

/// Folds a `let`, whose parts have numbers below this one. Returns `Err` only if memory runs out.
#[cycle(folding)]
#[inline(never)]
pub(crate) fn fold_let<'a>(
    setting: &FoldingSetting<'a, '_>,
    placed: &mut Placed,
    id: NodeId,
    node: &'a Node,
) -> Result<Found<'a>, AllocError>
    requires form { IsLet node.now }
    requires parts { HasPartsBelow id.0 node.now }
    requires sound { IsSound setting.now }
    requires below { id.0 < tree_size setting.now.body.now }
    requires room { length placed.old.nodes.items + tree_size (tree_of_node setting.now.body.now node.now) < 2 ^ 32 - 1 }
    requires types { length placed.old.types.held + tree_size (tree_of_node setting.now.body.now node.now) ≤ placed.old.types.room }
    ensures few { OnOk result (length placed.new.nodes.items ≤ length placed.old.nodes.items + tree_size (tree_of_node setting.now.body.now node.now)) }
    ensures types { OnOk result (length placed.new.types.held + placed.old.types.room ≤ length placed.old.types.held + tree_size (tree_of_node setting.now.body.now node.now) + placed.new.types.room) }
    ensures folded { FoldsNode setting.now id node.now placed.old placed.new result }
{
    match node {
        Node::Let { init, body, .. } => {
            let init = fold_option(setting, placed, id, *init)?;
            let found = fold(setting, placed, *body)?.id;
            place_let(setting, placed, node, setting.types.get(id), init, found)
        }
        _ => unreachable!(),
    }
}

/// Folds an initial value, where there is one. Returns `Err` only if memory runs out.
#[cycle(folding)]
fn fold_option<'a>(
    setting: &FoldingSetting<'a, '_>,
    placed: &mut Placed,
    end: NodeId,
    init: Option<NodeId>,
) -> Result<Option<NodeId>, AllocError>
    requires init { IfSome init (λ value. value.0 < end.0) }
    requires sound { IsSound setting.now }
    requires below { end.0 < tree_size setting.now.body.now }
    requires room { length placed.old.nodes.items + maybe_size (maybe_tree_of setting.now.body.now init) < 2 ^ 32 - 1 }
    requires types { length placed.old.types.held + maybe_size (maybe_tree_of setting.now.body.now init) ≤ placed.old.types.room }
    ensures few { OnOk result (length placed.new.nodes.items ≤ length placed.old.nodes.items + maybe_size (maybe_tree_of setting.now.body.now init)) }
    ensures types { OnOk result (length placed.new.types.held + placed.old.types.room ≤ length placed.old.types.held + maybe_size (maybe_tree_of setting.now.body.now init) + placed.new.types.room) }
    ensures folded { MayFoldPart setting.now init placed.old placed.new result }
{
    match init {
        Some(value) => Ok(Some(fold(setting, placed, value)?.id)),
        None => Ok(None),
    }
}

/// Folds a `case`, whose parts have numbers below this one. Returns `Err` only if memory runs out.
#[cycle(folding)]
#[inline(never)]
pub(crate) fn fold_case<'a>(
    setting: &FoldingSetting<'a, '_>,
    placed: &mut Placed,
    id: NodeId,
    node: &'a Node,
) -> Result<Found<'a>, AllocError>
    requires form { IsCase node.now }
    requires parts { HasPartsBelow id.0 node.now }
    requires sound { IsSound setting.now }
    requires below { id.0 < tree_size setting.now.body.now }
    requires room { length placed.old.nodes.items + tree_size (tree_of_node setting.now.body.now node.now) < 2 ^ 32 - 1 }
    requires types { length placed.old.types.held + tree_size (tree_of_node setting.now.body.now node.now) ≤ placed.old.types.room }
    ensures few { OnOk result (length placed.new.nodes.items ≤ length placed.old.nodes.items + tree_size (tree_of_node setting.now.body.now node.now)) }
    ensures types { OnOk result (length placed.new.types.held + placed.old.types.room ≤ length placed.old.types.held + tree_size (tree_of_node setting.now.body.now node.now) + placed.new.types.room) }
    ensures folded { FoldsNode setting.now id node.now placed.old placed.new result }
{
    match node {
        Node::Case {
            value,
            branches,
            ..
        } => {
            let first = fold(setting, placed, *value)?.id;
            let rest = fold_branches(setting, placed, id, branches.as_slice())?;
            place_case(setting, placed, node, setting.types.get(id), first, rest)
        }
        _ => unreachable!(),
    }
}

/// Folds branches, in order. Returns `Err` only if memory runs out.
#[cycle(folding)]
#[inline(always)]
fn fold_branches<'a>(
    setting: &FoldingSetting<'a, '_>,
    placed: &mut Placed,
    end: NodeId,
    branches: &'a [NodeBranch],
) -> Result<Vec<NodeBranch>, AllocError>
    requires branches { AllByRecursion (λ branch. branch.body.0 < end.0) branches.now }
    requires sound { IsSound setting.now }
    requires below { end.0 < tree_size setting.now.body.now }
    requires room { length placed.old.nodes.items + cases_size (cases_of setting.now.body.now branches.now) < 2 ^ 32 - 1 }
    requires types { length placed.old.types.held + cases_size (cases_of setting.now.body.now branches.now) ≤ placed.old.types.room }
    ensures few { OnOk result (length placed.new.nodes.items ≤ length placed.old.nodes.items + cases_size (cases_of setting.now.body.now branches.now)) }
    ensures types { OnOk result (length placed.new.types.held + placed.old.types.room ≤ length placed.old.types.held + cases_size (cases_of setting.now.body.now branches.now) + placed.new.types.room) }
    ensures folded { FoldsBranches setting.now branches.now placed.old placed.new result }
{
    let mut folded = Vec::new(setting.alloc);
    for branch in branches {
        let body = fold(setting, placed, branch.body)?.id;
        add_branch(setting.alloc, &mut folded, branch, body)?;
    }
    Ok(folded)
}
