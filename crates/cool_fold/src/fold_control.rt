//! Folds loops, blocks and conditionals.

ghost use Rattle.std.specs.Prelude.{◌≡◌, ◌+◌, ◌-◌, ◌<◌, ◌≤◌, ◌^◌, length, slice_get, if◌then◌else◌, None, OnOk, Some};
ghost use Rattle.cool_syntax.specs.NodeLists.{HasPartsBelow, tree_of_node};
ghost use Rattle.cool_syntax.specs.Tree.{tree_size};
ghost use Rattle.cool_classes.specs.declared.class_id.Ty.{Ty as StaticType};
ghost use Rattle.cool_rules.specs.Rules.{same_type};
ghost use Rattle.cool_fold.specs.FoldedNodes.{FoldsNode};
ghost use Rattle.cool_fold.specs.Forms.{IsBlock, IsConditional, IsLoop};
ghost use Rattle.cool_fold.specs.FoldingSettings.{IsSound};
ghost use Rattle.cool_fold.specs.Shrinking.{taken};

use crate::constant::truth_in;
use crate::expression::{fold, fold_all};
use crate::folding_setting::FoldingSetting;
use crate::place::{Found, Placed, cut};
use crate::place_form::{place_block, place_if, place_while};
use cool_classes::Ty;
use cool_syntax::{Node, NodeId};
use std::alloc::AllocError;

/// Folds a loop, whose parts have numbers below this one. Returns `Err` only if memory runs out.
#[cycle(folding)]
#[inline(never)]
pub(crate) fn fold_while<'a>(
    setting: &FoldingSetting<'a, '_>,
    placed: &mut Placed,
    id: NodeId,
    node: &'a Node,
) -> Result<Found<'a>, AllocError>
    requires form { IsLoop node.now }
    requires parts { HasPartsBelow id.0 node.now }
    requires sound { IsSound setting.now }
    requires below { id.0 < tree_size setting.now.body.now }
    requires room { length placed.old.nodes.items + tree_size (tree_of_node setting.now.body.now node.now) < 2 ^ 32 - 1 }
    requires types { length placed.old.types.held + tree_size (tree_of_node setting.now.body.now node.now) ≤ placed.old.types.room }
    ensures few { OnOk result (length placed.new.nodes.items ≤ length placed.old.nodes.items + tree_size (tree_of_node setting.now.body.now node.now)) }
    ensures types { OnOk result (length placed.new.types.held + placed.old.types.room ≤ length placed.old.types.held + tree_size (tree_of_node setting.now.body.now node.now) + placed.new.types.room) }
    ensures folded { FoldsNode setting.now id node.now placed.old placed.new result }
{
    match node {
        Node::While { test, body, .. } => {
            let first = fold(setting, placed, *test)?.id;
            let second = fold(setting, placed, *body)?.id;
            place_while(setting, placed, node, setting.types.get(id), first, second)
        }
        _ => unreachable!(),
    }
}

/// Folds a block, whose items have numbers below this one. Returns `Err` only if memory runs out.
#[cycle(folding)]
#[inline(never)]
pub(crate) fn fold_block<'a>(
    setting: &FoldingSetting<'a, '_>,
    placed: &mut Placed,
    id: NodeId,
    node: &'a Node,
) -> Result<Found<'a>, AllocError>
    requires form { IsBlock node.now }
    requires parts { HasPartsBelow id.0 node.now }
    requires sound { IsSound setting.now }
    requires below { id.0 < tree_size setting.now.body.now }
    requires room { length placed.old.nodes.items + tree_size (tree_of_node setting.now.body.now node.now) < 2 ^ 32 - 1 }
    requires types { length placed.old.types.held + tree_size (tree_of_node setting.now.body.now node.now) ≤ placed.old.types.room }
    ensures few { OnOk result (length placed.new.nodes.items ≤ length placed.old.nodes.items + tree_size (tree_of_node setting.now.body.now node.now)) }
    ensures types { OnOk result (length placed.new.types.held + placed.old.types.room ≤ length placed.old.types.held + tree_size (tree_of_node setting.now.body.now node.now) + placed.new.types.room) }
    ensures folded { FoldsNode setting.now id node.now placed.old placed.new result }
{
    match node {
        Node::Block { items, .. } => {
            let items = fold_all(setting, placed, id, items.as_slice())?;
            place_block(setting, placed, node, setting.types.get(id), items)
        }
        _ => unreachable!(),
    }
}

/// Folds a conditional, whose parts have numbers below this one: to one of them, if the test is decided and the part has the type of the whole. Then the
/// other part is not folded. Returns `Err` only if memory runs out.
#[cycle(folding)]
#[inline(never)]
pub(crate) fn fold_if<'a>(
    setting: &FoldingSetting<'a, '_>,
    placed: &mut Placed,
    id: NodeId,
    node: &'a Node,
) -> Result<Found<'a>, AllocError>
    requires form { IsConditional node.now }
    requires parts { HasPartsBelow id.0 node.now }
    requires sound { IsSound setting.now }
    requires below { id.0 < tree_size setting.now.body.now }
    requires room { length placed.old.nodes.items + tree_size (tree_of_node setting.now.body.now node.now) < 2 ^ 32 - 1 }
    requires types { length placed.old.types.held + tree_size (tree_of_node setting.now.body.now node.now) ≤ placed.old.types.room }
    ensures few { OnOk result (length placed.new.nodes.items ≤ length placed.old.nodes.items + tree_size (tree_of_node setting.now.body.now node.now)) }
    ensures types { OnOk result (length placed.new.types.held + placed.old.types.room ≤ length placed.old.types.held + tree_size (tree_of_node setting.now.body.now node.now) + placed.new.types.room) }
    ensures folded { FoldsNode setting.now id node.now placed.old placed.new result }
{
    let start = placed.nodes.len();
    match node {
        Node::If { test, yes, no, .. } => {
            let decided = fold(setting, placed, *test)?;
            let truth = truth_in(decided.constant);
            if let Some(part) = taken_part(setting, id, truth, *yes, *no) {
                cut(placed, start);
                return fold(setting, placed, part);
            }
            let first = fold(setting, placed, *yes)?.id;
            let second = fold(setting, placed, *no)?.id;
            place_if(
                setting,
                placed,
                node,
                setting.types.get(id),
                decided.id,
                first,
                second,
            )
        }
        _ => unreachable!(),
    }
}

/// The part of a conditional that a truth takes, where it has the type of the whole.
#[inline(never)]
fn taken_part(
    setting: &FoldingSetting<'_, '_>,
    whole: NodeId,
    test: Option<bool>,
    yes: NodeId,
    no: NodeId,
) -> Option<NodeId>
    requires sound { IsSound setting.now }
    requires parts { (yes.0 < whole.0) × (no.0 < whole.0) }
    requires below { whole.0 < tree_size setting.now.body.now }
    ensures { (v w u : StaticType) → slice_get setting.now.types.now yes.0 ≡ Some v → slice_get setting.now.types.now no.0 ≡ Some w → slice_get setting.now.types.now whole.0 ≡ Some u → result ≡ taken test v w u yes no }
{
    let ty = setting.types.get(whole);
    if test? {
        part_of_type(setting.types.get(yes), ty, yes)
    } else {
        part_of_type(setting.types.get(no), ty, no)
    }
}

/// A part of this type, where it is that of the whole.
fn part_of_type(found: Ty, whole: Ty, part: NodeId) -> Option<NodeId>
    ensures { result ≡ (if same_type found whole then Some part else None) }
{
    match (found, whole) {
        (Ty::SelfType, Ty::SelfType) => Some(part),
        (Ty::Class(a), Ty::Class(b)) if a == b => Some(part),
        _ => None,
    }
}
