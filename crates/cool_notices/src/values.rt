//! `value_places` finds the places of the subexpressions that give the value of an expression, such as the branches of an `if`.

ghost use Rattle.std.specs.Prelude.{◌≡◌, ◌<◌, ◌+◌, [], ◌∷◌, ◌++◌, map, reverse, IfOk, OnOk};
ghost use Rattle.std.specs.List.{flat_map};
ghost use Rattle.cool_syntax.specs.Tree.{tree_size};
ghost use Rattle.cool_syntax.specs.NodeLists.{tree_at};
ghost use Rattle.cool_notices.specs.ValuePlaces.{value_places};
ghost use Rattle.cool_notices.specs.ValuesLeft.{AreIn, last_of, places_at, size_left};

use cool_syntax::{Body, Node, NodeBranch, NodeId, Place};
use std::alloc::{AllocError, Global};

/// The places of the expressions that give the value of the expression of this number, in the order of the text. Returns `Err` only if memory runs out.
pub fn value_places(alloc: Global, body: &Body, id: NodeId) -> Result<Vec<Place>, AllocError>
    requires below { id.0 < tree_size body.now }
    ensures { IfOk result (λ all. all.items ≡ value_places (tree_at body.now id)) }
{
    // The places are collected from the end of the text to its beginning.
    let mut all = Vec::new(alloc);
    let mut left = vec![in alloc; id]?;
    while let Some(next) = left.pop() {
        add_places(body, next, &mut left, &mut all)?;
    }
    all.reverse();
    Ok(all)
}

/// Adds the place of an expression that gives its value itself; of another one it leaves the parts that give its value. Returns `Err` only if memory runs
/// out.
fn add_places(
    body: &Body,
    id: NodeId,
    left: &mut Vec<NodeId>,
    all: &mut Vec<Place>,
) -> Result<(), AllocError>
    requires below { id.0 < tree_size body.now }
    requires left { AreIn body.now left.old.items }
    ensures left { OnOk result (AreIn body.now left.new.items) }
    ensures size { OnOk result (size_left body.now left.new.items < size_left body.now left.old.items + tree_size (tree_at body.now id)) }
    ensures places { OnOk result (flat_map (places_at body.now) left.new.items ++ reverse all.new.items
        ≡ flat_map (places_at body.now) left.old.items ++ (places_at body.now id ++ reverse all.old.items)) }
{
    match body.node(id) {
        Node::If { yes, no, .. } => add_both(left, *yes, *no),
        Node::Block { items, .. } => add_last(left, items.as_slice()),
        Node::Let { body: part, .. } => add_one(left, *part),
        Node::Case { branches, .. } => add_bodies(left, branches.as_slice()),
        node => all.extend_from_slice(&[node.place()]),
    }
}

/// Adds two numbers. Returns `Err` only if memory runs out.
fn add_both(left: &mut Vec<NodeId>, first: NodeId, second: NodeId) -> Result<(), AllocError>
    ensures { OnOk result (left.new.items ≡ left.old.items ++ first ∷ second ∷ []) }
{
    left.extend_from_slice(&[first, second])
}

/// Adds a number. Returns `Err` only if memory runs out.
fn add_one(left: &mut Vec<NodeId>, number: NodeId) -> Result<(), AllocError>
    ensures { OnOk result (left.new.items ≡ left.old.items ++ number ∷ []) }
{
    left.extend_from_slice(&[number])
}

/// Adds the last of these numbers. Returns `Err` only if memory runs out.
fn add_last(left: &mut Vec<NodeId>, items: &[NodeId]) -> Result<(), AllocError>
    ensures { OnOk result (left.new.items ≡ left.old.items ++ last_of items.now) }
{
    left.extend_from_slice(&items[items.len().saturating_sub(1)..])
}

/// Adds the numbers of the bodies of branches. Returns `Err` only if memory runs out.
fn add_bodies(left: &mut Vec<NodeId>, branches: &[NodeBranch]) -> Result<(), AllocError>
    ensures { OnOk result (left.new.items ≡ left.old.items ++ map (λ b. b.body) branches.now) }
{
    for branch in branches {
        left.push(branch.body)?;
    }
    Ok(())
}
