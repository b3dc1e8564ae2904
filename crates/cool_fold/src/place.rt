//! Appends nodes of folded expressions, or constants that replace them, and returns the number of the root with its constant value, if there is one.

ghost use Rattle.std.specs.Prelude.{◌≡◌, ◌∷◌, ◌++◌, ◌-◌, ◌+◌, ◌<◌, ◌≤◌, ◌^◌, [], None, length, take, IfOk, OnOk};
ghost use Rattle.cool_rules.specs.Typing.{bool_type, int_type};
ghost use Rattle.cool_fold.specs.FoldedNodes.{number_constant, truth_constant, with_number, with_truth, with_type};

use crate::constant::Constant;
use cool_classes::{BOOL, INT, Ty};
use cool_pool::Column;
use cool_syntax::{Node, NodeId, Place};
use std::alloc::AllocError;

/// Nodes that were placed, and the type of each.
#[derive(Drop)]
pub(crate) struct Placed {
    pub(crate) nodes: Vec<Node>,
    pub(crate) types: Column<Ty>,
}

/// The result for an expression whose folded nodes were placed: the constant that it is, and the number of its last node.
#[derive(Clone, Copy)]
pub(crate) struct Found<'a> {
    pub(crate) constant: Option<Constant<'a>>,
    pub(crate) id: NodeId,
}

/// Takes the nodes from this number on away, with their types. It is not inlined, since it keeps a node on the stack.
#[inline(never)]
pub(crate) fn cut(placed: &mut Placed, start: usize)
    ensures nodes { placed.new.nodes.items ≡ take start placed.old.nodes.items }
    ensures types { placed.new.types.held ≡ take start placed.old.types.held }
    ensures room { placed.new.types.room ≡ placed.old.types.room }
{
    placed.nodes.truncate(start);
    placed.types.cut(start);
}

/// Places the node of an expression of this type after its parts. Returns `Err` only if memory runs out.
pub(crate) fn place<'a>(placed: &mut Placed, node: Node, ty: Ty) -> Result<Found<'a>, AllocError>
    requires few { length placed.old.nodes.items < 2 ^ 32 - 1 }
    requires types { length placed.old.types.held + 1 ≤ placed.old.types.room }
    ensures placed { OnOk result (placed.new.nodes.items ≡ placed.old.nodes.items ++ node ∷ []) }
    ensures typed { OnOk result (placed.new.types.held ≡ placed.old.types.held ++ ty ∷ []) }
    ensures constant { IfOk result (λ f. f.constant ≡ None) }
    ensures last { IfOk result (λ f. f.id.0 ≡ length placed.old.nodes.items) }
    ensures few { OnOk result (length placed.new.nodes.items ≤ length placed.old.nodes.items + 1) }
    ensures types { OnOk result (length placed.new.types.held + placed.old.types.room ≤ length placed.old.types.held + 1 + placed.new.types.room) }
{
    place_constant(placed, node, ty, None)
}

/// Places the node of an expression of this type that is this constant. Returns `Err` only if memory runs out.
pub(crate) fn place_constant<'a>(
    placed: &mut Placed,
    node: Node,
    ty: Ty,
    constant: Option<Constant<'a>>,
) -> Result<Found<'a>, AllocError>
    requires few { length placed.old.nodes.items < 2 ^ 32 - 1 }
    requires types { length placed.old.types.held + 1 ≤ placed.old.types.room }
    ensures placed { OnOk result (placed.new.nodes.items ≡ placed.old.nodes.items ++ node ∷ []) }
    ensures typed { OnOk result (placed.new.types.held ≡ placed.old.types.held ++ ty ∷ []) }
    ensures constant { IfOk result (λ f. f.constant ≡ constant.entry) }
    ensures last { IfOk result (λ f. f.id.0 ≡ length placed.old.nodes.items) }
    ensures few { OnOk result (length placed.new.nodes.items ≤ length placed.old.nodes.items + 1) }
    ensures types { OnOk result (length placed.new.types.held + placed.old.types.room ≤ length placed.old.types.held + 1 + placed.new.types.room) }
{
    let id = NodeId(placed.nodes.len() as u32);
    placed.nodes.push(node)?;
    placed.types.push(ty);
    Ok(Found { constant, id })
}

/// Places a number in place of the nodes from this one on, or else the node of an Int after its parts. Returns `Err` only if memory runs out.
pub(crate) fn place_number<'a>(
    placed: &mut Placed,
    start: usize,
    node: Node,
    at: Place,
    found: Option<i32>,
) -> Result<Found<'a>, AllocError>
    requires few { length placed.old.nodes.items < 2 ^ 32 - 1 }
    requires types { length placed.old.types.held + 1 ≤ placed.old.types.room }
    ensures placed { OnOk result (placed.new.nodes.items ≡ with_number placed.old.nodes.items start node at found) }
    ensures typed { OnOk result (placed.new.types.held ≡ with_type placed.old.types.held start int_type found) }
    ensures constant { IfOk result (λ f. f.constant ≡ number_constant found) }
    ensures last { IfOk result (λ f. f.id.0 + 1 ≡ length placed.new.nodes.items) }
    ensures few { OnOk result (length placed.new.nodes.items ≤ length placed.old.nodes.items + 1) }
    ensures types { OnOk result (length placed.new.types.held + placed.old.types.room ≤ length placed.old.types.held + 1 + placed.new.types.room) }
{
    match found {
        None => place(placed, node, Ty::Class(INT)),
        Some(value) => {
            cut(placed, start);
            let word = value.cast_unsigned();
            place_constant(
                placed,
                Node::Int { at, value: word },
                Ty::Class(INT),
                Some(Constant::Number(value)),
            )
        }
    }
}

/// Places a truth in place of the nodes from this one on, or else the node of a Bool after its parts. Returns `Err` only if memory runs out.
pub(crate) fn place_truth<'a>(
    placed: &mut Placed,
    start: usize,
    node: Node,
    at: Place,
    found: Option<bool>,
) -> Result<Found<'a>, AllocError>
    requires few { length placed.old.nodes.items < 2 ^ 32 - 1 }
    requires types { length placed.old.types.held + 1 ≤ placed.old.types.room }
    ensures placed { OnOk result (placed.new.nodes.items ≡ with_truth placed.old.nodes.items start node at found) }
    ensures typed { OnOk result (placed.new.types.held ≡ with_type placed.old.types.held start bool_type found) }
    ensures constant { IfOk result (λ f. f.constant ≡ truth_constant found) }
    ensures last { IfOk result (λ f. f.id.0 + 1 ≡ length placed.new.nodes.items) }
    ensures few { OnOk result (length placed.new.nodes.items ≤ length placed.old.nodes.items + 1) }
    ensures types { OnOk result (length placed.new.types.held + placed.old.types.room ≤ length placed.old.types.held + 1 + placed.new.types.room) }
{
    match found {
        None => place(placed, node, Ty::Class(BOOL)),
        Some(value) => {
            cut(placed, start);
            place_constant(
                placed,
                Node::Bool { at, value },
                Ty::Class(BOOL),
                Some(Constant::Truth(value)),
            )
        }
    }
}
