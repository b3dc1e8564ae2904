//! Appends the nodes of assignments and operators after those of their folded operands, or constants in their place.

ghost use Rattle.std.specs.Prelude.{◌≡◌, ◌+◌, ◌-◌, ◌<◌, ◌≤◌, ◌^◌, length, OnOk};
ghost use Rattle.cool_syntax.specs.NodeGroups.{IsBinary, IsUnary};
ghost use Rattle.cool_fold.specs.PlacedForms.{PlacesBinary, PlacesUnary};
ghost use Rattle.cool_fold.specs.FoldingSettings.{IsSound};

use crate::constant::{compared, complemented, computed, negated, voided};
use crate::folding_setting::FoldingSetting;
use crate::place::{Found, Placed, place, place_number, place_truth};
use cool_classes::Ty;
use cool_syntax::Node;
use std::alloc::AllocError;

/// Places an assignment, `isvoid`, `~` or `not` of this type and this part, or the constant that it is. The nodes of the part are those from a number on.
/// Returns `Err` only if memory runs out.
#[inline(never)]
pub(crate) fn place_unary<'a>(
    setting: &FoldingSetting<'_, '_>,
    placed: &mut Placed,
    start: usize,
    node: &Node,
    ty: Ty,
    part: &Found<'_>,
) -> Result<Found<'a>, AllocError>
    requires group { IsUnary node.now }
    requires sound { IsSound setting.now }
    requires few { length placed.old.nodes.items < 2 ^ 32 - 1 }
    requires types { length placed.old.types.held + 1 ≤ placed.old.types.room }
    ensures few { OnOk result (length placed.new.nodes.items ≤ length placed.old.nodes.items + 1) }
    ensures types { OnOk result (length placed.new.types.held + placed.old.types.room ≤ length placed.old.types.held + 1 + placed.new.types.room) }
    ensures placed { PlacesUnary setting.now start node.now ty part.now placed.old placed.new result }
{
    match node {
        Node::Assign { at, name, .. } => {
            let name = name.copy(setting.alloc)?;
            let made = Node::Assign {
                at: *at,
                name,
                value: part.id,
            };
            place(placed, made, ty)
        }
        Node::IsVoid { at, .. } => {
            let made = Node::IsVoid {
                at: *at,
                value: part.id,
            };
            place_truth(placed, start, made, *at, voided(part.constant))
        }
        Node::Neg { at, .. } => {
            let made = Node::Neg {
                at: *at,
                value: part.id,
            };
            place_number(placed, start, made, *at, negated(part.constant))
        }
        Node::Not { at, .. } => {
            let made = Node::Not {
                at: *at,
                value: part.id,
            };
            place_truth(placed, start, made, *at, complemented(part.constant))
        }
        _ => unreachable!(),
    }
}

/// Places arithmetic or a comparison of these parts, or the constant that it is. The nodes of the parts are those from a number on. Returns `Err` only if
/// memory runs out.
#[inline(never)]
pub(crate) fn place_binary<'a>(
    setting: &FoldingSetting<'_, '_>,
    placed: &mut Placed,
    start: usize,
    node: &Node,
    first: &Found<'_>,
    second: &Found<'_>,
) -> Result<Found<'a>, AllocError>
    requires group { IsBinary node.now }
    requires sound { IsSound setting.now }
    requires few { length placed.old.nodes.items < 2 ^ 32 - 1 }
    requires types { length placed.old.types.held + 1 ≤ placed.old.types.room }
    ensures few { OnOk result (length placed.new.nodes.items ≤ length placed.old.nodes.items + 1) }
    ensures types { OnOk result (length placed.new.types.held + placed.old.types.room ≤ length placed.old.types.held + 1 + placed.new.types.room) }
    ensures placed { PlacesBinary setting.now start node.now first.now second.now placed.old placed.new result }
{
    match node {
        Node::Arith { at, op, .. } => {
            let made = Node::Arith {
                at: *at,
                op: *op,
                left: first.id,
                right: second.id,
            };
            let number = computed(*op, first.constant, second.constant);
            place_number(placed, start, made, *at, number)
        }
        Node::Compare { at, op, .. } => {
            let made = Node::Compare {
                at: *at,
                op: *op,
                left: first.id,
                right: second.id,
            };
            let truth = compared(*op, first.constant, second.constant);
            place_truth(placed, start, made, *at, truth)
        }
        _ => unreachable!(),
    }
}
