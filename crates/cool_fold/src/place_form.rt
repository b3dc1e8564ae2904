//! Appends the nodes of loops, blocks, conditionals, `let`, `case` and dispatches after those of their folded parts.

ghost use Rattle.std.specs.Prelude.{◌≡◌, ◌∷◌, ◌++◌, ◌+◌, ◌-◌, ◌<◌, ◌≤◌, ◌^◌, [], length, OnOk};
ghost use Rattle.cool_fold.specs.Forms.{IsBlock, IsCase, IsConditional, IsDispatch, IsLet, IsLoop, IsStaticDispatch};
ghost use Rattle.cool_fold.specs.PlacedForms.{PlacesBlock, PlacesCase, PlacesConditional, PlacesDispatch, PlacesLet, PlacesLoop, PlacesStaticDispatch};
ghost use Rattle.cool_fold.specs.FoldingSettings.{IsSound};

use crate::folding_setting::FoldingSetting;
use crate::place::{Found, Placed, place};
use cool_classes::{ClassId, Ty};
use cool_syntax::{Listed, Node, NodeBranch, NodeId, TypeRef};
use std::alloc::{AllocError, Global};

/// Places a loop of this type and these parts. Returns `Err` only if memory runs out.
#[inline(never)]
pub(crate) fn place_while<'a>(
    setting: &FoldingSetting<'_, '_>,
    placed: &mut Placed,
    node: &Node,
    ty: Ty,
    test: NodeId,
    body: NodeId,
) -> Result<Found<'a>, AllocError>
    requires form { IsLoop node.now }
    requires sound { IsSound setting.now }
    requires few { length placed.old.nodes.items < 2 ^ 32 - 1 }
    requires types { length placed.old.types.held + 1 ≤ placed.old.types.room }
    ensures few { OnOk result (length placed.new.nodes.items ≤ length placed.old.nodes.items + 1) }
    ensures types { OnOk result (length placed.new.types.held + placed.old.types.room ≤ length placed.old.types.held + 1 + placed.new.types.room) }
    ensures placed { PlacesLoop setting.now node.now ty test body placed.old placed.new result }
{
    match node {
        Node::While { at, .. } => {
            let at = *at;
            place(placed, Node::While { at, test, body }, ty)
        }
        _ => unreachable!(),
    }
}

/// Places a block of this type and these items. Returns `Err` only if memory runs out.
#[inline(never)]
pub(crate) fn place_block<'a>(
    setting: &FoldingSetting<'_, '_>,
    placed: &mut Placed,
    node: &Node,
    ty: Ty,
    items: Vec<NodeId>,
) -> Result<Found<'a>, AllocError>
    requires form { IsBlock node.now }
    requires sound { IsSound setting.now }
    requires few { length placed.old.nodes.items < 2 ^ 32 - 1 }
    requires types { length placed.old.types.held + 1 ≤ placed.old.types.room }
    ensures few { OnOk result (length placed.new.nodes.items ≤ length placed.old.nodes.items + 1) }
    ensures types { OnOk result (length placed.new.types.held + placed.old.types.room ≤ length placed.old.types.held + 1 + placed.new.types.room) }
    ensures placed { PlacesBlock setting.now node.now ty items placed.old placed.new result }
{
    match node {
        Node::Block { at, .. } => {
            let items = Listed::new(items);
            place(placed, Node::Block { at: *at, items }, ty)
        }
        _ => unreachable!(),
    }
}

/// Places a conditional of this type and these parts, which stays. Returns `Err` only if memory runs out.
#[inline(never)]
pub(crate) fn place_if<'a>(
    setting: &FoldingSetting<'_, '_>,
    placed: &mut Placed,
    node: &Node,
    ty: Ty,
    test: NodeId,
    yes: NodeId,
    no: NodeId,
) -> Result<Found<'a>, AllocError>
    requires form { IsConditional node.now }
    requires sound { IsSound setting.now }
    requires few { length placed.old.nodes.items < 2 ^ 32 - 1 }
    requires types { length placed.old.types.held + 1 ≤ placed.old.types.room }
    ensures few { OnOk result (length placed.new.nodes.items ≤ length placed.old.nodes.items + 1) }
    ensures types { OnOk result (length placed.new.types.held + placed.old.types.room ≤ length placed.old.types.held + 1 + placed.new.types.room) }
    ensures placed { PlacesConditional setting.now node.now ty test yes no placed.old placed.new result }
{
    match node {
        Node::If { at, .. } => {
            let at = *at;
            let made = Node::If { at, test, yes, no };
            place(placed, made, ty)
        }
        _ => unreachable!(),
    }
}

/// Places a `let` of this type and these parts. Returns `Err` only if memory runs out.
#[inline(never)]
pub(crate) fn place_let<'a>(
    setting: &FoldingSetting<'_, '_>,
    placed: &mut Placed,
    node: &Node,
    ty: Ty,
    init: Option<NodeId>,
    body: NodeId,
) -> Result<Found<'a>, AllocError>
    requires form { IsLet node.now }
    requires sound { IsSound setting.now }
    requires few { length placed.old.nodes.items < 2 ^ 32 - 1 }
    requires types { length placed.old.types.held + 1 ≤ placed.old.types.room }
    ensures few { OnOk result (length placed.new.nodes.items ≤ length placed.old.nodes.items + 1) }
    ensures types { OnOk result (length placed.new.types.held + placed.old.types.room ≤ length placed.old.types.held + 1 + placed.new.types.room) }
    ensures placed { PlacesLet setting.now node.now ty init body placed.old placed.new result }
{
    match node {
        Node::Let {
            at,
            name,
            declared,
            ..
        } => {
            let name = name.copy(setting.alloc)?;
            let declared = declared.copy(setting.alloc)?;
            let made = Node::Let {
                at: *at,
                name,
                declared,
                init,
                body,
            };
            place(placed, made, ty)
        }
        _ => unreachable!(),
    }
}

/// Places a `case` of this type and these parts. Returns `Err` only if memory runs out.
#[inline(never)]
pub(crate) fn place_case<'a>(
    setting: &FoldingSetting<'_, '_>,
    placed: &mut Placed,
    node: &Node,
    ty: Ty,
    value: NodeId,
    branches: Vec<NodeBranch>,
) -> Result<Found<'a>, AllocError>
    requires form { IsCase node.now }
    requires sound { IsSound setting.now }
    requires few { length placed.old.nodes.items < 2 ^ 32 - 1 }
    requires types { length placed.old.types.held + 1 ≤ placed.old.types.room }
    ensures few { OnOk result (length placed.new.nodes.items ≤ length placed.old.nodes.items + 1) }
    ensures types { OnOk result (length placed.new.types.held + placed.old.types.room ≤ length placed.old.types.held + 1 + placed.new.types.room) }
    ensures placed { PlacesCase setting.now node.now ty value branches placed.old placed.new result }
{
    match node {
        Node::Case { at, .. } => {
            let made = Node::Case {
                at: *at,
                value,
                branches: Listed::new(branches),
            };
            place(placed, made, ty)
        }
        _ => unreachable!(),
    }
}

/// Adds a copy of a branch with this body to others. Returns `Err` only if memory runs out.
#[inline(never)]
pub(crate) fn add_branch(
    alloc: Global,
    branches: &mut Vec<NodeBranch>,
    branch: &NodeBranch,
    body: NodeId,
) -> Result<(), AllocError>
    ensures { OnOk result (branches.new.items ≡ branches.old.items ++ record { at = branch.now.at; name = branch.now.name; declared = branch.now.declared; body = body } ∷ []) }
{
    let name = branch.name.copy(alloc)?;
    let declared = branch.declared.copy(alloc)?;
    branches.push(NodeBranch {
        at: branch.at,
        name,
        declared,
        body,
    })?;
    Ok(())
}

/// Places a dispatch of this type on a receiver of this class, with these parts: a direct call if no class below the receiver's defines the method anew.
/// Returns `Err` only if memory runs out.
#[inline(never)]
pub(crate) fn place_dispatch<'a>(
    setting: &FoldingSetting<'_, '_>,
    placed: &mut Placed,
    node: &Node,
    ty: Ty,
    class: ClassId,
    object: NodeId,
    args: Vec<NodeId>,
) -> Result<Found<'a>, AllocError>
    requires form { IsDispatch node.now }
    requires sound { IsSound setting.now }
    requires class { class.0 < length setting.now.table.now }
    requires few { length placed.old.nodes.items < 2 ^ 32 - 1 }
    requires types { length placed.old.types.held + 1 ≤ placed.old.types.room }
    ensures few { OnOk result (length placed.new.nodes.items ≤ length placed.old.nodes.items + 1) }
    ensures types { OnOk result (length placed.new.types.held + placed.old.types.room ≤ length placed.old.types.held + 1 + placed.new.types.room) }
    ensures placed { PlacesDispatch setting.now node.now ty class object args placed.old placed.new result }
{
    match node {
        Node::Dispatch { at, name, .. } => {
            let args = Listed::new(args);
            let copy = name.copy(setting.alloc)?;
            if setting.is_redefined(class, name) {
                let made = Node::Dispatch {
                    at: *at,
                    receiver: object,
                    name: copy,
                    args,
                };
                return place(placed, made, ty);
            }
            let named = setting.table.name(class).copy(setting.alloc)?;
            let made = Node::StaticDispatch {
                at: *at,
                receiver: object,
                class: TypeRef {
                    name: named,
                    at: *at,
                },
                name: copy,
                args,
            };
            place(placed, made, ty)
        }
        _ => unreachable!(),
    }
}

/// Places a dispatch of this type and these parts to the method of the class that it names. Returns `Err` only if memory runs out.
#[inline(never)]
pub(crate) fn place_static<'a>(
    setting: &FoldingSetting<'_, '_>,
    placed: &mut Placed,
    node: &Node,
    ty: Ty,
    object: NodeId,
    args: Vec<NodeId>,
) -> Result<Found<'a>, AllocError>
    requires form { IsStaticDispatch node.now }
    requires sound { IsSound setting.now }
    requires few { length placed.old.nodes.items < 2 ^ 32 - 1 }
    requires types { length placed.old.types.held + 1 ≤ placed.old.types.room }
    ensures few { OnOk result (length placed.new.nodes.items ≤ length placed.old.nodes.items + 1) }
    ensures types { OnOk result (length placed.new.types.held + placed.old.types.room ≤ length placed.old.types.held + 1 + placed.new.types.room) }
    ensures placed { PlacesStaticDispatch setting.now node.now ty object args placed.old placed.new result }
{
    match node {
        Node::StaticDispatch {
            at,
            class,
            name,
            ..
        } => {
            let class = class.copy(setting.alloc)?;
            let name = name.copy(setting.alloc)?;
            let made = Node::StaticDispatch {
                at: *at,
                receiver: object,
                class,
                name,
                args: Listed::new(args),
            };
            place(placed, made, ty)
        }
        _ => unreachable!(),
    }
}
