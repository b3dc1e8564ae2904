//! `body_notices` finds the notices (warnings about legal but likely wrong code) in the body of a feature.

ghost use Rattle.std.specs.Prelude.{◌≡◌, ◌<◌, take, option_map, OnOk, IfOk};
ghost use Rattle.std.specs.Option.{option_to_list};
ghost use Rattle.cool_syntax.specs.Tree.{tree_size};
ghost use Rattle.cool_syntax.specs.NodeLists.{tree_at};
ghost use Rattle.cool_notices.specs.Notices.{are_one_name, block_notices, due_notices, idle_kind, idle_notice, is_by_zero, is_name, is_zero, name_of, notice_if, own_notice, test_notice, up_to};

use crate::kind::{Notice, NoticeKind};
use cool_syntax::{ArithOp, Body, Name, Node, NodeId, Place};
use std::alloc::{AllocError, Global};

/// The first notices that are due in a body, at most so many: those of an expression after those of its parts. Returns `Err` only if memory runs out.
pub fn body_notices(alloc: Global, body: &Body, most: usize) -> Result<Vec<Notice>, AllocError>
    ensures { IfOk result (λ all. all.items ≡ take most (due_notices body.now)) }
{
    let mut all = Vec::new(alloc);
    for number in 0..body.len() {
        let id = NodeId(number);
        add_idle(body, id, most, &mut all)?;
        add(&mut all, most, notice_at(body, id))?;
    }
    Ok(all)
}

/// Adds a notice, where there is one and there are not so many yet. Returns `Err` only if memory runs out.
fn add(all: &mut Vec<Notice>, most: usize, notice: Option<Notice>) -> Result<(), AllocError>
    ensures { OnOk result (all.new.items ≡ up_to most all.old.items (option_to_list notice)) }
{
    match notice {
        Some(notice) if all.len() < most => all.push(notice)?,
        _ => {}
    }
    Ok(())
}

/// Adds the notices of the items of a block but the last; none of another expression. Returns `Err` only if memory runs out.
fn add_idle(body: &Body, id: NodeId, most: usize, all: &mut Vec<Notice>) -> Result<(), AllocError>
    requires below { id.0 < tree_size body.now }
    ensures { OnOk result (all.new.items ≡ up_to most all.old.items (block_notices (tree_at body.now id))) }
{
    let Node::Block { items, .. } = body.node(id) else {
        return Ok(());
    };
    let items = items.as_slice();
    for index in 0..items.len().saturating_sub(1) {
        add(all, most, idle_notice(body, items[index]))?;
    }
    Ok(())
}

/// The notice that is due at an expression whose value is not used.
fn idle_notice(body: &Body, id: NodeId) -> Option<Notice>
    requires below { id.0 < tree_size body.now }
    ensures { result ≡ idle_notice (tree_at body.now id) }
{
    let kind = idle_kind(body, id)?;
    Some(Notice {
        kind,
        at: body.node(id).place(),
    })
}

/// The notice that is due at an expression whose value is not used.
fn idle_kind(body: &Body, id: NodeId) -> Option<NoticeKind>
    requires below { id.0 < tree_size body.now }
    ensures { result ≡ idle_kind (tree_at body.now id) }
{
    match body.node(id) {
        Node::Compare { left, .. } => match name_at(body, *left) {
            Some(_) => Some(NoticeKind::Comparison),
            None => Some(NoticeKind::Unused),
        },
        Node::Arith { .. }
        | Node::Neg { .. }
        | Node::Not { .. }
        | Node::IsVoid { .. }
        | Node::Id { .. }
        | Node::Int { .. }
        | Node::Str { .. }
        | Node::Bool { .. } => Some(NoticeKind::Unused),
        _ => None,
    }
}

/// The notice that is due at an expression itself.
fn notice_at(body: &Body, id: NodeId) -> Option<Notice>
    requires below { id.0 < tree_size body.now }
    ensures { result ≡ own_notice (tree_at body.now id) }
{
    match body.node(id) {
        Node::Assign { at, name, value } => {
            noted(is_name(body, *value, name), NoticeKind::OwnValue, *at)
        }
        Node::If { test, .. } => test_notice(body, *test),
        Node::While { test, .. } => test_notice(body, *test),
        Node::Compare {
            at,
            left,
            right,
            ..
        } => noted(
            are_one_name(body, *left, *right),
            NoticeKind::SameSides,
            *at,
        ),
        Node::Arith { at, op, right, .. } => {
            noted(is_by_zero(body, *op, *right), NoticeKind::ByZero, *at)
        }
        _ => None,
    }
}

/// A notice, where it is due.
fn noted(is_due: bool, kind: NoticeKind, at: Place) -> Option<Notice>
    ensures { result ≡ notice_if is_due kind at }
{
    if is_due {
        Some(Notice { kind, at })
    } else {
        None
    }
}

/// The notice of a predicate.
fn test_notice(body: &Body, id: NodeId) -> Option<Notice>
    requires below { id.0 < tree_size body.now }
    ensures { result ≡ test_notice (tree_at body.now id) }
{
    match body.node(id) {
        Node::Assign { at, .. } => Some(Notice {
            kind: NoticeKind::AssignedTest,
            at: *at,
        }),
        _ => None,
    }
}

/// The name that an expression is.
fn name_at(body: &Body, id: NodeId) -> Option<&Name>
    requires below { id.0 < tree_size body.now }
    ensures { option_map (λ name. name.now) result ≡ name_of (tree_at body.now id) }
{
    match body.node(id) {
        Node::Id { name, .. } => Some(name),
        _ => None,
    }
}

/// Whether an expression is this name.
fn is_name(body: &Body, id: NodeId, name: &Name) -> bool
    requires below { id.0 < tree_size body.now }
    ensures { result ≡ is_name (tree_at body.now id) name.now }
{
    match name_at(body, id) {
        Some(found) => found.is(name),
        None => false,
    }
}

/// Whether two expressions are one name.
fn are_one_name(body: &Body, left: NodeId, right: NodeId) -> bool
    requires left { left.0 < tree_size body.now }
    requires right { right.0 < tree_size body.now }
    ensures { result ≡ are_one_name (tree_at body.now left) (tree_at body.now right) }
{
    match name_at(body, left) {
        Some(name) => is_name(body, right, name),
        None => false,
    }
}

/// Whether an operation is a division by the constant 0.
fn is_by_zero(body: &Body, op: ArithOp, right: NodeId) -> bool
    requires below { right.0 < tree_size body.now }
    ensures { result ≡ is_by_zero op (tree_at body.now right) }
{
    match op {
        ArithOp::Div => is_zero(body, right),
        _ => false,
    }
}

/// Whether an expression is the constant 0.
fn is_zero(body: &Body, id: NodeId) -> bool
    requires below { id.0 < tree_size body.now }
    ensures { result ≡ is_zero (tree_at body.now id) }
{
    match body.node(id) {
        Node::Int { value, .. } => *value == 0,
        _ => false,
    }
}
