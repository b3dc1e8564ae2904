//! Converts an expression stored in a pool (an arena of nodes) to an expression tree in memory.

ghost use Rattle.std.specs.Prelude.{◌≡◌, ◌<◌, [], length, map, IfOk, IfSome};
ghost use Rattle.std.specs.List.{AllByRecursion};
ghost use Rattle.std.specs.Option.{option_map};
ghost use Rattle.cool_expr.specs.View.{tree, twig};
ghost use Rattle.cool_syntax.specs.NodeLists.{at_id, twig_at, grown, made, HasPartsBelow};
ghost use Rattle.cool_syntax.specs.NodeGroups.{IsBinary, IsBinding, IsCall, IsControl, IsLeaf, IsUnary};

use crate::expr::{Branch, Expr};
use crate::parts::{Branches, Child, Exprs};
use cool_pool::Pool;
use cool_syntax::{Node, NodeBranch, NodeId};
use std::alloc::{AllocError, Global};

/// The tree at this number of a pool, as an expression in memory of its own. Returns `Err` only if memory runs out.
///
/// It calls itself once for each level of the tree, so it takes stack in proportion to the depth.
#[cycle(boxed)]
pub fn boxed_tree(alloc: Global, pool: &Pool, id: NodeId) -> Result<Expr, AllocError>
    requires below { id.0 < length pool.now.nodes }
    ensures { IfOk result (λ e. tree e ≡ at_id (grown [] pool.now.nodes) id) }
{
    let node = pool.node(id);
    match node {
        Node::Dispatch { .. } | Node::StaticDispatch { .. } => boxed_call(alloc, pool, id, node),
        Node::Let { .. } | Node::Case { .. } => boxed_binding(alloc, pool, id, node),
        Node::If { .. } | Node::While { .. } | Node::Block { .. } => {
            boxed_control(alloc, pool, id, node)
        }
        Node::Assign { .. } | Node::IsVoid { .. } | Node::Neg { .. } | Node::Not { .. } => {
            boxed_unary(alloc, pool, id, node)
        }
        Node::Arith { .. } | Node::Compare { .. } => boxed_binary(alloc, pool, id, node),
        Node::New { .. }
        | Node::Id { .. }
        | Node::Int { .. }
        | Node::Str { .. }
        | Node::Bool { .. } => boxed_leaf(alloc, node),
    }
}

// The expression of a dispatch, whose parts have numbers below this one.
#[cycle(boxed)]
fn boxed_call(alloc: Global, pool: &Pool, id: NodeId, node: &Node) -> Result<Expr, AllocError>
    requires group { IsCall node.now }
    requires below { id.0 < length pool.now.nodes }
    requires parts { HasPartsBelow id.0 node.now }
    ensures { IfOk result (λ e. tree e ≡ made (grown [] pool.now.nodes) node.now) }
{
    match node {
        Node::Dispatch {
            at,
            receiver,
            name,
            args,
        } => Ok(Expr::Dispatch {
            at: *at,
            receiver: boxed_child(alloc, pool, *receiver)?,
            name: name.copy(alloc)?,
            args: boxed_all(alloc, pool, id, args.as_slice())?,
        }),
        Node::StaticDispatch {
            at,
            receiver,
            class,
            name,
            args,
        } => Ok(Expr::StaticDispatch {
            at: *at,
            receiver: boxed_child(alloc, pool, *receiver)?,
            class: class.copy(alloc)?,
            name: name.copy(alloc)?,
            args: boxed_all(alloc, pool, id, args.as_slice())?,
        }),
        _ => unreachable!(),
    }
}

// The expression of a binding or a case, whose parts have numbers below this one.
#[cycle(boxed)]
fn boxed_binding(alloc: Global, pool: &Pool, id: NodeId, node: &Node) -> Result<Expr, AllocError>
    requires group { IsBinding node.now }
    requires below { id.0 < length pool.now.nodes }
    requires parts { HasPartsBelow id.0 node.now }
    ensures { IfOk result (λ e. tree e ≡ made (grown [] pool.now.nodes) node.now) }
{
    match node {
        Node::Let {
            at,
            name,
            declared,
            init,
            body,
        } => Ok(Expr::Let {
            at: *at,
            name: name.copy(alloc)?,
            declared: declared.copy(alloc)?,
            init: boxed_option(alloc, pool, id, *init)?,
            body: boxed_child(alloc, pool, *body)?,
        }),
        Node::Case {
            at,
            value,
            branches,
        } => Ok(Expr::Case {
            at: *at,
            value: boxed_child(alloc, pool, *value)?,
            branches: boxed_branches(alloc, pool, id, branches.as_slice())?,
        }),
        _ => unreachable!(),
    }
}

// The expression of a condition, a loop or a block, whose parts have numbers below this one.
#[cycle(boxed)]
fn boxed_control(alloc: Global, pool: &Pool, id: NodeId, node: &Node) -> Result<Expr, AllocError>
    requires group { IsControl node.now }
    requires below { id.0 < length pool.now.nodes }
    requires parts { HasPartsBelow id.0 node.now }
    ensures { IfOk result (λ e. tree e ≡ made (grown [] pool.now.nodes) node.now) }
{
    match node {
        Node::If { at, test, yes, no } => Ok(Expr::If {
            at: *at,
            test: boxed_child(alloc, pool, *test)?,
            yes: boxed_child(alloc, pool, *yes)?,
            no: boxed_child(alloc, pool, *no)?,
        }),
        Node::While { at, test, body } => Ok(Expr::While {
            at: *at,
            test: boxed_child(alloc, pool, *test)?,
            body: boxed_child(alloc, pool, *body)?,
        }),
        Node::Block { at, items } => Ok(Expr::Block {
            at: *at,
            items: boxed_all(alloc, pool, id, items.as_slice())?,
        }),
        _ => unreachable!(),
    }
}

// The expression of an assignment or a prefix operator, whose parts have numbers below this one.
#[cycle(boxed)]
fn boxed_unary(alloc: Global, pool: &Pool, id: NodeId, node: &Node) -> Result<Expr, AllocError>
    requires group { IsUnary node.now }
    requires below { id.0 < length pool.now.nodes }
    requires parts { HasPartsBelow id.0 node.now }
    ensures { IfOk result (λ e. tree e ≡ made (grown [] pool.now.nodes) node.now) }
{
    match node {
        Node::Assign { at, name, value } => Ok(Expr::Assign {
            at: *at,
            name: name.copy(alloc)?,
            value: boxed_child(alloc, pool, *value)?,
        }),
        Node::IsVoid { at, value } => Ok(Expr::IsVoid {
            at: *at,
            value: boxed_child(alloc, pool, *value)?,
        }),
        Node::Neg { at, value } => Ok(Expr::Neg {
            at: *at,
            value: boxed_child(alloc, pool, *value)?,
        }),
        Node::Not { at, value } => Ok(Expr::Not {
            at: *at,
            value: boxed_child(alloc, pool, *value)?,
        }),
        _ => unreachable!(),
    }
}

// The expression of an operator between two operands, whose parts have numbers below this one.
#[cycle(boxed)]
fn boxed_binary(alloc: Global, pool: &Pool, id: NodeId, node: &Node) -> Result<Expr, AllocError>
    requires group { IsBinary node.now }
    requires below { id.0 < length pool.now.nodes }
    requires parts { HasPartsBelow id.0 node.now }
    ensures { IfOk result (λ e. tree e ≡ made (grown [] pool.now.nodes) node.now) }
{
    match node {
        Node::Arith {
            at,
            op,
            left,
            right,
        } => Ok(Expr::Arith {
            at: *at,
            op: *op,
            left: boxed_child(alloc, pool, *left)?,
            right: boxed_child(alloc, pool, *right)?,
        }),
        Node::Compare {
            at,
            op,
            left,
            right,
        } => Ok(Expr::Compare {
            at: *at,
            op: *op,
            left: boxed_child(alloc, pool, *left)?,
            right: boxed_child(alloc, pool, *right)?,
        }),
        _ => unreachable!(),
    }
}

// The expression of a node with no parts.
fn boxed_leaf(alloc: Global, node: &Node) -> Result<Expr, AllocError>
    requires { IsLeaf node.now }
    ensures { IfOk result (λ e. tree e ≡ made [] node.now) }
{
    match node {
        Node::New { at, class } => Ok(Expr::New {
            at: *at,
            class: class.copy(alloc)?,
        }),
        Node::Id { at, name } => Ok(Expr::Id {
            at: *at,
            name: name.copy(alloc)?,
        }),
        Node::Int { at, value } => Ok(Expr::Int {
            at: *at,
            value: *value,
        }),
        Node::Str { at, bytes } => Ok(Expr::Str {
            at: *at,
            bytes: bytes.copy(alloc)?,
        }),
        Node::Bool { at, value } => Ok(Expr::Bool {
            at: *at,
            value: *value,
        }),
        _ => unreachable!(),
    }
}

#[cycle(boxed)]
fn boxed_child(alloc: Global, pool: &Pool, id: NodeId) -> Result<Child, AllocError>
    requires below { id.0 < length pool.now.nodes }
    ensures { IfOk result (λ child. child ≡ at_id (grown [] pool.now.nodes) id) }
{
    Child::new(alloc, boxed_tree(alloc, pool, id)?)
}

// The expression at a number below this one, or none.
#[cycle(boxed)]
fn boxed_option(
    alloc: Global,
    pool: &Pool,
    end: NodeId,
    id: Option<NodeId>,
) -> Result<Option<Child>, AllocError>
    requires below { end.0 < length pool.now.nodes }
    requires parts { IfSome id (λ c. c.0 < end.0) }
    ensures { IfOk result (λ child. child ≡ option_map (at_id (grown [] pool.now.nodes)) id) }
{
    match id {
        None => Ok(None),
        Some(id) => Ok(Some(boxed_child(alloc, pool, id)?)),
    }
}

// The expressions at numbers below this one.
#[cycle(boxed)]
fn boxed_all(alloc: Global, pool: &Pool, end: NodeId, ids: &[NodeId]) -> Result<Exprs, AllocError>
    requires below { end.0 < length pool.now.nodes }
    requires parts { AllByRecursion (λ c. c.0 < end.0) ids.now }
    ensures { IfOk result (λ exprs. exprs ≡ map (at_id (grown [] pool.now.nodes)) ids.now) }
{
    let mut exprs = Vec::with_capacity(alloc, ids.len())?;
    for id in ids {
        exprs.push(boxed_tree(alloc, pool, *id)?)?;
    }
    Ok(Exprs::new(exprs))
}

// The branch whose body is at a number below this one.
#[cycle(boxed)]
fn boxed_branch(alloc: Global, pool: &Pool, branch: &NodeBranch) -> Result<Branch, AllocError>
    requires below { branch.now.body.0 < length pool.now.nodes }
    ensures { IfOk result (λ b. twig b ≡ twig_at (grown [] pool.now.nodes) branch.now) }
{
    Ok(Branch {
        at: branch.at,
        name: branch.name.copy(alloc)?,
        declared: branch.declared.copy(alloc)?,
        body: boxed_child(alloc, pool, branch.body)?,
    })
}

// The branches whose bodies are at numbers below this one.
#[cycle(boxed)]
fn boxed_branches(
    alloc: Global,
    pool: &Pool,
    end: NodeId,
    branches: &[NodeBranch],
) -> Result<Branches, AllocError>
    requires below { end.0 < length pool.now.nodes }
    requires parts { AllByRecursion (λ b. b.body.0 < end.0) branches.now }
    ensures { IfOk result (λ bs. bs ≡ map (twig_at (grown [] pool.now.nodes)) branches.now) }
{
    let mut copies = Vec::with_capacity(alloc, branches.len())?;
    for branch in branches {
        copies.push(boxed_branch(alloc, pool, branch)?)?;
    }
    Ok(Branches::new(copies))
}
