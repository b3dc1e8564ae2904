//! Copies expressions.

ghost use Rattle.std.specs.Prelude.{◌≡◌, IfOk};
ghost use Rattle.cool_expr.specs.View.{tree, twig};
ghost use Rattle.cool_expr.specs.Groups.{IsBinary, IsBinding, IsCall, IsControl, IsLeaf, IsUnary};

use crate::expr::{Branch, Expr};
use crate::parts::{Branches, Child, Exprs};
use std::alloc::{AllocError, Global};

/// A copy of the expression, with its places. Returns `Err` only if memory runs out.
///
/// It calls itself once for each level of the tree, so it takes stack in proportion to the depth.
#[cycle(copy)]
pub fn copy_expr(alloc: Global, e: &Expr) -> Result<Expr, AllocError>
    ensures copied { IfOk result (λ c. tree c ≡ tree e.now) }
{
    match e {
        Expr::Dispatch { .. } | Expr::StaticDispatch { .. } => copy_call(alloc, e),
        Expr::Let { .. } | Expr::Case { .. } => copy_binding(alloc, e),
        Expr::If { .. } | Expr::While { .. } | Expr::Block { .. } => copy_control(alloc, e),
        Expr::Assign { .. } | Expr::IsVoid { .. } | Expr::Neg { .. } | Expr::Not { .. } => {
            copy_unary(alloc, e)
        }
        Expr::Arith { .. } | Expr::Compare { .. } => copy_binary(alloc, e),
        Expr::New { .. }
        | Expr::Id { .. }
        | Expr::Int { .. }
        | Expr::Str { .. }
        | Expr::Bool { .. } => copy_leaf(alloc, e),
    }
}

// A copy of a dispatch.
#[cycle(copy)]
fn copy_call(alloc: Global, e: &Expr) -> Result<Expr, AllocError>
    requires { IsCall e.now }
    ensures copied { IfOk result (λ c. tree c ≡ tree e.now) }
{
    match e {
        Expr::Dispatch {
            at,
            receiver,
            name,
            args,
        } => Ok(Expr::Dispatch {
            at: *at,
            receiver: copy_child(alloc, receiver)?,
            name: name.copy(alloc)?,
            args: copy_exprs(alloc, args)?,
        }),
        Expr::StaticDispatch {
            at,
            receiver,
            class,
            name,
            args,
        } => Ok(Expr::StaticDispatch {
            at: *at,
            receiver: copy_child(alloc, receiver)?,
            class: class.copy(alloc)?,
            name: name.copy(alloc)?,
            args: copy_exprs(alloc, args)?,
        }),
        _ => unreachable!(),
    }
}

// A copy of a binding or a case.
#[cycle(copy)]
fn copy_binding(alloc: Global, e: &Expr) -> Result<Expr, AllocError>
    requires { IsBinding e.now }
    ensures copied { IfOk result (λ c. tree c ≡ tree e.now) }
{
    match e {
        Expr::Let {
            at,
            name,
            declared,
            init,
            body,
        } => Ok(Expr::Let {
            at: *at,
            name: name.copy(alloc)?,
            declared: declared.copy(alloc)?,
            init: copy_option(alloc, init)?,
            body: copy_child(alloc, body)?,
        }),
        Expr::Case {
            at,
            value,
            branches,
        } => Ok(Expr::Case {
            at: *at,
            value: copy_child(alloc, value)?,
            branches: copy_branches(alloc, branches)?,
        }),
        _ => unreachable!(),
    }
}

// A copy of a condition, a loop or a block.
#[cycle(copy)]
fn copy_control(alloc: Global, e: &Expr) -> Result<Expr, AllocError>
    requires { IsControl e.now }
    ensures copied { IfOk result (λ c. tree c ≡ tree e.now) }
{
    match e {
        Expr::If { at, test, yes, no } => Ok(Expr::If {
            at: *at,
            test: copy_child(alloc, test)?,
            yes: copy_child(alloc, yes)?,
            no: copy_child(alloc, no)?,
        }),
        Expr::While { at, test, body } => Ok(Expr::While {
            at: *at,
            test: copy_child(alloc, test)?,
            body: copy_child(alloc, body)?,
        }),
        Expr::Block { at, items } => Ok(Expr::Block {
            at: *at,
            items: copy_exprs(alloc, items)?,
        }),
        _ => unreachable!(),
    }
}

// A copy of an assignment or a prefix operator.
#[cycle(copy)]
fn copy_unary(alloc: Global, e: &Expr) -> Result<Expr, AllocError>
    requires { IsUnary e.now }
    ensures copied { IfOk result (λ c. tree c ≡ tree e.now) }
{
    match e {
        Expr::Assign { at, name, value } => Ok(Expr::Assign {
            at: *at,
            name: name.copy(alloc)?,
            value: copy_child(alloc, value)?,
        }),
        Expr::IsVoid { at, value } => Ok(Expr::IsVoid {
            at: *at,
            value: copy_child(alloc, value)?,
        }),
        Expr::Neg { at, value } => Ok(Expr::Neg {
            at: *at,
            value: copy_child(alloc, value)?,
        }),
        Expr::Not { at, value } => Ok(Expr::Not {
            at: *at,
            value: copy_child(alloc, value)?,
        }),
        _ => unreachable!(),
    }
}

// A copy of an operator between two operands.
#[cycle(copy)]
fn copy_binary(alloc: Global, e: &Expr) -> Result<Expr, AllocError>
    requires { IsBinary e.now }
    ensures copied { IfOk result (λ c. tree c ≡ tree e.now) }
{
    match e {
        Expr::Arith {
            at,
            op,
            left,
            right,
        } => Ok(Expr::Arith {
            at: *at,
            op: *op,
            left: copy_child(alloc, left)?,
            right: copy_child(alloc, right)?,
        }),
        Expr::Compare {
            at,
            op,
            left,
            right,
        } => Ok(Expr::Compare {
            at: *at,
            op: *op,
            left: copy_child(alloc, left)?,
            right: copy_child(alloc, right)?,
        }),
        _ => unreachable!(),
    }
}

// A copy of an expression that has no other in it.
fn copy_leaf(alloc: Global, e: &Expr) -> Result<Expr, AllocError>
    requires { IsLeaf e.now }
    ensures copied { IfOk result (λ c. tree c ≡ tree e.now) }
{
    match e {
        Expr::New { at, class } => Ok(Expr::New {
            at: *at,
            class: class.copy(alloc)?,
        }),
        Expr::Id { at, name } => Ok(Expr::Id {
            at: *at,
            name: name.copy(alloc)?,
        }),
        Expr::Int { at, value } => Ok(Expr::Int {
            at: *at,
            value: *value,
        }),
        Expr::Str { at, bytes } => Ok(Expr::Str {
            at: *at,
            bytes: bytes.copy(alloc)?,
        }),
        Expr::Bool { at, value } => Ok(Expr::Bool {
            at: *at,
            value: *value,
        }),
        _ => unreachable!(),
    }
}

#[cycle(copy)]
fn copy_child(alloc: Global, child: &Child) -> Result<Child, AllocError>
    ensures copied { IfOk result (λ copy. copy ≡ child.now) }
{
    Child::new(alloc, copy_expr(alloc, child.expr())?)
}

#[cycle(copy)]
fn copy_option(alloc: Global, child: &Option<Child>) -> Result<Option<Child>, AllocError>
    ensures copied { IfOk result (λ copy. copy ≡ child.now) }
{
    match child {
        None => Ok(None),
        Some(child) => Ok(Some(copy_child(alloc, child)?)),
    }
}

#[cycle(copy)]
fn copy_exprs(alloc: Global, exprs: &Exprs) -> Result<Exprs, AllocError>
    ensures copied { IfOk result (λ copies. copies ≡ exprs.now) }
{
    let items = exprs.as_slice();
    let mut copies = Vec::with_capacity(alloc, items.len())?;
    for item in items {
        copies.push(copy_expr(alloc, item)?)?;
    }
    Ok(Exprs::new(copies))
}

#[cycle(copy)]
fn copy_branch(alloc: Global, branch: &Branch) -> Result<Branch, AllocError>
    ensures copied { IfOk result (λ copy. twig copy ≡ twig branch.now) }
{
    Ok(Branch {
        at: branch.at,
        name: branch.name.copy(alloc)?,
        declared: branch.declared.copy(alloc)?,
        body: copy_child(alloc, &branch.body)?,
    })
}

#[cycle(copy)]
fn copy_branches(alloc: Global, branches: &Branches) -> Result<Branches, AllocError>
    ensures copied { IfOk result (λ copies. copies ≡ branches.now) }
{
    let items = branches.as_slice();
    let mut copies = Vec::with_capacity(alloc, items.len())?;
    for branch in items {
        copies.push(copy_branch(alloc, branch)?)?;
    }
    Ok(Branches::new(copies))
}
