//! Compares two expressions, ignoring source locations.

ghost use Rattle.std.specs.Prelude.{◌≡◌, ◌↔◌, IsTrue};
ghost use Rattle.cool_syntax.specs.Tree.{of_list, of_option, of_twigs};
ghost use Rattle.cool_expr.specs.View.{tree, twig};
ghost use Rattle.cool_syntax.specs.Bare.{bare, bare_all, bare_cases, bare_maybe, bare_twig, bare_type};
ghost use Rattle.cool_expr.specs.Groups.{IsBinary, IsBinding, IsCall, IsControl, IsLeaf, IsUnary};

use crate::expr::{Branch, Expr};
use crate::parts::{Branches, Child, Exprs};
use cool_syntax::{TypeRef, same_name};

/// Whether the two expressions differ in nothing but places.
///
/// It calls itself once for each level of the trees, so it takes stack in proportion to the depth.
#[cycle(comparison)]
pub fn same_expr(a: &Expr, b: &Expr) -> bool
    ensures same { IsTrue result ↔ (bare (tree a.now) ≡ bare (tree b.now)) }
{
    match a {
        Expr::Dispatch { .. } | Expr::StaticDispatch { .. } => same_call(a, b),
        Expr::Let { .. } | Expr::Case { .. } => same_binding(a, b),
        Expr::If { .. } | Expr::While { .. } | Expr::Block { .. } => same_control(a, b),
        Expr::Assign { .. } | Expr::IsVoid { .. } | Expr::Neg { .. } | Expr::Not { .. } => {
            same_unary(a, b)
        }
        Expr::Arith { .. } | Expr::Compare { .. } => same_binary(a, b),
        Expr::New { .. }
        | Expr::Id { .. }
        | Expr::Int { .. }
        | Expr::Str { .. }
        | Expr::Bool { .. } => same_leaf(a, b),
    }
}

// `same_expr` where the first is a dispatch.
#[cycle(comparison)]
fn same_call(a: &Expr, b: &Expr) -> bool
    requires { IsCall a.now }
    ensures same { IsTrue result ↔ (bare (tree a.now) ≡ bare (tree b.now)) }
{
    match (a, b) {
        (
            Expr::Dispatch {
                receiver: r,
                name: m,
                args: xs,
                ..
            },
            Expr::Dispatch {
                receiver: s,
                name: n,
                args: ys,
                ..
            },
        ) => same_child(r, s) && same_name(m, n) && same_exprs(xs, ys),
        (
            Expr::StaticDispatch {
                receiver: r,
                class: c,
                name: m,
                args: xs,
                ..
            },
            Expr::StaticDispatch {
                receiver: s,
                class: d,
                name: n,
                args: ys,
                ..
            },
        ) => same_child(r, s) && same_type(c, d) && same_name(m, n) && same_exprs(xs, ys),
        _ => false,
    }
}

// `same_expr` where the first is a binding or a case.
#[cycle(comparison)]
fn same_binding(a: &Expr, b: &Expr) -> bool
    requires { IsBinding a.now }
    ensures same { IsTrue result ↔ (bare (tree a.now) ≡ bare (tree b.now)) }
{
    match (a, b) {
        (
            Expr::Let {
                name: m,
                declared: c,
                init: x,
                body: v,
                ..
            },
            Expr::Let {
                name: n,
                declared: d,
                init: y,
                body: w,
                ..
            },
        ) => same_name(m, n) && same_type(c, d) && same_option(x, y) && same_child(v, w),
        (
            Expr::Case {
                value: v,
                branches: xs,
                ..
            },
            Expr::Case {
                value: w,
                branches: ys,
                ..
            },
        ) => same_child(v, w) && same_branches(xs, ys),
        _ => false,
    }
}

// `same_expr` where the first is a condition, a loop or a block.
#[cycle(comparison)]
fn same_control(a: &Expr, b: &Expr) -> bool
    requires { IsControl a.now }
    ensures same { IsTrue result ↔ (bare (tree a.now) ≡ bare (tree b.now)) }
{
    match (a, b) {
        (
            Expr::If {
                test: t,
                yes: x,
                no: v,
                ..
            },
            Expr::If {
                test: u,
                yes: y,
                no: w,
                ..
            },
        ) => same_child(t, u) && same_child(x, y) && same_child(v, w),
        (
            Expr::While {
                test: t,
                body: v,
                ..
            },
            Expr::While {
                test: u,
                body: w,
                ..
            },
        ) => same_child(t, u) && same_child(v, w),
        (Expr::Block { items: xs, .. }, Expr::Block { items: ys, .. }) => same_exprs(xs, ys),
        _ => false,
    }
}

// `same_expr` where the first is an assignment or a prefix operator.
#[cycle(comparison)]
fn same_unary(a: &Expr, b: &Expr) -> bool
    requires { IsUnary a.now }
    ensures same { IsTrue result ↔ (bare (tree a.now) ≡ bare (tree b.now)) }
{
    match (a, b) {
        (
            Expr::Assign {
                name: m,
                value: v,
                ..
            },
            Expr::Assign {
                name: n,
                value: w,
                ..
            },
        ) => same_name(m, n) && same_child(v, w),
        (Expr::IsVoid { value: v, .. }, Expr::IsVoid { value: w, .. }) => same_child(v, w),
        (Expr::Neg { value: v, .. }, Expr::Neg { value: w, .. }) => same_child(v, w),
        (Expr::Not { value: v, .. }, Expr::Not { value: w, .. }) => same_child(v, w),
        _ => false,
    }
}

// `same_expr` where the first is an operator between two operands.
#[cycle(comparison)]
fn same_binary(a: &Expr, b: &Expr) -> bool
    requires { IsBinary a.now }
    ensures same { IsTrue result ↔ (bare (tree a.now) ≡ bare (tree b.now)) }
{
    match (a, b) {
        (
            Expr::Arith {
                op: o,
                left: v,
                right: x,
                ..
            },
            Expr::Arith {
                op: p,
                left: w,
                right: y,
                ..
            },
        ) => o == p && same_child(v, w) && same_child(x, y),
        (
            Expr::Compare {
                op: o,
                left: v,
                right: x,
                ..
            },
            Expr::Compare {
                op: p,
                left: w,
                right: y,
                ..
            },
        ) => o == p && same_child(v, w) && same_child(x, y),
        _ => false,
    }
}

// `same_expr` where the first has no other expression in it.
fn same_leaf(a: &Expr, b: &Expr) -> bool
    requires { IsLeaf a.now }
    ensures same { IsTrue result ↔ (bare (tree a.now) ≡ bare (tree b.now)) }
{
    match (a, b) {
        (Expr::New { class: c, .. }, Expr::New { class: d, .. }) => same_type(c, d),
        (Expr::Id { name: m, .. }, Expr::Id { name: n, .. }) => same_name(m, n),
        (Expr::Int { value: v, .. }, Expr::Int { value: w, .. }) => v == w,
        (Expr::Str { bytes: v, .. }, Expr::Str { bytes: w, .. }) => v.as_slice() == w.as_slice(),
        (Expr::Bool { value: v, .. }, Expr::Bool { value: w, .. }) => v == w,
        _ => false,
    }
}

fn same_type(a: &TypeRef, b: &TypeRef) -> bool
    ensures same { IsTrue result ↔ (bare_type a.now ≡ bare_type b.now) }
{
    same_name(&a.name, &b.name)
}

#[cycle(comparison)]
fn same_child(a: &Child, b: &Child) -> bool
    ensures same { IsTrue result ↔ (bare a.now ≡ bare b.now) }
{
    same_expr(a.expr(), b.expr())
}

#[cycle(comparison)]
fn same_option(a: &Option<Child>, b: &Option<Child>) -> bool
    ensures same { IsTrue result ↔ (bare_maybe (of_option a.now) ≡ bare_maybe (of_option b.now)) }
{
    match (a, b) {
        (None, None) => true,
        (Some(a), Some(b)) => same_child(a, b),
        _ => false,
    }
}

#[cycle(comparison)]
fn same_exprs(a: &Exprs, b: &Exprs) -> bool
    ensures same { IsTrue result ↔ (bare_all (of_list a.now) ≡ bare_all (of_list b.now)) }
{
    let (xs, ys) = (a.as_slice(), b.as_slice());
    if xs.len() != ys.len() {
        return false;
    }
    for i in 0..xs.len() {
        if !same_expr(&xs[i], &ys[i]) {
            return false;
        }
    }
    true
}

#[cycle(comparison)]
fn same_branch(a: &Branch, b: &Branch) -> bool
    ensures same { IsTrue result ↔ (bare_twig (twig a.now) ≡ bare_twig (twig b.now)) }
{
    same_name(&a.name, &b.name)
        && same_type(&a.declared, &b.declared)
        && same_child(&a.body, &b.body)
}

#[cycle(comparison)]
fn same_branches(a: &Branches, b: &Branches) -> bool
    ensures same { IsTrue result ↔ (bare_cases (of_twigs a.now) ≡ bare_cases (of_twigs b.now)) }
{
    let (xs, ys) = (a.as_slice(), b.as_slice());
    if xs.len() != ys.len() {
        return false;
    }
    for i in 0..xs.len() {
        if !same_branch(&xs[i], &ys[i]) {
            return false;
        }
    }
    true
}
