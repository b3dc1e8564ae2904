//! Writes an expression as a list of tokens.

ghost use Rattle.std.specs.Prelude.{◌≡◌, ◌<◌, List, ◌++◌, map, IfSome, OnOk};
ghost use Rattle.std.specs.List.{AllByRecursion};
ghost use Rattle.std.specs.Option.{option_map};
ghost use Rattle.cool_syntax.specs.Tree.{Tree, of_list, of_option, of_twigs, tree_size};
ghost use Rattle.cool_syntax.specs.NodeGroups.{IsBinary, IsBinding, IsCall, IsControl, IsLeaf, IsUnary};
ghost use Rattle.cool_syntax.specs.NodeLists.{all_trees, at_id, made, tree_at, twig_at, HasPartsBelow};
ghost use Rattle.cool_syntax.specs.ConcreteTrees.{Arith as OfArith, Compare as OfCompare};
ghost use Rattle.cool_syntax.specs.Readings.{operator_sign};
ghost use Rattle.cool_syntax.specs.WrittenTrees.{is_atom, enclosed, written, written_args, written_items, written_init, written_cases};

use crate::token_list::TokenList;
use cool_syntax::{
    ArithOp, Body, CompareOp, Key, Node, NodeBranch, NodeId, Place, Sign, TokenKind,
};
use std::alloc::AllocError;

/// Writes the expression of this number. Returns `Err` only if memory runs out.
///
/// It calls itself once for each level of the tree, so it takes stack in proportion to the depth.
#[cycle(written)]
pub(crate) fn write_expr(body: &Body, id: NodeId, out: &mut TokenList) -> Result<(), AllocError>
    requires below { id.0 < tree_size body.now }
    ensures { OnOk result (out.new ≡ out.old ++ written (tree_at body.now id)) }
{
    let node = body.node(id);
    match node {
        Node::Dispatch { .. } | Node::StaticDispatch { .. } => write_call(body, id, node, out),
        Node::Let { .. } | Node::Case { .. } => write_binding(body, id, node, out),
        Node::If { .. } | Node::While { .. } | Node::Block { .. } => {
            write_control(body, id, node, out)
        }
        Node::Assign { .. } | Node::IsVoid { .. } | Node::Neg { .. } | Node::Not { .. } => {
            write_unary(body, id, node, out)
        }
        Node::Arith { .. } | Node::Compare { .. } => write_binary(body, id, node, out),
        Node::New { .. }
        | Node::Id { .. }
        | Node::Int { .. }
        | Node::Str { .. }
        | Node::Bool { .. } => write_leaf(node, out),
    }
}

/// Writes a dispatch, whose parts have numbers below this one.
#[cycle(written)]
fn write_call(body: &Body, id: NodeId, node: &Node, out: &mut TokenList) -> Result<(), AllocError>
    requires group { IsCall node.now }
    requires below { id.0 < tree_size body.now }
    requires parts { HasPartsBelow id.0 node.now }
    ensures { OnOk result (out.new ≡ out.old ++ written (made (all_trees body.now) node.now)) }
{
    match node {
        Node::Dispatch {
            at,
            receiver,
            name,
            args,
        } => {
            write_operand(body, *receiver, out)?;
            out.sign(Sign::Dot, *at)?;
            out.object(name, *at)?;
            out.sign(Sign::LParen, *at)?;
            write_args(body, id, *at, args.as_slice(), out)?;
            out.sign(Sign::RParen, *at)
        }
        Node::StaticDispatch {
            at,
            receiver,
            class,
            name,
            args,
        } => {
            write_operand(body, *receiver, out)?;
            out.sign(Sign::At, *at)?;
            out.class(class)?;
            out.sign(Sign::Dot, *at)?;
            out.object(name, *at)?;
            out.sign(Sign::LParen, *at)?;
            write_args(body, id, *at, args.as_slice(), out)?;
            out.sign(Sign::RParen, *at)
        }
        _ => unreachable!(),
    }
}

/// Writes a binding or a case, whose parts have numbers below this one.
#[cycle(written)]
fn write_binding(
    body: &Body,
    id: NodeId,
    node: &Node,
    out: &mut TokenList,
) -> Result<(), AllocError>
    requires group { IsBinding node.now }
    requires below { id.0 < tree_size body.now }
    requires parts { HasPartsBelow id.0 node.now }
    ensures { OnOk result (out.new ≡ out.old ++ written (made (all_trees body.now) node.now)) }
{
    match node {
        Node::Let {
            at,
            name,
            declared,
            init,
            body: within,
        } => {
            out.key(Key::Let, *at)?;
            out.object(name, *at)?;
            out.sign(Sign::Colon, *at)?;
            out.class(declared)?;
            write_init(body, id, *at, *init, out)?;
            out.key(Key::In, *at)?;
            write_operand(body, *within, out)
        }
        Node::Case {
            at,
            value,
            branches,
        } => {
            out.key(Key::Case, *at)?;
            write_expr(body, *value, out)?;
            out.key(Key::Of, *at)?;
            write_branches(body, id, branches.as_slice(), out)?;
            out.key(Key::Esac, *at)
        }
        _ => unreachable!(),
    }
}

/// Writes a condition, a loop or a block, whose parts have numbers below this one.
#[cycle(written)]
fn write_control(
    body: &Body,
    id: NodeId,
    node: &Node,
    out: &mut TokenList,
) -> Result<(), AllocError>
    requires group { IsControl node.now }
    requires below { id.0 < tree_size body.now }
    requires parts { HasPartsBelow id.0 node.now }
    ensures { OnOk result (out.new ≡ out.old ++ written (made (all_trees body.now) node.now)) }
{
    match node {
        Node::If { at, test, yes, no } => {
            out.key(Key::If, *at)?;
            write_expr(body, *test, out)?;
            out.key(Key::Then, *at)?;
            write_expr(body, *yes, out)?;
            out.key(Key::Else, *at)?;
            write_expr(body, *no, out)?;
            out.key(Key::Fi, *at)
        }
        Node::While {
            at,
            test,
            body: again,
        } => {
            out.key(Key::While, *at)?;
            write_expr(body, *test, out)?;
            out.key(Key::Loop, *at)?;
            write_expr(body, *again, out)?;
            out.key(Key::Pool, *at)
        }
        Node::Block { at, items } => {
            out.sign(Sign::LBrace, *at)?;
            write_items(body, id, *at, items.as_slice(), out)?;
            out.sign(Sign::RBrace, *at)
        }
        _ => unreachable!(),
    }
}

/// Writes an assignment or a prefix operator, whose part has a number below this one.
#[cycle(written)]
fn write_unary(body: &Body, id: NodeId, node: &Node, out: &mut TokenList) -> Result<(), AllocError>
    requires group { IsUnary node.now }
    requires below { id.0 < tree_size body.now }
    requires parts { HasPartsBelow id.0 node.now }
    ensures { OnOk result (out.new ≡ out.old ++ written (made (all_trees body.now) node.now)) }
{
    match node {
        Node::Assign { at, name, value } => {
            out.object(name, *at)?;
            out.sign(Sign::Arrow, *at)?;
            write_operand(body, *value, out)
        }
        Node::IsVoid { at, value } => {
            out.key(Key::IsVoid, *at)?;
            write_operand(body, *value, out)
        }
        Node::Neg { at, value } => {
            out.sign(Sign::Tilde, *at)?;
            write_operand(body, *value, out)
        }
        Node::Not { at, value } => {
            out.key(Key::Not, *at)?;
            write_operand(body, *value, out)
        }
        _ => unreachable!(),
    }
}

/// Writes an operator between two operands, which have numbers below this one.
#[cycle(written)]
fn write_binary(body: &Body, id: NodeId, node: &Node, out: &mut TokenList) -> Result<(), AllocError>
    requires group { IsBinary node.now }
    requires below { id.0 < tree_size body.now }
    requires parts { HasPartsBelow id.0 node.now }
    ensures { OnOk result (out.new ≡ out.old ++ written (made (all_trees body.now) node.now)) }
{
    match node {
        Node::Arith {
            at,
            op,
            left,
            right,
        } => {
            write_operand(body, *left, out)?;
            out.sign(arith_sign(*op), *at)?;
            write_operand(body, *right, out)
        }
        Node::Compare {
            at,
            op,
            left,
            right,
        } => {
            write_operand(body, *left, out)?;
            out.sign(compare_sign(*op), *at)?;
            write_operand(body, *right, out)
        }
        _ => unreachable!(),
    }
}

/// Writes an expression without parts.
fn write_leaf(node: &Node, out: &mut TokenList) -> Result<(), AllocError>
    requires group { IsLeaf node.now }
    ensures { (ts : List Tree) → OnOk result (out.new ≡ out.old ++ written (made ts node.now)) }
{
    match node {
        Node::New { at, class } => {
            out.key(Key::New, *at)?;
            out.class(class)
        }
        Node::Id { at, name } => out.object(name, *at),
        Node::Int { at, value } => out.push(TokenKind::Int(*value), *at),
        Node::Str { at, bytes } => out.string(bytes, *at),
        Node::Bool { at, value } => out.key(if *value { Key::True } else { Key::False }, *at),
        _ => unreachable!(),
    }
}

/// Writes arguments, with commas between. They have numbers below this one.
#[cycle(written)]
fn write_args(
    body: &Body,
    end: NodeId,
    at: Place,
    args: &[NodeId],
    out: &mut TokenList,
) -> Result<(), AllocError>
    requires below { end.0 < tree_size body.now }
    requires parts { AllByRecursion (λ arg. arg.0 < end.0) args.now }
    ensures { OnOk result (out.new ≡ out.old ++ written_args at (of_list (map (at_id (all_trees body.now)) args.now))) }
{
    match args {
        [] => Ok(()),
        [first, rest @ ..] => {
            write_expr(body, *first, out)?;
            for arg in rest {
                out.sign(Sign::Comma, at)?;
                write_expr(body, *arg, out)?;
            }
            Ok(())
        }
    }
}

/// Writes the items of a block, each with a semicolon after it. They have numbers below this one.
#[cycle(written)]
fn write_items(
    body: &Body,
    end: NodeId,
    at: Place,
    items: &[NodeId],
    out: &mut TokenList,
) -> Result<(), AllocError>
    requires below { end.0 < tree_size body.now }
    requires parts { AllByRecursion (λ item. item.0 < end.0) items.now }
    ensures { OnOk result (out.new ≡ out.old ++ written_items at (of_list (map (at_id (all_trees body.now)) items.now))) }
{
    for item in items {
        write_expr(body, *item, out)?;
        out.sign(Sign::Semi, at)?;
    }
    Ok(())
}

/// Writes the initial value of a variable, where there is one. It has a number below this one.
#[cycle(written)]
fn write_init(
    body: &Body,
    end: NodeId,
    at: Place,
    init: Option<NodeId>,
    out: &mut TokenList,
) -> Result<(), AllocError>
    requires below { end.0 < tree_size body.now }
    requires part { IfSome init (λ part. part.0 < end.0) }
    ensures { OnOk result (out.new ≡ out.old ++ written_init at (of_option (option_map (at_id (all_trees body.now)) init))) }
{
    match init {
        None => Ok(()),
        Some(value) => {
            out.sign(Sign::Arrow, at)?;
            write_expr(body, value, out)
        }
    }
}

/// Writes the branches of a case. Their bodies have numbers below this one.
#[cycle(written)]
fn write_branches(
    body: &Body,
    end: NodeId,
    branches: &[NodeBranch],
    out: &mut TokenList,
) -> Result<(), AllocError>
    requires below { end.0 < tree_size body.now }
    requires parts { AllByRecursion (λ branch. branch.body.0 < end.0) branches.now }
    ensures { OnOk result (out.new ≡ out.old ++ written_cases (of_twigs (map (twig_at (all_trees body.now)) branches.now))) }
{
    for branch in branches {
        out.object(&branch.name, branch.at)?;
        out.sign(Sign::Colon, branch.at)?;
        out.class(&branch.declared)?;
        out.sign(Sign::FatArrow, branch.at)?;
        write_expr(body, branch.body, out)?;
        out.sign(Sign::Semi, branch.at)?;
    }
    Ok(())
}

/// Writes the expression of this number as an operand: in parentheses, where it is no atom.
#[cycle(written)]
fn write_operand(body: &Body, id: NodeId, out: &mut TokenList) -> Result<(), AllocError>
    requires below { id.0 < tree_size body.now }
    ensures { OnOk result (out.new ≡ out.old ++ enclosed (tree_at body.now id) (written (tree_at body.now id))) }
{
    let node = body.node(id);
    if stands_alone(node) {
        return write_expr(body, id, out);
    }
    let at = node.place();
    out.sign(Sign::LParen, at)?;
    write_expr(body, id, out)?;
    out.sign(Sign::RParen, at)
}

/// Whether the expression of a node is an atom.
fn stands_alone(node: &Node) -> bool
    ensures { (ts : List Tree) → result ≡ is_atom (made ts node.now) }
{
    match node {
        Node::Assign { .. }
        | Node::Dispatch { .. }
        | Node::StaticDispatch { .. }
        | Node::Let { .. }
        | Node::IsVoid { .. }
        | Node::Arith { .. }
        | Node::Neg { .. }
        | Node::Compare { .. }
        | Node::Not { .. } => false,
        _ => true,
    }
}

/// The sign of an operator of arithmetic.
fn arith_sign(op: ArithOp) -> Sign
    ensures { result ≡ operator_sign (OfArith op) }
{
    match op {
        ArithOp::Add => Sign::Plus,
        ArithOp::Sub => Sign::Minus,
        ArithOp::Mul => Sign::Star,
        ArithOp::Div => Sign::Slash,
    }
}

/// The sign of an operator of comparison.
fn compare_sign(op: CompareOp) -> Sign
    ensures { result ≡ operator_sign (OfCompare op) }
{
    match op {
        CompareOp::Less => Sign::Less,
        CompareOp::LessEqual => Sign::LessEqual,
        CompareOp::Equal => Sign::Equal,
    }
}
