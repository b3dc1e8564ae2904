//! Returns the operands of operators and assignments.

ghost use Rattle.std.specs.Prelude.{◌≡◌};
ghost use Rattle.cool_syntax.specs.NodeGroups.{IsBinary, IsUnary};
ghost use Rattle.cool_fold.specs.Forms.{operand, left_operand, right_operand};

use cool_syntax::{Node, NodeId};

/// The part of an assignment, `isvoid`, `~` or `not`.
pub(crate) fn operand(node: &Node) -> NodeId
    requires group { IsUnary node.now }
    ensures { result ≡ operand node.now }
{
    match node {
        Node::Assign { value, .. }
        | Node::IsVoid { value, .. }
        | Node::Neg { value, .. }
        | Node::Not { value, .. } => *value,
        _ => unreachable!(),
    }
}

/// The left part of arithmetic or a comparison.
pub(crate) fn left_operand(node: &Node) -> NodeId
    requires group { IsBinary node.now }
    ensures { result ≡ left_operand node.now }
{
    match node {
        Node::Arith { left, .. } | Node::Compare { left, .. } => *left,
        _ => unreachable!(),
    }
}

/// The right part of arithmetic or a comparison.
pub(crate) fn right_operand(node: &Node) -> NodeId
    requires group { IsBinary node.now }
    ensures { result ≡ right_operand node.now }
{
    match node {
        Node::Arith { right, .. } | Node::Compare { right, .. } => *right,
        _ => unreachable!(),
    }
}
