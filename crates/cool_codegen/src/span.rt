//! The type `Span`, the debug information of the code of one expression: the lines of its code, and the names in scope there.

ghost use Rattle.std.specs.Prelude.{◌≡◌, List};
ghost use Rattle.cool_syntax.specs.NodeLists.{made};
ghost use Rattle.cool_syntax.specs.Tree.{Tree};
ghost use Rattle.cool_codegen.specs.Shown.{form_of};

use crate::variables::Variable;
use cool_rules::Entry;
use cool_syntax::{ArithOp, CompareOp, Node, Place};

/// The form of an expression.
#[derive(Clone, Copy)]
pub enum Form {
    Name,
    Assign,
    Call,
    StaticCall,
    If,
    While,
    Block,
    Let,
    Case,
    New,
    IsVoid,
    Arith(ArithOp),
    Neg,
    Compare(CompareOp),
    Not,
    Integer,
    String,
    Bool,
}

/// The span of an expression's code: the place and the form of the expression, and the number of the first of its lines and of the line behind it among
/// those of its feature. The span also has the number of words that are pushed in the frame where it begins, the number of names in scope there, and the
/// name that was entered last.
#[derive(Clone, Copy)]
pub struct Span<'a> {
    pub at: Place,
    pub form: Form,
    pub from: usize,
    pub to: usize,
    pub depth: u32,
    pub names: usize,
    pub latest: Option<Entry<'a, Variable>>,
}

/// The form of a node.
pub(crate) fn form_of(node: &Node) -> Form
    ensures { (ts : List Tree) → result ≡ form_of (made ts node.now) }
{
    match node {
        Node::Assign { .. } => Form::Assign,
        Node::Dispatch { .. } => Form::Call,
        Node::StaticDispatch { .. } => Form::StaticCall,
        Node::If { .. } => Form::If,
        Node::While { .. } => Form::While,
        Node::Block { .. } => Form::Block,
        Node::Let { .. } => Form::Let,
        Node::Case { .. } => Form::Case,
        Node::New { .. } => Form::New,
        Node::IsVoid { .. } => Form::IsVoid,
        Node::Arith { op, .. } => Form::Arith(*op),
        Node::Neg { .. } => Form::Neg,
        Node::Compare { op, .. } => Form::Compare(*op),
        Node::Not { .. } => Form::Not,
        Node::Id { .. } => Form::Name,
        Node::Int { .. } => Form::Integer,
        Node::Str { .. } => Form::String,
        Node::Bool { .. } => Form::Bool,
    }
}
