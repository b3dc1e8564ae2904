//! The nodes of a syntax tree that is stored as a list: a node refers to each of its parts by an index into the list.

ghost use Rattle.std.specs.Prelude.{◌≡◌, List};
ghost use Rattle.cool_syntax.specs.Tree.{Tree, place_of};
ghost use Rattle.cool_syntax.specs.NodeLists.{made};

use crate::listed::Listed;
use crate::operator::{ArithOp, CompareOp};
use crate::place::Place;
use crate::text::{Bytes, Name};
use crate::type_ref::TypeRef;

/// The number of a node in its list, from 0.
#[derive(Clone, Copy)]
pub struct NodeId(pub u32);

/// A branch of a `case`: `name : declared => body;`, at the place of its name.
#[derive(Drop)]
pub struct NodeBranch {
    pub at: Place,
    pub name: Name,
    pub declared: TypeRef,
    pub body: NodeId,
}

/// One expression of a list, which names its parts by their numbers. The forms and their places are those of `Expr`.
///
/// In the list of a tree the parts of a node stand before it, in the order in which the variant names them, each with
/// its own parts before it (`nodes` of `specs/NodeLists.antt`).
#[derive(Drop)]
pub enum Node {
    /// `name <- value`
    Assign {
        at: Place,
        name: Name,
        value: NodeId,
    },
    /// `receiver.name(args)`, or `name(args)`
    Dispatch {
        at: Place,
        receiver: NodeId,
        name: Name,
        args: Listed<NodeId>,
    },
    /// `receiver@class.name(args)`
    StaticDispatch {
        at: Place,
        receiver: NodeId,
        class: TypeRef,
        name: Name,
        args: Listed<NodeId>,
    },
    /// `if test then yes else no fi`
    If {
        at: Place,
        test: NodeId,
        yes: NodeId,
        no: NodeId,
    },
    /// `while test loop body pool`
    While {
        at: Place,
        test: NodeId,
        body: NodeId,
    },
    /// `{ item; item; }`
    Block {
        at: Place,
        items: Listed<NodeId>,
    },
    /// `let name : declared <- init in body`
    Let {
        at: Place,
        name: Name,
        declared: TypeRef,
        init: Option<NodeId>,
        body: NodeId,
    },
    /// `case value of branch; branch; esac`
    Case {
        at: Place,
        value: NodeId,
        branches: Listed<NodeBranch>,
    },
    /// `new class`
    New {
        at: Place,
        class: TypeRef,
    },
    /// `isvoid value`
    IsVoid {
        at: Place,
        value: NodeId,
    },
    /// `left + right`, and likewise for the other operators of arithmetic
    Arith {
        at: Place,
        op: ArithOp,
        left: NodeId,
        right: NodeId,
    },
    /// `~value`
    Neg {
        at: Place,
        value: NodeId,
    },
    /// `left < right`, and likewise for the other comparisons
    Compare {
        at: Place,
        op: CompareOp,
        left: NodeId,
        right: NodeId,
    },
    /// `not value`
    Not {
        at: Place,
        value: NodeId,
    },
    /// A variable, or `self`.
    Id {
        at: Place,
        name: Name,
    },
    /// A constant of type Int.
    Int {
        at: Place,
        value: u32,
    },
    /// A constant of type String, by the bytes that it denotes.
    Str {
        at: Place,
        bytes: Bytes,
    },
    /// `true` or `false`.
    Bool {
        at: Place,
        value: bool,
    },
}

impl Node {
    /// The place of the expression's own mark.
    pub fn place(&self) -> Place
        ensures { (ts : List Tree) → result ≡ place_of (made ts self.now) }
    {
        match self {
            Node::Assign { at, .. }
            | Node::Dispatch { at, .. }
            | Node::StaticDispatch { at, .. }
            | Node::If { at, .. }
            | Node::While { at, .. }
            | Node::Block { at, .. }
            | Node::Let { at, .. }
            | Node::Case { at, .. }
            | Node::New { at, .. }
            | Node::IsVoid { at, .. }
            | Node::Arith { at, .. }
            | Node::Neg { at, .. }
            | Node::Compare { at, .. }
            | Node::Not { at, .. }
            | Node::Id { at, .. }
            | Node::Int { at, .. }
            | Node::Str { at, .. }
            | Node::Bool { at, .. } => *at,
        }
    }
}
