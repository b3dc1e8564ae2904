//! The type of expressions as trees in memory, with one variant for each form of expression.

use crate::parts::{Branches, Child, Exprs};
use cool_syntax::{ArithOp, Bytes, CompareOp, Name, Place, TypeRef};

/// An expression (the Cool manual, section 11). A contract sees its tree, by `tree` of `specs/View.antt`.
///
/// `at` is the place of the expression's own mark: the name of an identifier, of an assigned or bound variable or of a
/// called method; the constant; the word `if`, `while`, `case`, `new`, `isvoid` or `not`; the opening brace of a block;
/// the operator. Parentheses leave no trace. A `let` of several bindings is one `Let` inside another. A dispatch
/// without a receiver has the receiver `Id` of the name `self`, at the method's name.
#[derive(Drop)]
#[cycle(expr)]
pub enum Expr {
    /// `name <- value`
    Assign {
        at: Place,
        name: Name,
        value: Child,
    },
    /// `receiver.name(args)`, or `name(args)`
    Dispatch {
        at: Place,
        receiver: Child,
        name: Name,
        args: Exprs,
    },
    /// `receiver@class.name(args)`
    StaticDispatch {
        at: Place,
        receiver: Child,
        class: TypeRef,
        name: Name,
        args: Exprs,
    },
    /// `if test then yes else no fi`
    If {
        at: Place,
        test: Child,
        yes: Child,
        no: Child,
    },
    /// `while test loop body pool`
    While {
        at: Place,
        test: Child,
        body: Child,
    },
    /// `{ item; item; }`
    Block {
        at: Place,
        items: Exprs,
    },
    /// `let name : declared <- init in body`
    Let {
        at: Place,
        name: Name,
        declared: TypeRef,
        init: Option<Child>,
        body: Child,
    },
    /// `case value of branch; branch; esac`
    Case {
        at: Place,
        value: Child,
        branches: Branches,
    },
    /// `new class`
    New {
        at: Place,
        class: TypeRef,
    },
    /// `isvoid value`
    IsVoid {
        at: Place,
        value: Child,
    },
    /// `left + right`, and likewise for the other operators of arithmetic
    Arith {
        at: Place,
        op: ArithOp,
        left: Child,
        right: Child,
    },
    /// `~value`
    Neg {
        at: Place,
        value: Child,
    },
    /// `left < right`, and likewise for the other comparisons
    Compare {
        at: Place,
        op: CompareOp,
        left: Child,
        right: Child,
    },
    /// `not value`
    Not {
        at: Place,
        value: Child,
    },
    /// A variable, or `self`.
    Id {
        at: Place,
        name: Name,
    },
    /// A constant of type Int.
    Int {
        at: Place,
        value: u32,
    },
    /// A constant of type String, by the bytes that it denotes.
    Str {
        at: Place,
        bytes: Bytes,
    },
    /// `true` or `false`.
    Bool {
        at: Place,
        value: bool,
    },
}

/// A branch of a `case`: `name : declared => body;`, at the place of its name.
#[derive(Drop)]
#[cycle(expr)]
pub struct Branch {
    pub at: Place,
    pub name: Name,
    pub declared: TypeRef,
    pub body: Child,
}
