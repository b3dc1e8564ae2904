//! The frames of the interpreter, each of which waits for the value of a subexpression, and the interpreter's next action.

use crate::part::{Call, Part, Parts, Twigs};
use crate::scene::Scene;
use crate::value::{Object, Value};
use cool_classes::AttributeRef;
use cool_syntax::{ArithOp, CompareOp, Name, Place};
use std::rc::Rc;

/// A frame, which waits for a value.
#[derive(Drop)]
pub(crate) enum Frame<'a> {
    AssignTo {
        scene: Rc<Scene<'a>>,
        name: &'a Name,
    },
    Choose {
        scene: Rc<Scene<'a>>,
        first: Part<'a>,
        second: Part<'a>,
    },
    Turn {
        scene: Rc<Scene<'a>>,
        test: Part<'a>,
        body: Part<'a>,
    },
    Again {
        scene: Rc<Scene<'a>>,
        test: Part<'a>,
        body: Part<'a>,
    },
    Items {
        scene: Rc<Scene<'a>>,
        rest: Parts<'a>,
    },
    Bind {
        scene: Rc<Scene<'a>>,
        name: &'a Name,
        body: Part<'a>,
    },
    Pick {
        scene: Rc<Scene<'a>>,
        at: Place,
        branches: Twigs<'a>,
    },
    Fill {
        object: Object,
        location: usize,
        rest: &'a [AttributeRef],
    },
    Argument {
        scene: Rc<Scene<'a>>,
        given: Vec<Value>,
        rest: Parts<'a>,
        call: Call<'a>,
    },
    Receiver {
        at: Place,
        class: Option<&'a Name>,
        name: &'a Name,
        given: Vec<Value>,
    },
    TestVoid,
    Invert,
    Negate {
        at: Place,
    },
    Operand {
        scene: Rc<Scene<'a>>,
        at: Place,
        op: ArithOp,
        right: Part<'a>,
    },
    Operate {
        at: Place,
        op: ArithOp,
        left: Value,
    },
    Compared {
        scene: Rc<Scene<'a>>,
        op: CompareOp,
        right: Part<'a>,
    },
    CompareTo {
        op: CompareOp,
        left: Value,
    },
}

/// The next action: an expression is begun, a value is returned, or the next initial value of a new object is begun, with the attributes from one on still
/// left.
#[derive(Drop)]
pub(crate) enum Focus<'a> {
    Begin {
        scene: Rc<Scene<'a>>,
        part: Part<'a>,
    },
    Return(Value),
    Start {
        object: Object,
        location: usize,
        rest: &'a [AttributeRef],
    },
}
