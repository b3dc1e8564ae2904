//! The mode of the parser: which tokens it has just read, and so which tokens may come next.

use crate::boxed::Boxed;
use crate::item::{Call, OpenCase, OpenClass, OpenMethod, Variable};
use cool_syntax::{Listed, Name, NodeId, Place, TypeRef};

/// The use of a name and its declared type.
#[derive(Drop)]
pub(crate) enum Purpose {
    Attribute(Boxed<OpenClass>),
    Formal(OpenMethod),
    Let,
    Branch(OpenCase),
}

/// The tokens that the parser has just read. `..` in the forms below stands for those that may come next.
#[derive(Drop)]
pub(crate) enum Mode {
    /// Between classes: `class ..`, or the end of the file.
    File,
    /// `class ..`
    ClassName,
    /// `class name ..`
    ClassHead {
        name: Name,
        at: Place,
    },
    /// `class name inherits ..`
    ParentName {
        name: Name,
        at: Place,
    },
    /// `class name inherits parent ..`
    ClassBrace {
        name: Name,
        at: Place,
        parent: TypeRef,
    },
    /// `class name { features ..`
    Features {
        class: Boxed<OpenClass>,
    },
    /// `class name { features } ..`
    ClassEnd {
        class: Boxed<OpenClass>,
    },
    /// `name ..`, of a feature
    FeatureName {
        class: Boxed<OpenClass>,
        name: Name,
        at: Place,
    },
    /// `name( ..`
    FirstFormal {
        method: OpenMethod,
    },
    /// `name(formals ..`
    FormalEnd {
        method: OpenMethod,
    },
    /// `name(formals) ..`
    ResultColon {
        method: OpenMethod,
    },
    /// `name(formals) : ..`
    ResultType {
        method: OpenMethod,
    },
    /// `name(formals) : result ..`
    MethodBrace {
        method: OpenMethod,
        result: TypeRef,
    },
    /// `name(formals) : result { body } ..`
    MethodEnd {
        class: Boxed<OpenClass>,
    },
    /// `name : declared ..`, of an attribute
    AttributeEnd {
        class: Boxed<OpenClass>,
        variable: Variable,
    },
    /// `..`, a name and its declared type
    VariableName {
        purpose: Purpose,
    },
    /// `name ..`
    VariableColon {
        purpose: Purpose,
        name: Name,
        at: Place,
    },
    /// `name : ..`
    VariableType {
        purpose: Purpose,
        name: Name,
        at: Place,
    },
    /// `let variable ..`
    LetEnd {
        variable: Variable,
    },
    /// `case value of branches; variable ..`
    BranchArrow {
        case: OpenCase,
        variable: Variable,
    },
    /// `case value of branches; ..`
    NextBranch {
        case: OpenCase,
    },
    /// `{ items; ..`
    NextItem {
        at: Place,
        items: Listed<NodeId>,
    },
    /// `receiver.name( ..`
    FirstArgument {
        call: Call,
    },
    /// An operand is due.
    Need,
    /// An operand that is one identifier so far.
    Identifier {
        name: Name,
        at: Place,
    },
    /// An operand: an atom or a dispatch. Forms open on its left are still on the stack.
    Have {
        operand: NodeId,
    },
    /// `receiver@ ..`
    StaticClass {
        receiver: NodeId,
    },
    /// `receiver@class ..`
    StaticDot {
        receiver: NodeId,
        class: TypeRef,
    },
    /// `receiver. ..`, and `receiver@class. ..`
    MethodName {
        receiver: NodeId,
        class: Option<TypeRef>,
    },
    /// `receiver.name ..`
    CallParenthesis {
        call: Call,
    },
    /// `new ..`
    NewType {
        at: Place,
    },
}
