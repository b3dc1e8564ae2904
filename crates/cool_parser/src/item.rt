//! The entries of the parser's stack: operators and constructs whose first tokens have been read, and which wait for an expression.

ghost use Rattle.std.specs.Prelude.{◌≡◌, IfOk};
ghost use Rattle.std.specs.Option.{is_some};
ghost use Rattle.cool_syntax.specs.declared.file_tree.Feature.TheVariants as feature;
ghost use Rattle.cool_syntax.specs.declared.node.NodeId.{NodeId};
ghost use Rattle.cool_parser.specs.ParsingMachine as machine;

use crate::boxed::Boxed;
use crate::operator::{Infix, Prefix};
use cool_syntax::{
    AttributeDef, Body, Feature, Formal, Listed, Name, Node, NodeBranch, NodeId, Place, TypeRef,
};
use std::alloc::AllocError;

/// A name and its declared type: a formal, an attribute, or a variable of a `let` or of a branch.
#[derive(Drop)]
pub(crate) struct Variable {
    pub(crate) name: Name,
    pub(crate) at: Place,
    pub(crate) declared: TypeRef,
}

/// A class up to its features so far.
#[derive(Drop)]
pub(crate) struct OpenClass {
    pub(crate) name: Name,
    pub(crate) at: Place,
    pub(crate) parent: Option<TypeRef>,
    pub(crate) features: Listed<Feature>,
}

/// A method up to its formals so far.
#[derive(Drop)]
pub(crate) struct OpenMethod {
    pub(crate) class: Boxed<OpenClass>,
    pub(crate) name: Name,
    pub(crate) at: Place,
    pub(crate) formals: Listed<Formal>,
}

/// A dispatch up to its arguments; `class` is there where it is static.
#[derive(Drop)]
pub(crate) struct Call {
    pub(crate) at: Place,
    pub(crate) receiver: NodeId,
    pub(crate) class: Option<TypeRef>,
    pub(crate) name: Name,
}

/// A `case` up to its branches so far.
#[derive(Drop)]
pub(crate) struct OpenCase {
    pub(crate) at: Place,
    pub(crate) value: NodeId,
    pub(crate) branches: Listed<NodeBranch>,
}

/// A form that waits for an expression. The first four are operators: they end where an operator of a lower level, or a
/// token that ends an operand, comes after their own. The others end by a token of their own.
#[derive(Drop)]
pub(crate) enum Item {
    /// `left op ..`
    Left {
        at: Place,
        op: Infix,
        left: NodeId,
    },
    /// `op ..`
    Front {
        at: Place,
        op: Prefix,
    },
    /// `name <- ..`
    Assigning {
        at: Place,
        name: Name,
    },
    /// `let variable <- init in ..`, and `let variable <- init, .. in ..`
    Bound {
        variable: Variable,
        init: Option<NodeId>,
    },
    /// `( .. )`
    Parenthesis,
    /// `receiver.name(args, ..`
    Arguments {
        call: Call,
        args: Listed<NodeId>,
    },
    /// `if .. then`
    IfTest {
        at: Place,
    },
    /// `if test then .. else`
    IfYes {
        at: Place,
        test: NodeId,
    },
    /// `if test then yes else .. fi`
    IfNo {
        at: Place,
        test: NodeId,
        yes: NodeId,
    },
    /// `while .. loop`
    WhileTest {
        at: Place,
    },
    /// `while test loop .. pool`
    WhileBody {
        at: Place,
        test: NodeId,
    },
    /// `{ items; ..;`
    Block {
        at: Place,
        items: Listed<NodeId>,
    },
    /// `let variable <- ..`
    Init {
        variable: Variable,
    },
    /// `case .. of`
    CaseValue {
        at: Place,
    },
    /// `case value of branches; variable => ..;`
    BranchBody {
        case: OpenCase,
        variable: Variable,
    },
    /// `name(formals) : result { .. }`
    MethodBody {
        method: OpenMethod,
        result: TypeRef,
    },
    /// `variable <- ..;`
    AttributeInit {
        class: Boxed<OpenClass>,
        variable: Variable,
    },
}

impl Variable {
    /// The attribute of this name and type, with this value.
    pub(crate) fn attribute(self, init: Option<Body>) -> Feature
        ensures { result ≡ feature.Attribute (record { name = self.name; at = self.at; declared = self.declared; init = init }) }
    {
        Feature::Attribute(AttributeDef {
            name: self.name,
            at: self.at,
            declared: self.declared,
            init,
        })
    }
}

impl Call {
    /// The dispatch with these arguments.
    pub(crate) fn node(self, args: Listed<NodeId>) -> Node
        ensures { result ≡ machine.dispatch self args }
    {
        let Call {
            at,
            receiver,
            class,
            name,
        } = self;
        match class {
            Some(class) => Node::StaticDispatch {
                at,
                receiver,
                class,
                name,
                args,
            },
            None => Node::Dispatch {
                at,
                receiver,
                name,
                args,
            },
        }
    }
}

impl Boxed<OpenClass> {
    /// With one more feature. Returns `Err` only if memory runs out; then the class and the feature are dropped.
    pub(crate) fn with_feature(mut self, feature: Feature) -> Result<Boxed<OpenClass>, AllocError>
        ensures { IfOk result (λ boxed. boxed ≡ machine.with_feature feature self) }
    {
        self.inner.features.push(feature)?;
        Ok(self)
    }
}

impl OpenCase {
    /// With one more branch. Returns `Err` only if memory runs out.
    pub(crate) fn with_branch(
        mut self,
        variable: Variable,
        body: NodeId,
    ) -> Result<OpenCase, AllocError>
        ensures { IfOk result (λ case. case ≡ machine.with_branch self variable body) }
    {
        self.branches.push(NodeBranch {
            at: variable.at,
            name: variable.name,
            declared: variable.declared,
            body,
        })?;
        Ok(self)
    }
}

impl Item {
    /// Whether it is an operator of at least this level.
    pub(crate) fn ends_at(&self, level: u8) -> bool
        ensures { (operand : NodeId) → result ≡ is_some (machine.ended level self.now operand) }
    {
        match self {
            Item::Left { op, .. } => op.level() >= level,
            Item::Front { op, .. } => op.level() >= level,
            Item::Assigning { .. } => level <= 1,
            Item::Bound { .. } => level == 0,
            _ => false,
        }
    }

    /// The node that an operator makes of its operand, or `None` where it is none.
    pub(crate) fn node(self, operand: NodeId) -> Option<Node>
        ensures { result ≡ machine.ended 0 self operand }
    {
        match self {
            Item::Left { at, op, left } => Some(op.node(at, left, operand)),
            Item::Front { at, op } => Some(op.node(at, operand)),
            Item::Assigning { at, name } => Some(Node::Assign {
                at,
                name,
                value: operand,
            }),
            Item::Bound { variable, init } => Some(Node::Let {
                at: variable.at,
                name: variable.name,
                declared: variable.declared,
                init,
                body: operand,
            }),
            _ => None,
        }
    }
}
