//! The state of the parser between two tokens, except its mode: the nodes and classes so far, and the stack of unfinished constructs.

ghost use Rattle.std.specs.Prelude.{◌≡◌, ◌-◌, ◌<◌, ◌^◌, length, IfOk, OnOk, Some, None};
ghost use Rattle.cool_syntax.specs.NodeLists.{tree_of, HasPartsBelow, IsPostorder};
ghost use Rattle.cool_parser.specs.ParsingMachine as machine;
ghost use Rattle.cool_parser.specs.ParsingMachine.{Context, moved, next_id};

use crate::item::Item;
use crate::mode::Mode;
use crate::stack::Stack;
use cool_pool::Pool;
use cool_syntax::{Body, ClassDef, Listed, Name, Node, NodeId, Place, TypeRef};
use std::alloc::{AllocError, Global};
use std::marker::Model;

/// The result of a token: a mode, or nothing if it may not stand there.
pub(crate) type Next = Result<Option<Mode>, AllocError>;

/// The state of the parser, except its mode.
#[derive(Drop)]
pub(crate) struct Parser {
    pub(crate) alloc: Global,
    pub(crate) pool: Pool,
    pub(crate) stack: Stack,
    pub(crate) classes: Listed<ClassDef>,
}

impl Model for Parser {
    ghost use Rattle.cool_parser.specs.ParsingMachine.{Context};
    ghost use Rattle.std.specs.Coded.{codes};
    ghost use Rattle.cool_syntax.specs.TreeCode.{tree_code};

    ghost Value = { Context };

    ghost coded = { Prim.hlevel (codes, tree_code) };

    ghost view = { λ p. record { nodes = p.pool.nodes; stack = p.stack; classes = p.classes } };
}

impl Parser {
    /// A parser that has read nothing.
    pub(crate) fn new(alloc: Global) -> Parser
        ensures { result ≡ machine.start.context }
    {
        Parser {
            alloc,
            pool: Pool::new(alloc),
            stack: Stack::new(alloc),
            classes: Listed::new(Vec::new(alloc)),
        }
    }

    /// A copy of a name.
    pub(crate) fn name(&self, name: &Name) -> Result<Name, AllocError>
        ensures { IfOk result (λ copy. copy ≡ name.now) }
    {
        Name::new(self.alloc, name.as_slice())
    }

    /// The type of this name, at a place.
    pub(crate) fn type_ref(&self, name: &Name, at: Place) -> Result<TypeRef, AllocError>
        ensures { IfOk result (λ type. type ≡ record { name = name.now; at = at }) }
    {
        Ok(TypeRef {
            name: self.name(name)?,
            at,
        })
    }

    /// Places a node, and answers its number.
    pub(crate) fn place(&mut self, node: Node) -> Result<NodeId, AllocError>
        requires parts { HasPartsBelow (length self.old.nodes) node }
        requires few { length self.old.nodes < 2 ^ 32 - 2 }
        ensures number { IfOk result (λ id. id ≡ next_id self.old) }
        ensures placed { OnOk result (self.new ≡ machine.place node self.old) }
    {
        match self.pool.place(node) {
            Ok(id) => Ok(id),
            Err((error, _)) => Err(error),
        }
    }

    /// Places a node that is an operand.
    pub(crate) fn operand(&mut self, node: Node) -> Next
        requires parts { HasPartsBelow (length self.old.nodes) node }
        requires few { length self.old.nodes < 2 ^ 32 - 2 }
        ensures same { IfOk result (λ m. moved self.new m ≡ machine.operand node self.old) }
    {
        let operand = self.place(node)?;
        Ok(Some(Mode::Have { operand }))
    }

    /// Puts a form on the stack that waits for an expression.
    pub(crate) fn wait(&mut self, item: Item) -> Next
        ensures same { IfOk result (λ m. moved self.new m ≡ machine.wait item self.old) }
    {
        self.stack.push(item)?;
        Ok(Some(Mode::Need))
    }

    /// The expression of all nodes so far. None is left.
    pub(crate) fn body(&mut self) -> Body
        requires postorder { IsPostorder self.old.nodes }
        ensures body { result ≡ tree_of self.old.nodes }
        ensures emptied { self.new ≡ machine.emptied self.old }
    {
        self.pool.close()
    }
}
