//! The parser's stack of operators and constructs that wait for an expression.

ghost use Rattle.std.specs.Prelude.{◌≡◌, [], ◌∷◌, Some, None, MatchOption, if◌then◌else◌};
ghost use Rattle.std.specs.Result.{is_ok};
ghost use Rattle.cool_parser.specs.Endings.{NoneEnds, Ends};

use crate::item::Item;
use cool_syntax::{Node, NodeId};
use std::alloc::{AllocError, Global};
use std::marker::Model;

/// Items, of which only the last one is at hand. A contract sees them with the last one first.
#[derive(Drop)]
pub(crate) struct Stack {
    items: Vec<Item>,
}

impl Model for Stack {
    ghost use Rattle.std.specs.Prelude.{List, reverse};
    ghost use Rattle.cool_parser.specs.declared.item.Item.{Item};
    ghost use Rattle.std.specs.Coded.{codes};
    ghost use Rattle.cool_syntax.specs.TreeCode.{tree_code};

    ghost Value = { List Item };

    ghost coded = { Prim.hlevel (codes, tree_code) };

    ghost view = { λ s. reverse s.items.items };
}

impl Stack {
    /// The empty stack.
    pub(crate) fn new(alloc: Global) -> Stack
        ensures { result ≡ [] }
    {
        Stack {
            items: Vec::new(alloc),
        }
    }

    /// Puts an item on top. Returns `Err` only if memory runs out; then the stack stays as it is.
    pub(crate) fn push(&mut self, item: Item) -> Result<(), AllocError>
        ensures { self.new ≡ (if is_ok result then item ∷ self.old else self.old) }
    {
        self.items.push(item)?;
        Ok(())
    }

    /// Takes the top away.
    pub(crate) fn pop(&mut self) -> Option<Item>
        ensures { MatchOption result ((self.old ≡ []) × (self.new ≡ [])) (λ item. self.old ≡ item ∷ self.new) }
    {
        self.items.pop()
    }

    /// Takes an operator of at least this level from the top, and answers the node that it makes of its operand. `None` comes where
    /// none is there.
    pub(crate) fn end_operator(&mut self, level: u8, operand: NodeId) -> Option<Node>
        ensures { MatchOption result ((self.new ≡ self.old) × NoneEnds level operand self.old) (Ends level operand self.old self.new) }
    {
        if !self.top()?.ends_at(level) {
            return None;
        }
        self.pop()?.node(operand)
    }

    /// The top.
    pub(crate) fn top(&self) -> Option<&Item>
        ensures { MatchOption result (self.now ≡ []) (λ item. (rest : _) × (self.now ≡ item.now ∷ rest)) }
    {
        self.items.last()
    }
}
