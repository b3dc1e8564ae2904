//! The steps of the parser after an operand: the next token reduces operators that wait for the operand, and continues or closes the construct around it.

ghost use Rattle.std.specs.Prelude.{◌≡◌, ◌-◌, ◌<◌, ◌≤◌, ◌^◌, ◌+◌, length, IfOk, OnOk};
ghost use Rattle.cool_parser.specs.declared.mode.Mode.TheVariants as mode;
ghost use Rattle.cool_parser.specs.Levels.{left_level};
ghost use Rattle.cool_parser.specs.ParsingMachine as machine;
ghost use Rattle.cool_parser.specs.ParsingMachine.{moved};
ghost use Rattle.cool_parser.specs.Waiting.{Good};

use crate::item::Item;
use crate::mode::Mode;
use crate::operator::Infix;
use crate::parser::{Next, Parser};
use cool_syntax::{NodeId, Place, Sign, Token, TokenKind};
use std::alloc::AllocError;

impl Parser {
    /// An operand has been read: an atom or a dispatch.
    pub(crate) fn have(&mut self, operand: NodeId, token: &Token) -> Next
        requires good { Good self.old (mode.Have operand) }
        requires few { length self.old.nodes + length self.old.stack < 2 ^ 32 - 2 }
        ensures same { IfOk result (λ m. moved self.new m ≡ machine.have self.old operand token.now.kind token.now.at) }
    {
        match token.kind {
            TokenKind::Sign(Sign::Dot) => Ok(Some(Mode::MethodName {
                receiver: operand,
                class: None,
            })),
            TokenKind::Sign(Sign::At) => Ok(Some(Mode::StaticClass { receiver: operand })),
            _ => match Infix::of(&token.kind) {
                Some(op) => self.shift(op, token.at, operand),
                None => self.close(&token.kind, operand),
            },
        }
    }

    /// Ends the operators of at least this level that wait on the top of the stack, and answers the operand that they make.
    fn reduce(&mut self, level: u8, operand: NodeId) -> Result<NodeId, AllocError>
        requires good { Good self.old (mode.Have operand) }
        requires few { length self.old.nodes + length self.old.stack < 2 ^ 32 - 2 }
        ensures same { IfOk result (λ t. record { nodes = self.new.nodes; stack = self.new.stack; operand = t } ≡ machine.reduce level self.old operand) }
        ensures good { IfOk result (λ t. Good self.new (mode.Have t)) }
        ensures classes { OnOk result (self.new.classes ≡ self.old.classes) }
        ensures fewer { IfOk result (λ t. length self.new.nodes + length self.new.stack ≤ length self.old.nodes + length self.old.stack) }
    {
        let mut operand = operand;
        while let Some(node) = self.stack.end_operator(level, operand) {
            operand = self.place(node)?;
        }
        Ok(operand)
    }

    /// An operator comes: it takes the operand as its left one.
    fn shift(&mut self, op: Infix, at: Place, operand: NodeId) -> Next
        requires good { Good self.old (mode.Have operand) }
        requires few { length self.old.nodes + length self.old.stack < 2 ^ 32 - 2 }
        ensures same { IfOk result (λ m. moved self.new m ≡ machine.shift_on op at self.old (machine.reduce (left_level op) self.old operand)) }
    {
        let left = self.reduce(op.left_level(), operand)?;
        if op.is_comparison() && self.compares() {
            return Ok(None);
        }
        self.wait(Item::Left { at, op, left })
    }

    /// Whether a comparison waits on the top of the stack.
    fn compares(&self) -> bool
        ensures { result ≡ machine.compares self.now.stack }
    {
        match self.stack.top() {
            Some(Item::Left { op, .. }) => op.is_comparison(),
            _ => false,
        }
    }

    /// A token comes that ends an operand.
    fn close(&mut self, kind: &TokenKind, operand: NodeId) -> Next
        requires good { Good self.old (mode.Have operand) }
        requires few { length self.old.nodes + length self.old.stack < 2 ^ 32 - 2 }
        ensures same { IfOk result (λ m. moved self.new m ≡ machine.close_after kind.now self.old (machine.reduce 0 self.old operand)) }
    {
        let operand = self.reduce(0, operand)?;
        match self.stack.pop() {
            Some(item) => self.close_on(kind, item, operand),
            None => Ok(None),
        }
    }

    /// A token comes that ends an operand, and this form is the innermost one that is open.
    fn close_on(&mut self, kind: &TokenKind, item: Item, operand: NodeId) -> Next
        requires good { Good (machine.push item self.old) (mode.Have operand) }
        requires few { length self.old.nodes + length self.old.stack < 2 ^ 32 - 2 }
        ensures same { IfOk result (λ m. moved self.new m ≡ machine.close_on item kind.now self.old operand) }
    {
        match item {
            Item::Parenthesis => self.parenthesis(kind, operand),
            Item::Arguments { call, args } => self.arguments(call, args, kind, operand),
            Item::IfTest { at } => self.if_test(at, kind, operand),
            Item::IfYes { at, test } => self.if_yes(at, test, kind, operand),
            Item::IfNo { at, test, yes } => self.if_no(at, test, yes, kind, operand),
            Item::WhileTest { at } => self.while_test(at, kind, operand),
            Item::WhileBody { at, test } => self.while_body(at, test, kind, operand),
            Item::Block { at, items } => self.block(at, items, kind, operand),
            Item::Init { variable } => self.init(variable, kind, operand),
            Item::CaseValue { at } => self.case_value(at, kind, operand),
            Item::BranchBody { case, variable } => self.branch_body(case, variable, kind, operand),
            Item::MethodBody { method, result } => self.method_body(method, result, kind, operand),
            Item::AttributeInit { class, variable } => {
                self.attribute_init(class, variable, kind, operand)
            }
            Item::Left { .. } | Item::Front { .. } | Item::Assigning { .. } | Item::Bound { .. } =>
                { Ok(None) }
        }
    }
}
