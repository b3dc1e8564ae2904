//! The steps of the parser after an operand inside an open construct, such as parentheses, `if` or a call: for each construct, the token that continues or
//! closes it.

ghost use Rattle.std.specs.Prelude.{◌≡◌, ◌-◌, ◌<◌, ◌^◌, length, IfOk};
ghost use Rattle.cool_parser.specs.declared.item.Item.TheVariants as item;
ghost use Rattle.cool_parser.specs.declared.mode.Mode.TheVariants as mode;
ghost use Rattle.cool_parser.specs.ParsingMachine as machine;
ghost use Rattle.cool_parser.specs.ParsingMachine.{moved};
ghost use Rattle.cool_parser.specs.Waiting.{Good};

use crate::boxed::Boxed;
use crate::item::{Call, Item, OpenCase, OpenClass, OpenMethod, Variable};
use crate::mode::{Mode, Purpose};
use crate::parser::{Next, Parser};
use cool_syntax::{Key, Listed, Node, NodeId, Place, Sign, TokenKind, TypeRef};

impl Parser {
    /// `( .. )`
    pub(crate) fn parenthesis(&mut self, kind: &TokenKind, operand: NodeId) -> Next
        ensures same { IfOk result (λ m. moved self.new m ≡ machine.close_on item.Parenthesis kind.now self.old operand) }
    {
        match kind {
            TokenKind::Sign(Sign::RParen) => Ok(Some(Mode::Have { operand })),
            _ => Ok(None),
        }
    }

    /// `receiver.name(args, ..`
    pub(crate) fn arguments(
        &mut self,
        call: Call,
        mut args: Listed<NodeId>,
        kind: &TokenKind,
        operand: NodeId,
    ) -> Next
        requires good { Good (machine.push (item.Arguments call args) self.old) (mode.Have operand) }
        requires few { length self.old.nodes < 2 ^ 32 - 2 }
        ensures same { IfOk result (λ m. moved self.new m ≡ machine.close_on (item.Arguments call args) kind.now self.old operand) }
    {
        match kind {
            TokenKind::Sign(Sign::RParen) => {
                args.push(operand)?;
                self.operand(call.node(args))
            }
            TokenKind::Sign(Sign::Comma) => {
                args.push(operand)?;
                self.wait(Item::Arguments { call, args })
            }
            _ => Ok(None),
        }
    }

    /// `if .. then`
    pub(crate) fn if_test(&mut self, at: Place, kind: &TokenKind, operand: NodeId) -> Next
        ensures same { IfOk result (λ m. moved self.new m ≡ machine.close_on (item.IfTest at) kind.now self.old operand) }
    {
        match kind {
            TokenKind::Key(Key::Then) => self.wait(Item::IfYes { at, test: operand }),
            _ => Ok(None),
        }
    }

    /// `if test then .. else`
    pub(crate) fn if_yes(
        &mut self,
        at: Place,
        test: NodeId,
        kind: &TokenKind,
        operand: NodeId,
    ) -> Next
        ensures same { IfOk result (λ m. moved self.new m ≡ machine.close_on (item.IfYes at test) kind.now self.old operand) }
    {
        match kind {
            TokenKind::Key(Key::Else) => self.wait(Item::IfNo {
                at,
                test,
                yes: operand,
            }),
            _ => Ok(None),
        }
    }

    /// `if test then yes else .. fi`
    pub(crate) fn if_no(
        &mut self,
        at: Place,
        test: NodeId,
        yes: NodeId,
        kind: &TokenKind,
        operand: NodeId,
    ) -> Next
        requires good { Good (machine.push (item.IfNo at test yes) self.old) (mode.Have operand) }
        requires few { length self.old.nodes < 2 ^ 32 - 2 }
        ensures same { IfOk result (λ m. moved self.new m ≡ machine.close_on (item.IfNo at test yes) kind.now self.old operand) }
    {
        match kind {
            TokenKind::Key(Key::Fi) => self.operand(Node::If {
                at,
                test,
                yes,
                no: operand,
            }),
            _ => Ok(None),
        }
    }

    /// `while .. loop`
    pub(crate) fn while_test(&mut self, at: Place, kind: &TokenKind, operand: NodeId) -> Next
        ensures same { IfOk result (λ m. moved self.new m ≡ machine.close_on (item.WhileTest at) kind.now self.old operand) }
    {
        match kind {
            TokenKind::Key(Key::Loop) => self.wait(Item::WhileBody { at, test: operand }),
            _ => Ok(None),
        }
    }

    /// `while test loop .. pool`
    pub(crate) fn while_body(
        &mut self,
        at: Place,
        test: NodeId,
        kind: &TokenKind,
        operand: NodeId,
    ) -> Next
        requires good { Good (machine.push (item.WhileBody at test) self.old) (mode.Have operand) }
        requires few { length self.old.nodes < 2 ^ 32 - 2 }
        ensures same { IfOk result (λ m. moved self.new m ≡ machine.close_on (item.WhileBody at test) kind.now self.old operand) }
    {
        match kind {
            TokenKind::Key(Key::Pool) => self.operand(Node::While {
                at,
                test,
                body: operand,
            }),
            _ => Ok(None),
        }
    }

    /// `{ items; ..;`
    pub(crate) fn block(
        &mut self,
        at: Place,
        mut items: Listed<NodeId>,
        kind: &TokenKind,
        operand: NodeId,
    ) -> Next
        ensures same { IfOk result (λ m. moved self.new m ≡ machine.close_on (item.Block at items) kind.now self.old operand) }
    {
        match kind {
            TokenKind::Sign(Sign::Semi) => {
                items.push(operand)?;
                Ok(Some(Mode::NextItem { at, items }))
            }
            _ => Ok(None),
        }
    }

    /// `let variable <- .. in`, and `let variable <- .., `
    pub(crate) fn init(&mut self, variable: Variable, kind: &TokenKind, operand: NodeId) -> Next
        ensures same { IfOk result (λ m. moved self.new m ≡ machine.close_on (item.Init variable) kind.now self.old operand) }
    {
        match kind {
            TokenKind::Sign(Sign::Comma) => self.next_variable(variable, Some(operand)),
            TokenKind::Key(Key::In) => self.wait(Item::Bound {
                variable,
                init: Some(operand),
            }),
            _ => Ok(None),
        }
    }

    /// `case .. of`
    pub(crate) fn case_value(&mut self, at: Place, kind: &TokenKind, operand: NodeId) -> Next
        ensures same { IfOk result (λ m. moved self.new m ≡ machine.close_on (item.CaseValue at) kind.now self.old operand) }
    {
        match kind {
            TokenKind::Key(Key::Of) => {
                let branches = Listed::new(Vec::new(self.alloc));
                Ok(Some(Mode::VariableName {
                    purpose: Purpose::Branch(OpenCase {
                        at,
                        value: operand,
                        branches,
                    }),
                }))
            }
            _ => Ok(None),
        }
    }

    /// `case value of branches; variable => ..;`
    pub(crate) fn branch_body(
        &mut self,
        case: OpenCase,
        variable: Variable,
        kind: &TokenKind,
        operand: NodeId,
    ) -> Next
        ensures same { IfOk result (λ m. moved self.new m ≡ machine.close_on (item.BranchBody case variable) kind.now self.old operand) }
    {
        match kind {
            TokenKind::Sign(Sign::Semi) => Ok(Some(Mode::NextBranch {
                case: case.with_branch(variable, operand)?,
            })),
            _ => Ok(None),
        }
    }

    /// `name(formals) : returned { .. }`
    pub(crate) fn method_body(
        &mut self,
        method: OpenMethod,
        returned: TypeRef,
        kind: &TokenKind,
        operand: NodeId,
    ) -> Next
        requires good { Good (machine.push (item.MethodBody method returned) self.old) (mode.Have operand) }
        ensures same { IfOk result (λ m. moved self.new m ≡ machine.close_on (item.MethodBody method returned) kind.now self.old operand) }
    {
        match kind {
            TokenKind::Sign(Sign::RBrace) => self.method(method, returned),
            _ => Ok(None),
        }
    }

    /// `variable <- ..;`
    pub(crate) fn attribute_init(
        &mut self,
        class: Boxed<OpenClass>,
        variable: Variable,
        kind: &TokenKind,
        operand: NodeId,
    ) -> Next
        requires good { Good (machine.push (item.AttributeInit class variable) self.old) (mode.Have operand) }
        ensures same { IfOk result (λ m. moved self.new m ≡ machine.close_on (item.AttributeInit class variable) kind.now self.old operand) }
    {
        match kind {
            TokenKind::Sign(Sign::Semi) => self.attribute(class, variable),
            _ => Ok(None),
        }
    }
}
