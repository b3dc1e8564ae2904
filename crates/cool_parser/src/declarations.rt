//! The steps of the parser for a name with its declared type: formal parameters, attributes, and the variables of `let` and `case`.

ghost use Rattle.std.specs.Prelude.{◌≡◌, IfOk};
ghost use Rattle.cool_parser.specs.declared.item.Item.TheVariants as item;
ghost use Rattle.cool_parser.specs.declared.mode.Mode.TheVariants as mode;
ghost use Rattle.cool_parser.specs.declared.mode.Purpose.TheVariants as purpose;
ghost use Rattle.cool_parser.specs.ParsingMachine as machine;
ghost use Rattle.cool_parser.specs.ParsingMachine.{moved};

use crate::item::{Item, OpenCase, Variable};
use crate::mode::{Mode, Purpose};
use crate::parser::{Next, Parser};
use cool_syntax::{Formal, Key, Name, NodeId, Place, Sign, Token, TokenKind};

impl Parser {
    /// A name is due.
    pub(crate) fn variable_name(&mut self, purpose: Purpose, token: &Token) -> Next
        ensures same { IfOk result (λ m. moved self.new m ≡ machine.variable_name self.old purpose token.now.kind token.now.at) }
    {
        match &token.kind {
            TokenKind::ObjectId(name) => Ok(Some(Mode::VariableColon {
                purpose,
                name: self.name(name)?,
                at: token.at,
            })),
            _ => Ok(None),
        }
    }

    /// A declared type is due.
    pub(crate) fn variable_type(
        &mut self,
        purpose: Purpose,
        name: Name,
        at: Place,
        token: &Token,
    ) -> Next
        ensures same { IfOk result (λ m. moved self.new m ≡ machine.variable_type self.old purpose name at token.now.kind token.now.at) }
    {
        match &token.kind {
            TokenKind::TypeId(spelling) => {
                let declared = self.type_ref(spelling, token.at)?;
                self.declared(purpose, Variable { name, at, declared })
            }
            _ => Ok(None),
        }
    }

    /// A name and its declared type have been read.
    fn declared(&mut self, purpose: Purpose, variable: Variable) -> Next
        ensures same { IfOk result (λ m. moved self.new m ≡ machine.declared self.old purpose variable) }
    {
        match purpose {
            Purpose::Attribute(class) => Ok(Some(Mode::AttributeEnd { class, variable })),
            Purpose::Formal(mut method) => {
                method.formals.push(Formal {
                    name: variable.name,
                    at: variable.at,
                    declared: variable.declared,
                })?;
                Ok(Some(Mode::FormalEnd { method }))
            }
            Purpose::Let => Ok(Some(Mode::LetEnd { variable })),
            Purpose::Branch(case) => Ok(Some(Mode::BranchArrow { case, variable })),
        }
    }

    /// A variable of a `let` has been read.
    pub(crate) fn let_end(&mut self, variable: Variable, token: &Token) -> Next
        ensures same { IfOk result (λ m. moved self.new m ≡ machine.let_end self.old variable token.now.kind token.now.at) }
    {
        match token.kind {
            TokenKind::Sign(Sign::Arrow) => self.wait(Item::Init { variable }),
            TokenKind::Sign(Sign::Comma) => self.next_variable(variable, None),
            TokenKind::Key(Key::In) => self.wait(Item::Bound {
                variable,
                init: None,
            }),
            _ => Ok(None),
        }
    }

    /// A variable of a `let` is bound, and another one follows.
    pub(crate) fn next_variable(&mut self, variable: Variable, init: Option<NodeId>) -> Next
        ensures same { IfOk result (λ m. moved self.new m ≡ machine.go (machine.push (item.Bound variable init) self.old) (mode.VariableName purpose.Let)) }
    {
        self.stack.push(Item::Bound { variable, init })?;
        Ok(Some(Mode::VariableName {
            purpose: Purpose::Let,
        }))
    }

    /// The name of a variable has been read.
    pub(crate) fn variable_colon(
        &mut self,
        purpose: Purpose,
        name: Name,
        at: Place,
        token: &Token,
    ) -> Next
        ensures same { IfOk result (λ m. moved self.new m ≡ machine.step self.old (mode.VariableColon purpose name at) token.now.kind token.now.at) }
    {
        match token.kind {
            TokenKind::Sign(Sign::Colon) => Ok(Some(Mode::VariableType { purpose, name, at })),
            _ => Ok(None),
        }
    }

    /// The variable of a branch has been read.
    pub(crate) fn branch_arrow(&mut self, case: OpenCase, variable: Variable, token: &Token) -> Next
        ensures same { IfOk result (λ m. moved self.new m ≡ machine.step self.old (mode.BranchArrow case variable) token.now.kind token.now.at) }
    {
        match token.kind {
            TokenKind::Sign(Sign::FatArrow) => self.wait(Item::BranchBody { case, variable }),
            _ => Ok(None),
        }
    }
}
