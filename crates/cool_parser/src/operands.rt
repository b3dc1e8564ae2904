//! The steps of the parser where an operand may begin: the tokens that may begin an expression, and those that may follow an identifier.

ghost use Rattle.std.specs.Prelude.{◌≡◌, ◌-◌, ◌<◌, ◌^◌, ◌+◌, length, IfOk};
ghost use Rattle.cool_syntax.specs.declared.token.TokenKind.TheVariants as kind;
ghost use Rattle.cool_parser.specs.declared.mode.Mode.TheVariants as mode;
ghost use Rattle.cool_parser.specs.ParsingMachine as machine;
ghost use Rattle.cool_parser.specs.ParsingMachine.{moved};
ghost use Rattle.cool_parser.specs.Waiting.{Good};

use crate::item::{Call, Item, OpenCase};
use crate::mode::{Mode, Purpose};
use crate::operator::Prefix;
use crate::parser::{Next, Parser};
use cool_syntax::{Bytes, Key, Listed, Name, Node, NodeId, Place, Sign, Token, TokenKind, TypeRef};

/// Whether a token is `)`.
fn is_right_parenthesis(kind: &TokenKind) -> bool
    ensures { result ≡ machine.is_right_parenthesis kind.now }
{
    matches!(kind, TokenKind::Sign(Sign::RParen))
}

/// Whether a token is `}`.
fn is_right_brace(kind: &TokenKind) -> bool
    ensures { result ≡ machine.is_right_brace kind.now }
{
    matches!(kind, TokenKind::Sign(Sign::RBrace))
}

impl Parser {
    /// An operand is due.
    pub(crate) fn need(&mut self, token: &Token) -> Next
        requires few { length self.old.nodes < 2 ^ 32 - 2 }
        ensures same { IfOk result (λ m. moved self.new m ≡ machine.need self.old token.now.kind token.now.at) }
    {
        let at = token.at;
        match &token.kind {
            TokenKind::ObjectId(name) => Ok(Some(Mode::Identifier {
                name: self.name(name)?,
                at,
            })),
            TokenKind::Int(value) => self.operand(Node::Int { at, value: *value }),
            TokenKind::Str(bytes) => {
                let bytes = Bytes::new(self.alloc, bytes.as_slice())?;
                self.operand(Node::Str { at, bytes })
            }
            TokenKind::Key(key) => self.need_by_key(*key, at),
            TokenKind::Sign(sign) => self.need_by_sign(*sign, at),
            TokenKind::TypeId(_) => Ok(None),
        }
    }

    /// An operand is due, and a keyword comes.
    fn need_by_key(&mut self, key: Key, at: Place) -> Next
        requires few { length self.old.nodes < 2 ^ 32 - 2 }
        ensures same { IfOk result (λ m. moved self.new m ≡ machine.need self.old (kind.Key key) at) }
    {
        match key {
            Key::True => self.operand(Node::Bool { at, value: true }),
            Key::False => self.operand(Node::Bool { at, value: false }),
            Key::If => self.wait(Item::IfTest { at }),
            Key::While => self.wait(Item::WhileTest { at }),
            Key::Case => self.wait(Item::CaseValue { at }),
            Key::Let => Ok(Some(Mode::VariableName {
                purpose: Purpose::Let,
            })),
            Key::New => Ok(Some(Mode::NewType { at })),
            Key::Not => self.wait(Item::Front {
                at,
                op: Prefix::Not,
            }),
            Key::IsVoid => self.wait(Item::Front {
                at,
                op: Prefix::IsVoid,
            }),
            _ => Ok(None),
        }
    }

    /// An operand is due, and a sign comes.
    fn need_by_sign(&mut self, sign: Sign, at: Place) -> Next
        requires few { length self.old.nodes < 2 ^ 32 - 2 }
        ensures same { IfOk result (λ m. moved self.new m ≡ machine.need self.old (kind.Sign sign) at) }
    {
        match sign {
            Sign::Tilde => self.wait(Item::Front {
                at,
                op: Prefix::Neg,
            }),
            Sign::LParen => self.wait(Item::Parenthesis),
            Sign::LBrace => {
                let items = Listed::new(Vec::new(self.alloc));
                self.wait(Item::Block { at, items })
            }
            _ => Ok(None),
        }
    }

    /// An identifier has been read where an operand was due: it is assigned, called, or the operand.
    pub(crate) fn identifier(&mut self, name: Name, at: Place, token: &Token) -> Next
        requires good { Good self.old (mode.Identifier name at) }
        requires few { length self.old.nodes + length self.old.stack < 2 ^ 32 - 3 }
        ensures same { IfOk result (λ m. moved self.new m ≡ machine.identifier self.old name at token.now.kind token.now.at) }
    {
        match token.kind {
            TokenKind::Sign(Sign::Arrow) => self.wait(Item::Assigning { at, name }),
            TokenKind::Sign(Sign::LParen) => {
                let own = Name::new(self.alloc, b"self")?;
                let receiver = self.place(Node::Id { at, name: own })?;
                Ok(Some(Mode::FirstArgument {
                    call: Call {
                        at,
                        receiver,
                        class: None,
                        name,
                    },
                }))
            }
            _ => {
                let operand = self.place(Node::Id { at, name })?;
                self.have(operand, token)
            }
        }
    }

    /// The opening parenthesis of arguments has been read.
    pub(crate) fn first_argument(&mut self, call: Call, token: &Token) -> Next
        requires good { Good self.old (mode.FirstArgument call) }
        requires few { length self.old.nodes < 2 ^ 32 - 2 }
        ensures same { IfOk result (λ m. moved self.new m ≡ machine.first_argument self.old call token.now.kind token.now.at) }
    {
        let args = Listed::new(Vec::new(self.alloc));
        if is_right_parenthesis(&token.kind) {
            return self.operand(call.node(args));
        }
        self.stack.push(Item::Arguments { call, args })?;
        self.need(token)
    }

    /// A semicolon of a block has been read.
    pub(crate) fn next_item(&mut self, at: Place, items: Listed<NodeId>, token: &Token) -> Next
        requires good { Good self.old (mode.NextItem at items) }
        requires few { length self.old.nodes < 2 ^ 32 - 2 }
        ensures same { IfOk result (λ m. moved self.new m ≡ machine.next_item self.old at items token.now.kind token.now.at) }
    {
        if is_right_brace(&token.kind) {
            return self.operand(Node::Block { at, items });
        }
        self.stack.push(Item::Block { at, items })?;
        self.need(token)
    }

    /// A semicolon of a `case` has been read.
    pub(crate) fn next_branch(&mut self, case: OpenCase, token: &Token) -> Next
        requires good { Good self.old (mode.NextBranch case) }
        requires few { length self.old.nodes < 2 ^ 32 - 2 }
        ensures same { IfOk result (λ m. moved self.new m ≡ machine.next_branch self.old case token.now.kind token.now.at) }
    {
        match &token.kind {
            TokenKind::Key(Key::Esac) => self.operand(Node::Case {
                at: case.at,
                value: case.value,
                branches: case.branches,
            }),
            TokenKind::ObjectId(name) => Ok(Some(Mode::VariableColon {
                purpose: Purpose::Branch(case),
                name: self.name(name)?,
                at: token.at,
            })),
            _ => Ok(None),
        }
    }

    /// The dot of a dispatch has been read.
    pub(crate) fn method_name(
        &mut self,
        receiver: NodeId,
        class: Option<TypeRef>,
        token: &Token,
    ) -> Next
        ensures same { IfOk result (λ m. moved self.new m ≡ machine.method_name self.old receiver class token.now.kind token.now.at) }
    {
        match &token.kind {
            TokenKind::ObjectId(name) => Ok(Some(Mode::CallParenthesis {
                call: Call {
                    at: token.at,
                    receiver,
                    class,
                    name: self.name(name)?,
                },
            })),
            _ => Ok(None),
        }
    }

    /// `receiver@` has been read.
    pub(crate) fn static_class(&mut self, receiver: NodeId, token: &Token) -> Next
        ensures same { IfOk result (λ m. moved self.new m ≡ machine.static_class self.old receiver token.now.kind token.now.at) }
    {
        match &token.kind {
            TokenKind::TypeId(name) => Ok(Some(Mode::StaticDot {
                receiver,
                class: self.type_ref(name, token.at)?,
            })),
            _ => Ok(None),
        }
    }

    /// `new` has been read.
    pub(crate) fn new_type(&mut self, at: Place, token: &Token) -> Next
        requires few { length self.old.nodes < 2 ^ 32 - 2 }
        ensures same { IfOk result (λ m. moved self.new m ≡ machine.new_type self.old at token.now.kind token.now.at) }
    {
        match &token.kind {
            TokenKind::TypeId(name) => {
                let class = self.type_ref(name, token.at)?;
                self.operand(Node::New { at, class })
            }
            _ => Ok(None),
        }
    }

    /// `receiver@class` has been read.
    pub(crate) fn static_dot(&mut self, receiver: NodeId, class: TypeRef, token: &Token) -> Next
        ensures same { IfOk result (λ m. moved self.new m ≡ machine.step self.old (mode.StaticDot receiver class) token.now.kind token.now.at) }
    {
        match token.kind {
            TokenKind::Sign(Sign::Dot) => Ok(Some(Mode::MethodName {
                receiver,
                class: Some(class),
            })),
            _ => Ok(None),
        }
    }

    /// The name of a method that is called has been read.
    pub(crate) fn call_parenthesis(&mut self, call: Call, token: &Token) -> Next
        ensures same { IfOk result (λ m. moved self.new m ≡ machine.step self.old (mode.CallParenthesis call) token.now.kind token.now.at) }
    {
        match token.kind {
            TokenKind::Sign(Sign::LParen) => Ok(Some(Mode::FirstArgument { call })),
            _ => Ok(None),
        }
    }
}
