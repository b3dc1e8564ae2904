//! The infix and prefix operators of expressions, and their binding levels.

ghost use Rattle.std.specs.Prelude.{◌≡◌};
ghost use Rattle.cool_parser.specs.Levels.{infix_of, infix_level, left_level, prefix_level};
ghost use Rattle.cool_parser.specs.ParsingMachine as machine;

use cool_syntax::{ArithOp, CompareOp, Node, NodeId, Place, Sign, TokenKind};

/// An operator between two operands.
#[derive(Clone, Copy)]
pub(crate) enum Infix {
    Arith(ArithOp),
    Compare(CompareOp),
}

/// An operator before its operand.
#[derive(Clone, Copy)]
pub(crate) enum Prefix {
    Not,
    IsVoid,
    Neg,
}

impl Infix {
    /// The operator that a token is.
    pub(crate) fn of(kind: &TokenKind) -> Option<Infix>
        ensures { result ≡ infix_of kind.now }
    {
        match kind {
            TokenKind::Sign(Sign::Plus) => Some(Infix::Arith(ArithOp::Add)),
            TokenKind::Sign(Sign::Minus) => Some(Infix::Arith(ArithOp::Sub)),
            TokenKind::Sign(Sign::Star) => Some(Infix::Arith(ArithOp::Mul)),
            TokenKind::Sign(Sign::Slash) => Some(Infix::Arith(ArithOp::Div)),
            TokenKind::Sign(Sign::Less) => Some(Infix::Compare(CompareOp::Less)),
            TokenKind::Sign(Sign::LessEqual) => Some(Infix::Compare(CompareOp::LessEqual)),
            TokenKind::Sign(Sign::Equal) => Some(Infix::Compare(CompareOp::Equal)),
            _ => None,
        }
    }

    /// Its level: the higher, the tighter it binds.
    pub(crate) fn level(self) -> u8
        ensures { result ≡ infix_level self }
    {
        match self {
            Infix::Compare(_) => 3,
            Infix::Arith(ArithOp::Add | ArithOp::Sub) => 4,
            Infix::Arith(ArithOp::Mul | ArithOp::Div) => 5,
        }
    }

    /// The least level of its left operand: arithmetic associates to the left, comparisons do not associate.
    pub(crate) fn left_level(self) -> u8
        ensures { result ≡ left_level self }
    {
        match self {
            Infix::Compare(_) => 4,
            Infix::Arith(_) => self.level(),
        }
    }
}

impl Infix {
    /// Whether it compares.
    pub(crate) fn is_comparison(self) -> bool
        ensures { result ≡ machine.is_comparison self }
    {
        matches!(self, Infix::Compare(_))
    }

    /// Its node.
    pub(crate) fn node(self, at: Place, left: NodeId, right: NodeId) -> Node
        ensures { result ≡ machine.binary self at left right }
    {
        match self {
            Infix::Arith(op) => Node::Arith {
                at,
                op,
                left,
                right,
            },
            Infix::Compare(op) => Node::Compare {
                at,
                op,
                left,
                right,
            },
        }
    }
}

impl Prefix {
    /// Its node.
    pub(crate) fn node(self, at: Place, value: NodeId) -> Node
        ensures { result ≡ machine.before self at value }
    {
        match self {
            Prefix::Not => Node::Not { at, value },
            Prefix::IsVoid => Node::IsVoid { at, value },
            Prefix::Neg => Node::Neg { at, value },
        }
    }

    /// Its level: the higher, the tighter it binds.
    pub(crate) fn level(self) -> u8
        ensures { result ≡ prefix_level self }
    {
        match self {
            Prefix::Not => 2,
            Prefix::IsVoid => 6,
            Prefix::Neg => 7,
        }
    }
}
