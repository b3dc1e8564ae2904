//! `extents` computes the first and the last token of each subexpression, from the nodes of an expression and the tokens of its file.

ghost use Rattle.std.specs.Prelude.{◌≡◌, ◌+◌, ◌-◌, ◌≤◌, ℕ, IfOk, IsTrue, Some, length, drop};
ghost use Rattle.std.specs.List.{slice_get};
ghost use Rattle.cool_syntax.specs.declared.TheConstants.{MOST_SOURCE_BYTES};
ghost use Rattle.cool_syntax.specs.Bare.{nowhere};
ghost use Rattle.cool_syntax.specs.TokenFacts.{AreRising};
ghost use Rattle.cool_extents.specs.FoundExtents.{number_of, token_place, is_kind_lparen, is_kind_rparen, is_kind_let, is_token, opens_before, closes, extent_at, latest, outer_last, outer_first, from, call_last, call_extent, operation_extent, let_first, let_extent, node_extent, found_extents};

use crate::Extent;
use cool_syntax::{Body, Key, Node, NodeId, Place, Sign, Token, TokenKind};
use std::alloc::{AllocError, Global};

const NOWHERE: Place = Place {
    file: 0,
    line: 0,
    byte: 0,
};

/// The extents of the nodes of an expression, in their order, by the tokens of its file. Returns `Err` only if memory runs out.
pub fn extents(alloc: Global, tokens: &[Token], body: &Body) -> Result<Vec<Extent>, AllocError>
    requires rising { (file : ℕ) × AreRising file 0 tokens.now }
    ensures { IfOk result (λ found. found.items ≡ found_extents tokens.now body.now) }
{
    let mut found = Vec::new(alloc);
    for number in 0..body.len() {
        let node = body.node(NodeId(number));
        let extent = node_extent(tokens, found.as_slice(), node);
        found.push(extent)?;
    }
    Ok(found)
}

/// The extent of a node, by the extents of the nodes before it.
fn node_extent(tokens: &[Token], found: &[Extent], node: &Node) -> Extent
    requires rising { (file : ℕ) × AreRising file 0 tokens.now }
    ensures { result ≡ node_extent tokens.now found.now node.now }
{
    match node {
        Node::Assign { at, .. }
        | Node::IsVoid { at, .. }
        | Node::Neg { at, .. }
        | Node::Not { at, .. } => from(tokens, *at, found, 0),
        Node::If { at, .. } | Node::While { at, .. } => from(tokens, *at, found, 1),
        Node::Block { at, .. } | Node::Case { at, .. } => from(tokens, *at, found, 2),
        Node::Dispatch {
            at,
            receiver,
            args,
            ..
        } => call_extent(tokens, *at, found, *receiver, args.as_slice()),
        Node::StaticDispatch {
            at,
            receiver,
            args,
            ..
        } => call_extent(tokens, *at, found, *receiver, args.as_slice()),
        Node::Let { at, .. } => let_extent(tokens, *at, found),
        Node::New { at, class } => Extent {
            first: *at,
            last: class.at,
        },
        Node::Arith { left, .. } => operation_extent(tokens, found, *left),
        Node::Compare { left, .. } => operation_extent(tokens, found, *left),
        Node::Id { at, .. } | Node::Int { at, .. } | Node::Str { at, .. } | Node::Bool { at, .. } =>
            Extent {
                first: *at,
                last: *at,
            },
    }
}

/// The extent of an expression that begins at this place and ends so many tokens behind its last part.
fn from(tokens: &[Token], at: Place, found: &[Extent], more: usize) -> Extent
    requires rising { (file : ℕ) × AreRising file 0 tokens.now }
    requires few { more ≤ 2 }
    ensures { result ≡ from tokens.now at found.now more }
{
    let last = outer_last(tokens, latest(found)) + more;
    Extent {
        first: at,
        last: token_place(tokens, last),
    }
}

/// The extent of a call: from its receiver, or the method's name, to the closing parenthesis.
fn call_extent(
    tokens: &[Token],
    at: Place,
    found: &[Extent],
    receiver: NodeId,
    args: &[NodeId],
) -> Extent
    requires rising { (file : ℕ) × AreRising file 0 tokens.now }
    ensures { result ≡ call_extent tokens.now at found.now receiver args.now }
{
    let first = outer_first(tokens, extent_at(found, receiver.0 as usize));
    let last = call_last(tokens, at, found, args);
    Extent {
        first: token_place(tokens, first),
        last: token_place(tokens, last),
    }
}

/// The number of the last token of a call.
fn call_last(tokens: &[Token], at: Place, found: &[Extent], args: &[NodeId]) -> usize
    requires rising { (file : ℕ) × AreRising file 0 tokens.now }
    ensures { result ≡ call_last tokens.now at found.now args.now }
{
    match args {
        [] => number_of(tokens, at) + 2,
        [_] => outer_last(tokens, latest(found)),
        [_, _, ..] => outer_last(tokens, latest(found)) + 1,
    }
}

/// The extent of an operation on two operands.
fn operation_extent(tokens: &[Token], found: &[Extent], left: NodeId) -> Extent
    requires rising { (file : ℕ) × AreRising file 0 tokens.now }
    ensures { result ≡ operation_extent tokens.now found.now left }
{
    let first = outer_first(tokens, extent_at(found, left.0 as usize));
    let last = outer_last(tokens, latest(found));
    Extent {
        first: token_place(tokens, first),
        last: token_place(tokens, last),
    }
}

/// The extent of a `let` of one variable.
fn let_extent(tokens: &[Token], at: Place, found: &[Extent]) -> Extent
    requires rising { (file : ℕ) × AreRising file 0 tokens.now }
    ensures { result ≡ let_extent tokens.now at found.now }
{
    let last = outer_last(tokens, latest(found));
    Extent {
        first: let_first(tokens, at, number_of(tokens, at)),
        last: token_place(tokens, last),
    }
}

/// The place of the word `let`, if it stands right before the variable at this place, which has this number; else the place of the variable.
fn let_first(tokens: &[Token], at: Place, number: usize) -> Place
    ensures { result ≡ let_first tokens.now at number }
{
    if number > 0 && is_let(tokens, number - 1) {
        token_place(tokens, number - 1)
    } else {
        at
    }
}

/// The number of the last token of an operand, with the parentheses around it.
fn outer_last(tokens: &[Token], operand: Extent) -> usize
    requires rising { (file : ℕ) × AreRising file 0 tokens.now }
    ensures number { result ≡ outer_last tokens.now operand }
    ensures few { result ≤ length tokens.now + length tokens.now }
{
    let opening = opens_before(tokens, number_of(tokens, operand.first));
    number_of(tokens, operand.last) + opening
}

/// The number of the first token of an operand, with the parentheses around it.
fn outer_first(tokens: &[Token], operand: Extent) -> usize
    requires rising { (file : ℕ) × AreRising file 0 tokens.now }
    ensures { result ≡ outer_first tokens.now operand }
{
    let behind = number_of(tokens, operand.last) + 1;
    let closing = match tokens.get(behind..) {
        Some(rest) => closes(rest),
        None => 0,
    };
    number_of(tokens, operand.first).saturating_sub(closing)
}

/// How many opening parentheses stand right before the token of a number.
fn opens_before(tokens: &[Token], number: usize) -> usize
    requires within { number ≤ length tokens.now }
    ensures count { result ≡ opens_before tokens.now number }
    ensures few { result ≤ number }
{
    let mut first = number;
    while first > 0 && is_lparen(tokens, first - 1) {
        first -= 1;
    }
    number - first
}

/// How many closing parentheses tokens begin with.
fn closes(tokens: &[Token]) -> usize
    ensures { result ≡ closes tokens.now }
{
    let mut count = 0;
    for token in tokens {
        if !matches!(token.kind, TokenKind::Sign(Sign::RParen)) {
            break;
        }
        count += 1;
    }
    count
}

/// Whether the token of a number is an opening parenthesis.
fn is_lparen(tokens: &[Token], number: usize) -> bool
    ensures { result ≡ is_token is_kind_lparen (slice_get tokens.now number) }
{
    match tokens.get(number) {
        Some(token) => matches!(token.kind, TokenKind::Sign(Sign::LParen)),
        None => false,
    }
}

/// Whether the token of a number is the word `let`.
fn is_let(tokens: &[Token], number: usize) -> bool
    ensures { result ≡ is_token is_kind_let (slice_get tokens.now number) }
{
    match tokens.get(number) {
        Some(token) => matches!(token.kind, TokenKind::Key(Key::Let)),
        None => false,
    }
}

/// The number of the token at a place: how many tokens stand before it. It searches by halves.
fn number_of(tokens: &[Token], at: Place) -> usize
    requires rising { (file : ℕ) × AreRising file 0 tokens.now }
    ensures number { result ≡ number_of tokens.now at }
    ensures few { result ≤ length tokens.now }
{
    let mut low = 0;
    let mut high = tokens.len();
    while low < high {
        let middle = low + (high - low) / 2;
        if tokens[middle].at.byte < at.byte {
            low = middle + 1;
        } else {
            high = middle;
        }
    }
    low
}

/// The place of the token of a number.
fn token_place(tokens: &[Token], number: usize) -> Place
    ensures { result ≡ token_place tokens.now number }
{
    match tokens.get(number) {
        Some(token) => token.at,
        None => NOWHERE,
    }
}

/// The extent of the node of a number.
fn extent_at(found: &[Extent], number: usize) -> Extent
    ensures { result ≡ extent_at found.now number }
{
    match found.get(number) {
        Some(extent) => *extent,
        None => Extent {
            first: NOWHERE,
            last: NOWHERE,
        },
    }
}

/// The extent of the last node that was found.
fn latest(found: &[Extent]) -> Extent
    ensures { result ≡ latest found.now }
{
    extent_at(found, found.len().saturating_sub(1))
}
