//! Parses the tokens of one feature.

ghost use Rattle.std.specs.Prelude.{◌≡◌, ◌≤◌, ◌+◌, [], ◌∷◌, length, Some, IfOk, IfSome};
ghost use Rattle.cool_syntax.specs.declared.TheConstants.{MOST_SOURCE_BYTES};
ghost use Rattle.cool_syntax.specs.declared.file_tree.ClassDef as syntax_class;
ghost use Rattle.cool_syntax.specs.declared.file_tree.Feature as syntax;
ghost use Rattle.cool_session.specs.FeatureTokens.{ParsesFeature};
ghost use Rattle.cool_session.specs.OneFeature.{HaveOnly, class_of_one};
ghost use Rattle.cool_syntax.specs.Bare.{nowhere};

use cool_parser::{ParseError, parse};
use cool_syntax::{ClassDef, Feature, Key, MOST_SOURCE_BYTES, Name, Place, Sign, Token, TokenKind};
use std::alloc::{AllocError, Global};

/// The feature of these tokens. Returns `None` exactly if they are none, or with the five of a class around them are more than a file may have. Returns
/// `Err` only if memory runs out.
pub(crate) fn one_feature(alloc: Global, tokens: &[Token]) -> Result<Option<Feature>, AllocError>
    ensures found { IfOk result (λ found. IfSome found (ParsesFeature tokens.now)) }
    ensures only { (x : syntax.Feature) → ParsesFeature tokens.now x → length tokens.now + 5 ≤ MOST_SOURCE_BYTES → IfOk result (λ found. found ≡ Some x) }
{
    if tokens.len() as u64 > MOST_SOURCE_BYTES - 5 {
        return Ok(None);
    }
    let class = class_tokens(alloc, tokens)?;
    match parse(alloc, 0, class.as_slice(), nowhere()) {
        Ok(tree) => Ok(only_feature(tree.classes.into_vec())),
        Err(ParseError::Fault(_)) => Ok(None),
        Err(ParseError::Memory) => Err(AllocError),
    }
}

/// A place for tokens that stand in no file.
fn nowhere() -> Place
    ensures { result ≡ nowhere }
{
    Place {
        file: 0,
        line: 0,
        byte: 0,
    }
}

/// The tokens of a class without a name and of one feature of these tokens. Returns `Err` only if memory runs out.
fn class_tokens(alloc: Global, tokens: &[Token]) -> Result<Vec<Token>, AllocError>
    requires { length tokens.now ≤ MOST_SOURCE_BYTES }
    ensures { IfOk result (λ all. all.items ≡ class_of_one tokens.now) }
{
    let mut all = Vec::new(alloc);
    all.push(unplaced(TokenKind::Key(Key::Class)))?;
    all.push(unplaced(TokenKind::TypeId(Name::new(alloc, b"")?)))?;
    all.push(unplaced(TokenKind::Sign(Sign::LBrace)))?;
    for i in 0..tokens.len() {
        all.push(copied(alloc, &tokens[i])?)?;
    }
    all.push(unplaced(TokenKind::Sign(Sign::RBrace)))?;
    all.push(unplaced(TokenKind::Sign(Sign::Semi)))?;
    Ok(all)
}

/// A token that stands in no file.
fn unplaced(kind: TokenKind) -> Token
    ensures kind { result.kind ≡ kind }
    ensures at { result.at ≡ nowhere }
{
    Token {
        kind,
        at: nowhere(),
    }
}

/// A copy of a token. Returns `Err` only if memory runs out.
fn copied(alloc: Global, token: &Token) -> Result<Token, AllocError>
    ensures { IfOk result (λ copy. copy ≡ token.now) }
{
    Ok(Token {
        kind: copied_kind(alloc, &token.kind)?,
        at: token.at,
    })
}

/// A copy of a lexeme. Returns `Err` only if memory runs out.
fn copied_kind(alloc: Global, kind: &TokenKind) -> Result<TokenKind, AllocError>
    ensures { IfOk result (λ copy. copy ≡ kind.now) }
{
    match kind {
        TokenKind::Key(key) => Ok(TokenKind::Key(*key)),
        TokenKind::TypeId(name) => Ok(TokenKind::TypeId(name.copy(alloc)?)),
        TokenKind::ObjectId(name) => Ok(TokenKind::ObjectId(name.copy(alloc)?)),
        TokenKind::Int(number) => Ok(TokenKind::Int(*number)),
        TokenKind::Str(bytes) => Ok(TokenKind::Str(bytes.copy(alloc)?)),
        TokenKind::Sign(sign) => Ok(TokenKind::Sign(*sign)),
    }
}

/// The one feature of the one class, where there is one class and it has one feature.
fn only_feature(classes: Vec<ClassDef>) -> Option<Feature>
    ensures found { IfSome result (HaveOnly classes.items) }
    ensures only { (d : syntax_class.ClassDef) (x : syntax.Feature) → classes.items ≡ d ∷ [] → d.features ≡ x ∷ [] → result ≡ Some x }
{
    let class = only(classes)?;
    only(class.features.into_vec())
}

/// The item of a list that has just one.
fn only<T: Drop>(mut items: Vec<T>) -> Option<T>
    ensures found { IfSome result (λ item. items.items ≡ item ∷ []) }
    ensures only { (item : T) → items.items ≡ item ∷ [] → result ≡ Some item }
{
    let item = items.pop()?;
    if items.is_empty() { Some(item) } else { None }
}
