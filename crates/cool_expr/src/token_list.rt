//! A list of tokens to which a writer of expressions appends.

ghost use Rattle.std.specs.Prelude.{◌≡◌, [], ◌∷◌, ◌++◌, OnOk};
ghost use Rattle.cool_syntax.specs.Readings.{word, symbol, object, type};
ghost use Rattle.cool_syntax.specs.declared.token.TokenKind.TheVariants as kind;

use cool_syntax::{Bytes, Key, Name, Place, Sign, Token, TokenKind, TypeRef};
use std::alloc::{AllocError, Global};
use std::marker::Model;

/// Tokens so far. A contract sees the list of them.
#[derive(Drop)]
pub(crate) struct TokenList {
    alloc: Global,
    tokens: Vec<Token>,
}

impl Model for TokenList {
    ghost use Rattle.std.specs.Prelude.{List};
    ghost use Rattle.cool_syntax.specs.declared.token.Token.{Token};

    ghost Value = { List Token };

    ghost view = { λ l. l.tokens.items };
}

impl TokenList {
    /// No tokens.
    pub(crate) fn new(alloc: Global) -> TokenList
        ensures { result ≡ [] }
    {
        TokenList {
            alloc,
            tokens: Vec::new(alloc),
        }
    }

    /// The tokens. It takes no memory.
    pub(crate) fn into_vec(self) -> Vec<Token>
        ensures { result.items ≡ self }
    {
        let TokenList { tokens, .. } = self;
        tokens
    }

    /// One more token of this kind. Returns `Err` only if memory runs out.
    pub(crate) fn push(&mut self, kind: TokenKind, at: Place) -> Result<(), AllocError>
        ensures { OnOk result (self.new ≡ self.old ++ record { kind = kind; at = at } ∷ []) }
    {
        self.tokens.push(Token { kind, at })?;
        Ok(())
    }

    /// One more keyword.
    pub(crate) fn key(&mut self, key: Key, at: Place) -> Result<(), AllocError>
        ensures { OnOk result (self.new ≡ self.old ++ word key at ∷ []) }
    {
        self.push(TokenKind::Key(key), at)
    }

    /// One more sign.
    pub(crate) fn sign(&mut self, sign: Sign, at: Place) -> Result<(), AllocError>
        ensures { OnOk result (self.new ≡ self.old ++ symbol sign at ∷ []) }
    {
        self.push(TokenKind::Sign(sign), at)
    }

    /// One more object identifier.
    pub(crate) fn object(&mut self, name: &Name, at: Place) -> Result<(), AllocError>
        ensures { OnOk result (self.new ≡ self.old ++ object name.now at ∷ []) }
    {
        self.push(TokenKind::ObjectId(name.copy(self.alloc)?), at)
    }

    /// One more type identifier.
    pub(crate) fn class(&mut self, class: &TypeRef) -> Result<(), AllocError>
        ensures { OnOk result (self.new ≡ self.old ++ type class.now ∷ []) }
    {
        self.class_name(&class.name, class.at)
    }

    /// One more type identifier, of this name.
    pub(crate) fn class_name(&mut self, name: &Name, at: Place) -> Result<(), AllocError>
        ensures { OnOk result (self.new ≡ self.old ++ type (record { name = name.now; at = at }) ∷ []) }
    {
        self.push(TokenKind::TypeId(name.copy(self.alloc)?), at)
    }

    /// One more string constant.
    pub(crate) fn string(&mut self, bytes: &Bytes, at: Place) -> Result<(), AllocError>
        ensures { OnOk result (self.new ≡ self.old ++ record { kind = kind.Str bytes.now; at = at } ∷ []) }
    {
        self.push(TokenKind::Str(bytes.copy(self.alloc)?), at)
    }
}
