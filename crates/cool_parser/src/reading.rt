//! The parser's state after the tokens read so far, and the function that takes the next token of the file.

ghost use Rattle.std.specs.Prelude.{◌≡◌, ◌≤◌, ◌-◌, ◌+◌, ◌<◌, ◌^◌, length, Some, None, IfOk, IfErr, OnOk, if◌then◌else◌};
ghost use Rattle.cool_syntax.specs.declared.TheConstants.{MOST_SOURCE_BYTES};
ghost use Rattle.cool_syntax.specs.declared.place.Place.{Place};
ghost use Rattle.cool_parser.specs.Answers.{IsOutcome};
ghost use Rattle.cool_parser.specs.ParsingMachine as machine;
ghost use Rattle.cool_parser.specs.ParsingMachine.{start, parsed, finish, Whole, Unexpected};
ghost use Rattle.cool_parser.specs.Waiting.{Good};

use crate::fault::{ParseError, ParseFault};
use crate::mode::Mode;
use crate::parser::Parser;
use cool_syntax::{ClassDef, Key, Listed, Place, Sign, Token, TokenKind};
use std::alloc::{AllocError, Global};
use std::marker::Model;
use std::mem::{forget, replace};

/// A file up to its tokens so far. A contract sees the state of the machine.
#[derive(Drop)]
pub(crate) struct Reading {
    parser: Parser,
    mode: Mode,
}

impl Model for Reading {
    ghost use Rattle.cool_parser.specs.ParsingMachine.{State};
    ghost use Rattle.std.specs.Coded.{codes};
    ghost use Rattle.cool_syntax.specs.TreeCode.{tree_code};

    ghost Value = { State };

    ghost coded = { Prim.hlevel (codes, tree_code) };

    ghost view = { λ r. record { context = r.parser; mode = r.mode } };
}

impl Reading {
    /// A file of which nothing has been read.
    pub(crate) fn new(alloc: Global) -> Reading
        ensures { result ≡ start }
    {
        Reading {
            parser: Parser::new(alloc),
            mode: Mode::File,
        }
    }

    /// Takes one more token, and answers whether it may stand here. Returns `Err` only if memory runs out.
    pub(crate) fn advance(&mut self, token: &Token) -> Result<bool, AllocError>
        requires good { Good self.old.context self.old.mode }
        requires few { length self.old.context.nodes + length self.old.context.stack < 2 ^ 32 - 3 }
        ensures same { IfOk result (λ goes. (if goes then Some self.new else None) ≡ machine.step self.old.context self.old.mode token.now.kind token.now.at) }
    {
        let mode = replace(&mut self.mode, Mode::File);
        match self.parser.take(mode, token)? {
            Some(next) => {
                // The mode that stands here has nothing to be let go.
                forget(replace(&mut self.mode, next));
                Ok(true)
            }
            None => Ok(false),
        }
    }

    /// Takes memory for the nodes of a feature, where one may begin: no tree has more nodes than tokens.
    pub(crate) fn make_room(&mut self, rest: &[Token]) -> Result<(), AllocError>
        requires nodes { length self.old.context.nodes < 2 ^ 31 }
        requires tokens { length rest.now ≤ MOST_SOURCE_BYTES }
        ensures same { self.new ≡ self.old }
    {
        match self.mode {
            Mode::Features { .. } => self.parser.pool.reserve(feature_length(rest)),
            _ => Ok(()),
        }
    }

    /// Takes the tokens of a whole file.
    pub(crate) fn read(&mut self, tokens: &[Token], end: Place) -> Result<(), ParseError>
        requires started { self.old ≡ start }
        requires tokens { length tokens.now ≤ MOST_SOURCE_BYTES }
        ensures whole { OnOk result (parsed tokens.now end ≡ Whole self.new.context.classes) }
        ensures stops { IfErr result (IsOutcome (parsed tokens.now end)) }
    {
        for i in 0..tokens.len() {
            let token = &tokens[i];
            self.make_room(&tokens[i..])?;
            if !self.advance(token)? {
                return Err(ParseError::Fault(ParseFault { at: token.at }));
            }
        }
        if !self.may_end() {
            return Err(ParseError::Fault(ParseFault { at: end }));
        }
        Ok(())
    }

    /// Whether the file may end here: between its classes.
    pub(crate) fn may_end(&self) -> bool
        ensures { (end : Place) → finish self.now.context self.now.mode end ≡ (if result then Whole self.now.context.classes else Unexpected end) }
    {
        matches!(self.mode, Mode::File)
    }

    /// The classes so far.
    pub(crate) fn into_classes(self) -> Listed<ClassDef>
        ensures { result ≡ self.context.classes }
    {
        self.parser.classes
    }
}

/// The number of tokens up to the end of a feature: its semicolon, or a brace that closes the class.
fn feature_length(tokens: &[Token]) -> u32
    requires { length tokens.now ≤ MOST_SOURCE_BYTES }
    ensures { result ≤ length tokens.now }
{
    let mut depth: u32 = 0;
    for i in 0..tokens.len() {
        match tokens[i].kind {
            TokenKind::Sign(Sign::LBrace) | TokenKind::Key(Key::Case) => depth += 1,
            TokenKind::Sign(Sign::RBrace) | TokenKind::Key(Key::Esac) => {
                if depth == 0 {
                    return i as u32;
                }
                depth -= 1;
            }
            TokenKind::Sign(Sign::Semi) => {
                if depth == 0 {
                    return i as u32 + 1;
                }
            }
            _ => {}
        }
    }
    tokens.len() as u32
}
