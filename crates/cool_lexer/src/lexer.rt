//! The function `lex`, which splits the text of a file into tokens.

ghost use Rattle.std.specs.Prelude.{◌≡◌, ℕ, ◌<◌, ◌≤◌, IfOk, IfErr, length, None};
ghost use Rattle.cool_syntax.specs.declared.TheConstants.{MOST_SOURCE_BYTES};
ghost use Rattle.cool_syntax.specs.LexicalStructure.{Lexes, place_at};
ghost use Rattle.cool_syntax.specs.TokenFacts.{AreWithinLimits, AreRising, weights};
ghost use Rattle.cool_lexer.specs.Beginnings.{AreUpTo};
ghost use Rattle.cool_lexer.specs.Errors.{IsFirstFault};

use crate::error::{LexError, LexFault};
use crate::reading::{Reading, read_item};
use crate::run::Run;
use cool_syntax::{Place, Token};
use std::alloc::{AllocError, Global};

/// The tokens of a file, and the place of its end.
#[derive(Drop)]
pub struct Lexed {
    /// The tokens, in the order in which they stand.
    pub tokens: Vec<Token>,
    /// The place after the last byte.
    pub end: Place,
}

/// The tokens of a file up to its first fault, and that fault: all of them where it has none.
#[derive(Drop)]
pub struct Beginning {
    /// The tokens, in the order in which they stand.
    pub tokens: Vec<Token>,
    /// The place after the last item that was read.
    pub end: Place,
    /// The first fault of the file.
    pub fault: Option<LexFault>,
}

/// The tokens of a file (Cool manual, section 10). `file` is its position in the command, from 0; it has at most 1,048,576 bytes.
///
/// `Err(Fault(..))` comes if the file has a fault: it is the first one, and `LexKind` says when each kind, `L1` to `L8`, comes and where it stands.
/// `Err(Memory)` comes only if memory runs out.
pub fn lex(alloc: Global, file: u32, bytes: &[u8]) -> Result<Lexed, LexError>
    requires { length bytes.now ≤ MOST_SOURCE_BYTES }
    // The bytes are good items one after the other, the tokens are its lexemes in order, and no run is too long.
    ensures lexes { IfOk result (λ lexed. Lexes file bytes.now lexed.tokens.items) }
    ensures end { IfOk result (λ lexed. lexed.end ≡ place_at file bytes.now (length bytes.now)) }
    // Identifiers are no keywords, integers and strings keep their limits, and each place is on a line that a file can have.
    ensures limits { (files : ℕ) → file < files → IfOk result (λ lexed. AreWithinLimits files lexed.tokens.items) }
    ensures rising { IfOk result (λ lexed. AreRising file 0 lexed.tokens.items) }
    ensures few { IfOk result (λ lexed. length lexed.tokens.items ≤ length bytes.now) }
    ensures weight { IfOk result (λ lexed. weights lexed.tokens.items ≤ length bytes.now) }
    // A refused file has a fault, the error is the first, and it stands there.
    ensures fault { IfErr result (λ error. IsFirstFault file bytes.now error) }
{
    let Beginning { tokens, end, fault } = lex_to_fault(alloc, file, bytes)?;
    match fault {
        None => Ok(Lexed { tokens, end }),
        Some(fault) => Err(LexError::Fault(fault)),
    }
}

/// The tokens of a file up to its first fault, as `lex` reads them. Returns `Err` only if memory runs out.
pub fn lex_to_fault(alloc: Global, file: u32, bytes: &[u8]) -> Result<Beginning, AllocError>
    requires { length bytes.now ≤ MOST_SOURCE_BYTES }
    // Good items lead up to the first fault, where there is one, and else to the end, and the tokens are their lexemes.
    ensures tokens { IfOk result (λ beginning. AreUpTo file bytes.now beginning.tokens.items beginning.fault) }
    ensures end { IfOk result (λ beginning. beginning.fault ≡ None → beginning.end ≡ place_at file bytes.now (length bytes.now)) }
{
    let mut reading = Reading {
        tokens: Vec::new(alloc),
        run: Run {
            depth: 0,
            length: 0,
        },
        place: Place {
            file,
            line: 1,
            byte: 0,
        },
    };
    let mut at = 0;
    while at < bytes.len() {
        match read_item(alloc, &mut reading, &bytes[at..]) {
            Ok(size) => at += size,
            Err(LexError::Fault(fault)) => {
                return Ok(Beginning {
                    tokens: reading.tokens,
                    end: reading.place,
                    fault: Some(fault),
                });
            }
            Err(LexError::Memory) => return Err(AllocError),
        }
    }
    Ok(Beginning {
        tokens: reading.tokens,
        end: reading.place,
        fault: None,
    })
}
