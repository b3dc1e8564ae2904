//! The state of the lexer between two lexemes, and the function that reads the next lexeme, white space or comment.

ghost use Rattle.std.specs.Prelude.{◌≡◌, ◌+◌, ◌<◌, ◌≤◌, ◌^◌, IfOk, IfErr, OnOk, length};
ghost use Rattle.std.specs.List.{count_by};
ghost use Rattle.cool_syntax.specs.declared.TheConstants.{MOST_TOKENS};
ghost use Rattle.cool_lexer.specs.Readings.{is_newline, place_after, Keeps, Refuses, Passes, Stays, Stops};

use crate::error::{LexError, LexFault};
use crate::front::{Front, Scan};
use crate::item::item_at;
use crate::run::Run;
use cool_syntax::{LexKind, MOST_TOKENS, Place, Token};
use std::alloc::Global;

/// The tokens of the items so far, the run that goes on, and the place after them.
#[derive(Drop)]
pub(crate) struct Reading {
    pub(crate) tokens: Vec<Token>,
    pub(crate) run: Run,
    pub(crate) place: Place,
}

/// Reads the item that the rest of the text begins with, and gives its size. Returns `Err` if memory runs out, if the item has a fault, or if a token is
/// one too many for its run (`L8`).
pub(crate) fn read_item(
    alloc: Global,
    reading: &mut Reading,
    rest: &[u8],
) -> Result<usize, LexError>
    requires some { 0 < length rest.now }
    requires deep { reading.old.run.depth + 1 < 2 ^ 32 }
    requires long { reading.old.run.length ≤ MOST_TOKENS }
    requires lines { reading.old.place.line + length rest.now < 2 ^ 32 }
    requires bytes { reading.old.place.byte + length rest.now < 2 ^ 32 }
    ensures passes { IfOk result (λ size. Passes rest.now reading.old reading.new size) }
    ensures stops { IfErr result (λ error. Stops rest.now reading.old error) }
    // A fault leaves the tokens as they are.
    ensures stays { IfErr result (Stays reading.old reading.new) }
{
    // a blank is the most frequent item, and has no newline
    if rest[0] == b' ' {
        reading.place.byte += 1;
        return Ok(1);
    }
    match item_at(alloc, rest)? {
        Front::Item { form, after } => {
            keep(reading, form)?;
            reading.place = place_after(reading.place, &rest[..after + 1]);
            Ok(after + 1)
        }
        Front::Fault { kind, offset } => Err(LexError::Fault(LexFault {
            kind,
            at: place_after(reading.place, &rest[..offset]),
        })),
    }
}

/// Keeps a lexeme as a token at the place so far; white space and comments are dropped. Returns `Err` if memory runs out, or if the token is one too many
/// for its run (`L8`).
fn keep(reading: &mut Reading, form: Scan) -> Result<(), LexError>
    requires deep { reading.old.run.depth + 1 < 2 ^ 32 }
    requires long { reading.old.run.length ≤ MOST_TOKENS }
    ensures keeps { OnOk result (Keeps form reading.old reading.new) }
    ensures refuses { IfErr result (λ error. Refuses form reading.old error) }
    ensures stays { IfErr result (Stays reading.old reading.new) }
{
    if let Scan::Lexeme(kind) = form {
        if reading.run.length as usize == MOST_TOKENS {
            return Err(LexError::Fault(LexFault {
                kind: LexKind::L8,
                at: reading.place,
            }));
        }
        reading.run = reading.run.after(&kind);
        reading.tokens.push(Token {
            kind,
            at: reading.place,
        })?;
    }
    Ok(())
}

/// The place after these bytes, which stand at the given one.
fn place_after(place: Place, passed: &[u8]) -> Place
    requires lines { place.line + length passed.now < 2 ^ 32 }
    requires bytes { place.byte + length passed.now < 2 ^ 32 }
    ensures { result ≡ place_after place passed.now }
{
    Place {
        file: place.file,
        line: place.line + newlines(passed),
        byte: place.byte + passed.len() as u32,
    }
}

/// The number of newlines.
fn newlines(bytes: &[u8]) -> u32
    requires { length bytes.now < 2 ^ 32 }
    ensures count { result ≡ count_by is_newline bytes.now }
    ensures within { result ≤ length bytes.now }
{
    let mut count = 0;
    for byte in bytes {
        if *byte == b'\n' {
            count += 1;
        }
    }
    count
}
