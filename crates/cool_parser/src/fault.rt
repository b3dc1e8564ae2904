//! The errors of the parser: a syntax error, or out of memory.

ghost use Rattle.std.specs.Prelude.{◌≡◌};
ghost use Rattle.cool_parser.specs.declared.fault.ParseError.TheVariants as error;

use cool_syntax::Place;
use std::alloc::AllocError;

/// The one kind of syntax fault, S1: a token, or the end of the file, stands where no file can have it.
#[derive(Clone, Copy)]
pub struct ParseFault {
    pub at: Place,
}

/// The reason why there is no tree.
#[derive(Clone, Copy)]
pub enum ParseError {
    /// Out of memory.
    Memory,
    Fault(ParseFault),
}

impl From<AllocError> for ParseError {
    ghost from_gives = { λ _ e. e ≡ error.Memory };

    fn from(_error: AllocError) -> ParseError {
        ParseError::Memory
    }
}
