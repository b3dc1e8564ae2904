//! The errors of the lexer: the first lexical error of a file, or out of memory.

ghost use Rattle.std.specs.Prelude.{◌≡◌};
ghost use Rattle.cool_lexer.specs.declared.error.LexError.TheVariants.{Memory};

use cool_syntax::{LexKind, Place};
use std::alloc::{AllocError, AllocFailed};

/// The first fault of a file, and where it stands.
#[derive(Clone, Copy)]
pub struct LexFault {
    /// The kind, `L1` to `L8`; each kind says which place it has.
    pub kind: LexKind,
    /// The place.
    pub at: Place,
}

/// The reason why a file has no tokens.
#[derive(Clone, Copy)]
pub enum LexError {
    /// Memory ran out.
    Memory,
    /// The text is at fault, `L1` to `L8`.
    Fault(LexFault),
}

impl From<AllocError> for LexError {
    ghost from_gives = { λ _ e. e ≡ Memory };

    fn from(_error: AllocError) -> LexError {
        LexError::Memory
    }
}

impl<T: Drop> From<AllocFailed<T>> for LexError {
    ghost from_gives = { λ _ e. e ≡ Memory };

    fn from(_error: AllocFailed<T>) -> LexError {
        LexError::Memory
    }
}
