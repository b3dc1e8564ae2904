//! The errors of parsing a command line: its arguments are not valid, or memory ran out.

ghost use Rattle.std.specs.Prelude.{◌≡◌};
ghost use Rattle.cool_words.specs.declared.words_error.WordsError.TheVariants.{Memory};

use std::alloc::{AllocError, AllocFailed};

/// Why words are no plan.
#[derive(Clone, Copy)]
pub enum WordsError {
    /// Memory ran out.
    Memory,
    /// The words are no command line.
    Usage,
}

impl From<AllocError> for WordsError {
    ghost from_gives = { λ _ e. e ≡ Memory };

    fn from(_error: AllocError) -> WordsError {
        WordsError::Memory
    }
}

impl<T: Drop> From<AllocFailed<T>> for WordsError {
    ghost from_gives = { λ _ e. e ≡ Memory };

    fn from(_error: AllocFailed<T>) -> WordsError {
        WordsError::Memory
    }
}
