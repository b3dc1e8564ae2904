//! The ways in which a session ends, and the failures that interrupt it.

ghost use Rattle.std.specs.Prelude.{◌≡◌};
ghost use Rattle.cool_session.specs.declared.ending.Interruption.TheVariants as interruption;

use std::alloc::{AllocError, AllocFailed};

/// The end of a session. A number is that of the command at which it ended, the first being 1.
#[derive(Clone, Copy)]
pub enum Ending {
    /// The command `quit`, or the end of the input before a line's first byte.
    Over,
    /// A line is in no form, has more than 300 bytes or no newline, or is `check` while no file is held.
    BadCommand(u64),
    /// The input ended before all bytes of a file were taken.
    EndsInFile(u64),
    /// A file would make more than 64 files, or more than 1,048,576 bytes.
    TooLarge(u64),
}

/// An event that cuts a session short.
#[derive(Clone, Copy)]
pub enum Interruption {
    /// A take failed.
    ReadFault,
    /// A put failed.
    WriteFault,
    /// Out of memory.
    Memory,
}

impl From<AllocError> for Interruption {
    ghost from_gives = { λ _ e. e ≡ interruption.Memory };

    fn from(_error: AllocError) -> Interruption {
        Interruption::Memory
    }
}

impl<T: Drop> From<AllocFailed<T>> for Interruption {
    ghost from_gives = { λ _ e. e ≡ interruption.Memory };

    fn from(_error: AllocFailed<T>) -> Interruption {
        Interruption::Memory
    }
}
