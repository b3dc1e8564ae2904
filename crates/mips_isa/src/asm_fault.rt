//! The errors of assembly, with the line: why lines cannot be parsed or assembled.

ghost use Rattle.std.specs.Prelude.{◌≡◌};
ghost use Rattle.mips_isa.specs.declared.asm_fault.AsmError.TheVariants.{Memory};

use std::alloc::{AllocError, AllocFailed};

/// The error of a line. The letter and number are the ones that notes print.
#[derive(Clone, Copy)]
pub enum AsmKind {
    /// A word is unknown.
    A1,
    /// An operand is missing, of another kind, or one too many.
    A2,
    /// A number is out of its range.
    A3,
    /// A directive is unknown.
    A4,
    /// A label is defined twice.
    A5,
    /// A label is not defined.
    A6,
    /// A branch is too far, or does not go to text.
    A7,
    /// The statement belongs into the other segment.
    A8,
    /// A segment is too large.
    A9,
}

/// A fault of assembly, and the number of its line, from 1.
#[derive(Clone, Copy)]
pub struct AsmFault {
    pub kind: AsmKind,
    pub line: u32,
}

/// Why no lines were read, or no image was made of them.
#[derive(Clone, Copy)]
pub enum AsmError {
    /// Memory ran out.
    Memory,
    /// A line is at fault.
    Fault(AsmFault),
}

impl From<AllocError> for AsmError {
    ghost from_gives = { λ _ e. e ≡ Memory };

    fn from(_error: AllocError) -> AsmError {
        AsmError::Memory
    }
}

impl<T: Drop> From<AllocFailed<T>> for AsmError {
    ghost from_gives = { λ _ e. e ≡ Memory };

    fn from(_error: AllocFailed<T>) -> AsmError {
        AsmError::Memory
    }
}
