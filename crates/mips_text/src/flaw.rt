//! The reason why a line of assembly was not parsed: memory ran out, or a token is wrong.

ghost use Rattle.std.specs.Prelude.{◌≡◌};
ghost use Rattle.mips_text.specs.declared.flaw.Flaw.TheVariants.{Memory};

use mips_isa::AsmKind;
use std::alloc::{AllocError, AllocFailed};

/// Why a line was not read.
#[derive(Clone, Copy)]
pub(crate) enum Flaw {
    /// Memory ran out.
    Memory,
    /// A word is at fault.
    Fault(AsmKind),
}

impl From<AllocError> for Flaw {
    ghost from_gives = { λ _ e. e ≡ Memory };

    fn from(_error: AllocError) -> Flaw {
        Flaw::Memory
    }
}

impl<T: Drop> From<AllocFailed<T>> for Flaw {
    ghost from_gives = { λ _ e. e ≡ Memory };

    fn from(_error: AllocFailed<T>) -> Flaw {
        Flaw::Memory
    }
}
