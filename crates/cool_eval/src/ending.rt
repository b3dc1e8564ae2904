//! The reasons why a run ends without a value, and the run-time errors.

ghost use Rattle.std.specs.Prelude.{◌≡◌};

use cool_classes::ClassId;
use cool_ports::Failed;
use cool_syntax::Place;
use std::alloc::AllocError;

/// A run-time error, with the place or the class that its text names (the Cool manual, sections 8.2 and 13).
#[derive(Clone, Copy)]
pub(crate) enum RunError {
    DispatchVoid { at: Place },
    CaseVoid { at: Place },
    NoBranch { at: Place, class: ClassId },
    DivisionByZero { at: Place },
    Overflow { at: Place },
    Substring { at: Place },
    Aborted { class: ClassId },
}

/// Why a run does not go on.
#[derive(Clone, Copy)]
pub(crate) enum Ending {
    /// A run-time error.
    Error(RunError),
    /// No step was left.
    StepLimit,
    /// A take failed.
    ReadFault,
    /// A put failed.
    WriteFault,
    /// Out of memory.
    Memory,
    /// No rule applies. It never comes to a typed program.
    Stuck,
}

impl From<AllocError> for Ending {
    ghost use Rattle.cool_eval.specs.declared.ending.Ending.TheVariants.{Memory};

    ghost from_gives = { λ _ e. e ≡ Memory };

    fn from(_error: AllocError) -> Ending {
        Ending::Memory
    }
}
