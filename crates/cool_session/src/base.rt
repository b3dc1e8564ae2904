//! The data that a check stores for the next check: the files as read, and the error of each feature, if it has one.

ghost use Rattle.std.specs.Prelude.{◌<◌, ◌^◌, length};
ghost use Rattle.std.specs.List.{AllByRecursion};
ghost use Rattle.std.proofs.Props.{props};
ghost use Rattle.cool_session.specs.KeptChecks.{HasFewTokens, IsBase};

use cool_check::{TypeKind, TypingRule};
use cool_classes::Ty;
use cool_faults::Untyped;

/// A fault of a feature: its kind, the rule that fails, the position of its token among those of the feature, and the types that were found and due.
#[derive(Clone, Copy)]
pub(crate) struct KeptFault {
    pub(crate) kind: TypeKind,
    pub(crate) rule: TypingRule,
    pub(crate) token: u32,
    pub(crate) found: Option<Ty>,
    pub(crate) due: Option<Ty>,
}

/// Files that came to be typed, and the fault of each of their features, where it has one.
#[derive(Drop)]
pub(crate) struct Base {
    pub(crate) untyped: Untyped,
    pub(crate) faults: Vec<Option<KeptFault>>,
    ghost few: { length untyped.lexed.items < 2 ^ 32 },
    ghost short: { AllByRecursion HasFewTokens untyped.lexed.items } by { Prim.hlevel props },
    ghost kept: { ∥ IsBase untyped faults.items ∥₁ },
}
