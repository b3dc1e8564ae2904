//! Types a feature, and returns the result to store for it.

ghost use Rattle.std.specs.Prelude.{◌≡◌, ◌<◌, ◌^◌, ◌↔◌, ℕ, length, IfOk, IsTrue, Some};
ghost use Rattle.std.specs.List.{slice_get};
ghost use Rattle.cool_syntax.specs.declared.file_tree.Feature as syntax;
ghost use Rattle.cool_classes.specs.Chains.{features_of};
ghost use Rattle.cool_check.specs.Calls.{called};
ghost use Rattle.cool_check.specs.TypingFaults.{feature_checked};
ghost use Rattle.cool_session.specs.FeatureTokens.{IsFeature};
ghost use Rattle.cool_session.specs.KeptFaults.{IsKeptOf, place_of_token};

use crate::base::KeptFault;
use crate::ids::FeatureId;
use cool_check::{CheckError, Typer};
use cool_classes::ClassTable;
use cool_syntax::{Place, Token};
use std::alloc::{AllocError, Global};

/// Asks the typer for a feature of these tokens, and gives what is to be kept of it. Returns `Err` only if memory runs out.
pub(crate) fn typed<K: Typer>(
    alloc: Global,
    typer: &mut K,
    t: &ClassTable,
    id: FeatureId,
    tokens: &[Token],
) -> Result<Option<KeptFault>, AllocError>
    requires class { id.class.0 < length t.now }
    requires feature { id.index < length (features_of t.now id.class) }
    requires few { length tokens.now < 2 ^ 32 }
    ensures kept { IfOk result (λ kept. (x : syntax.Feature) → slice_get (features_of t.now id.class) id.index ≡ Some x → IsFeature tokens.now x → IsKeptOf tokens.now (feature_checked t.now id.class x) kept) }
    ensures counted { K.calls typer.new ≡ called 1 (K.calls typer.old) }
{
    match typer.type_feature(alloc, t, id.class, id.index) {
        Ok(()) => Ok(None),
        Err(CheckError::Fault(fault)) => Ok(Some(KeptFault {
            kind: fault.kind,
            rule: fault.rule,
            token: position(tokens, fault.at),
            found: fault.found,
            due: fault.due,
        })),
        Err(CheckError::Memory) => Err(AllocError),
    }
}

/// The position of the first token at a place; how many tokens there are, where none is at it.
fn position(tokens: &[Token], at: Place) -> u32
    requires { length tokens.now < 2 ^ 32 }
    ensures within { (k : ℕ) → k < length tokens.now → at ≡ place_of_token tokens.now k → result < length tokens.now }
    ensures found { (k : ℕ) → k < length tokens.now → at ≡ place_of_token tokens.now k → at ≡ place_of_token tokens.now result }
{
    for i in 0..tokens.len() {
        if same_place(tokens[i].at, at) {
            return i as u32;
        }
    }
    tokens.len() as u32
}

fn same_place(a: Place, b: Place) -> bool
    ensures same { IsTrue result ↔ (a ≡ b) }
{
    a == b
}
