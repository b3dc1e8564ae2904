//! Types the features that have no stored result.

ghost use Rattle.std.specs.Prelude.{◌≡◌, ◌<◌, ◌^◌, length, IfSome, IfNone, IfOk, OnErr};
ghost use Rattle.std.specs.List.{AllByRecursion};
ghost use Rattle.cool_session.specs.Bases.{views};
ghost use Rattle.cool_session.specs.KeptChecks.{AreKept, HasFewTokens, IsClassified};
ghost use Rattle.cool_session.specs.NewFeatures.{AreNew, calls_after, IsAskedAtMost, IsKeptAt, IsNewAt, IsUsed, kinds_seen};
ghost use Rattle.cool_session.specs.Runs.{bounds_of};

use crate::base::{Base, KeptFault};
use crate::ids::feature_ids;
use crate::runs::{Run, runs, tokens_in};
use crate::same_classes::same_classes;
use crate::same_tokens::same_tokens;
use crate::typed::typed;
use cool_check::Typer;
use cool_classes::ClassTable;
use cool_faults::Untyped;
use cool_syntax::Token;
use std::alloc::{AllocError, Global};

/// The results to store for the features of files, and the number of calls of the typer.
#[derive(Drop)]
pub(crate) struct Renewed {
    pub(crate) faults: Vec<Option<KeptFault>>,
    pub(crate) asked: u64,
}

/// The base, where the classes of its table are those of this one.
pub(crate) fn used<'a>(base: &'a Option<Base>, t: &ClassTable) -> Option<&'a Base>
    ensures { IsUsed base.now result t.now }
{
    match base {
        Some(base) => {
            if same_classes(&base.untyped.classes, t) {
                Some(base)
            } else {
                None
            }
        }
        None => None,
    }
}

/// The features of a base. Returns `Err` only if memory runs out.
fn runs_before(alloc: Global, base: Option<&Base>) -> Result<Vec<Run>, AllocError>
    ensures { IfOk result (λ runs. IfSome base.entry (λ b. runs.items ≡ bounds_of 0 b.now.untyped.lexed.items)) }
{
    match base {
        Some(base) => runs(alloc, base.untyped.lexed.as_slice()),
        None => Ok(Vec::new(alloc)),
    }
}

/// The result stored in a base for the feature at a position, if it has these tokens.
fn kept_at(
    base: Option<&Base>,
    before: &[Run],
    i: usize,
    tokens: &[Token],
) -> Option<Option<KeptFault>>
    requires runs { IfSome base (λ b. before.now ≡ bounds_of 0 b.now.untyped.lexed.items) }
    requires within { IfSome base (λ b. i < length before.now) }
    ensures kept { IfSome result (IsKeptAt base.entry i tokens.now) }
    ensures new { IfNone result (IsNewAt base.entry i tokens.now) }
{
    let base = base?;
    if same_tokens(tokens, tokens_in(base.untyped.lexed.as_slice(), before[i])) {
        Some(base.faults[i])
    } else {
        None
    }
}

/// Asks the typer for the features that are not kept of a base, whose table has the same classes. Returns `Err` only if memory runs out.
pub(crate) fn renew<K: Typer>(
    alloc: Global,
    typer: &mut K,
    base: Option<&Base>,
    now: &Untyped,
) -> Result<Renewed, AllocError>
    requires classified { IsClassified now.now }
    requires few { length now.now.lexed.items < 2 ^ 32 }
    requires short { AllByRecursion HasFewTokens now.now.lexed.items }
    requires classes { IfSome base (λ b. views b.now.untyped.classes ≡ views now.now.classes) }
    ensures kept { IfOk result (λ renewed. AreKept now.now renewed.faults.items) }
    ensures new { IfOk result (λ renewed. AreNew base.entry (kinds_seen now.now) (length (kinds_seen now.now)) renewed.asked) }
    ensures asked { IfOk result (λ renewed. K.calls typer.new ≡ calls_after renewed.asked (K.calls typer.old)) }
    ensures most { OnErr result (IsAskedAtMost base.entry (kinds_seen now.now) (K.calls typer.old) (K.calls typer.new)) }
{
    let before = runs_before(alloc, base)?;
    let runs = runs(alloc, now.lexed.as_slice())?;
    let ids = feature_ids(alloc, &now.classes)?;
    let mut faults = Vec::new(alloc);
    let mut asked = 0;
    for i in 0..ids.len() {
        faults.reserve(1)?;
        let tokens = tokens_in(now.lexed.as_slice(), runs[i]);
        let kept = match kept_at(base, before.as_slice(), i, tokens) {
            Some(kept) => kept,
            None => {
                asked += 1;
                typed(alloc, typer, &now.classes, ids[i], tokens)?
            }
        };
        faults.push(kept).unwrap();
    }
    Ok(Renewed { faults, asked })
}
