//! Returns the list of compile-time errors of files, from the stored results of their features.

ghost use Rattle.std.specs.Prelude.{◌≡◌, ◌<◌, ◌^◌, length, map, IfOk};
ghost use Rattle.std.specs.List.{AllByRecursion};
ghost use Rattle.std.specs.List.Sorted.{IsPermutation};
ghost use Rattle.cool_syntax.specs.FaultOrder.{AreInOrder};
ghost use Rattle.cool_check.specs.Faults.{standing_of};
ghost use Rattle.cool_faults.specs.declared.fault.Fault.TheVariants as phase;
ghost use Rattle.cool_session.specs.Bases.{tokens_of};
ghost use Rattle.cool_session.specs.FeatureTokens.{runs_of};
ghost use Rattle.cool_session.specs.KeptChecks.{AreKeptAmong, HasFewTokens};
ghost use Rattle.cool_session.specs.KeptFaults.{AreFaultsOf, faults_kept};

use crate::base::KeptFault;
use crate::runs::{runs, tokens_in};
use cool_check::{TypeFault, in_order};
use cool_faults::{Fault, of_typing};
use cool_lexer::Lexed;
use std::alloc::{AllocError, Global};

/// The typing faults of files, in the order of files, bytes and kinds. Returns `Err` only if memory runs out.
pub(crate) fn fault_list(
    alloc: Global,
    lexed: &[Lexed],
    kept: &[Option<KeptFault>],
) -> Result<Vec<Fault>, AllocError>
    requires few { length lexed.now < 2 ^ 32 }
    requires short { AllByRecursion HasFewTokens lexed.now }
    requires kept { AreKeptAmong lexed.now kept.now }
    ensures { IfOk result (λ faults. AreFaultsOf (faults_kept (runs_of (tokens_of lexed.now)) kept.now) faults.items) }
{
    let faults = in_order(kept_faults(alloc, lexed, kept)?);
    of_typing(alloc, faults.as_slice())
}

/// The faults that are kept, at the present tokens. Returns `Err` only if memory runs out.
fn kept_faults(
    alloc: Global,
    lexed: &[Lexed],
    kept: &[Option<KeptFault>],
) -> Result<Vec<TypeFault>, AllocError>
    requires few { length lexed.now < 2 ^ 32 }
    requires short { AllByRecursion HasFewTokens lexed.now }
    requires kept { AreKeptAmong lexed.now kept.now }
    ensures { IfOk result (λ faults. faults.items ≡ faults_kept (runs_of (tokens_of lexed.now)) kept.now) }
{
    let runs = runs(alloc, lexed)?;
    let mut faults = Vec::new(alloc);
    for i in 0..kept.len() {
        match kept[i] {
            Some(fault) => {
                let tokens = tokens_in(lexed, runs[i]);
                faults.push(TypeFault {
                    kind: fault.kind,
                    rule: fault.rule,
                    at: tokens[fault.token as usize].at,
                    found: fault.found,
                    due: fault.due,
                })?;
            }
            None => {}
        }
    }
    Ok(faults)
}
