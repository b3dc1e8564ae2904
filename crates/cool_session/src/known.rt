//! Checks of unchanged files: the reply is made from the stored results, and no feature is typed.

ghost use Rattle.std.specs.Prelude.{◌≡◌, IfOk};
ghost use Rattle.cool_session.specs.KeptFaults.{AreFaultsOf, faults_kept};
ghost use Rattle.cool_session.specs.NewFeatures.{runs_seen};

use crate::base::Base;
use crate::fault_list::fault_list;
use crate::reply::Reply;
use std::alloc::{AllocError, Global};

/// The reply to a check of the files of a base. Returns `Err` only if memory runs out.
pub(crate) fn known(alloc: Global, base: &Base) -> Result<Reply, AllocError>
    ensures typed { IfOk result (λ reply. reply.typed ≡ 0) }
    ensures faults { IfOk result (λ reply. AreFaultsOf (faults_kept (runs_seen base.now.untyped) base.now.faults.items) reply.faults.items) }
{
    let faults = fault_list(alloc, base.untyped.lexed.as_slice(), base.faults.as_slice())?;
    Ok(Reply { faults, typed: 0 })
}
