//! `Findings` collects the results and the errors of a phase of the front end, file by file.

ghost use Rattle.std.specs.Prelude.{◌≡◌, [], MatchResult};
ghost use Rattle.cool_faults.specs.Phases.{AreFaultsOf};

use crate::fault::{Fault, Refusal};
use cool_syntax::Listed;
use std::alloc::Global;

/// The findings of a phase so far: its results for the good inputs, and a fault of each of the others.
#[derive(Drop)]
pub(crate) struct Findings<T> {
    pub(crate) results: Listed<T>,
    pub(crate) faults: Listed<Fault>,
}

impl<T: Drop> Findings<T> {
    /// Nothing. It takes no memory.
    pub(crate) fn new(alloc: Global) -> Findings<T>
        ensures results { result.results ≡ [] }
        ensures faults { result.faults ≡ [] }
    {
        Findings {
            results: Listed::new(Vec::new(alloc)),
            faults: Listed::new(Vec::new(alloc)),
        }
    }

    /// The results, where there are no faults. `Err(Faults(..))` comes where there are some, and holds them.
    pub(crate) fn outcome(self) -> Result<Vec<T>, Refusal>
        ensures { MatchResult result (λ all. (self.faults ≡ []) × (all.items ≡ self.results)) (AreFaultsOf self.faults) }
    {
        let Findings { results, faults } = self;
        if faults.as_slice().is_empty() {
            Ok(results.into_vec())
        } else {
            Err(Refusal::Faults(faults))
        }
    }
}
