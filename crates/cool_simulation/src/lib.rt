//! The compiler correctness theorem: the code generated for a program behaves as the semantics of the program says.
//!
//! Input: nothing that runs. Output: laws over the lines of `cool_emit`, the machine of `mips_isa` and the meaning of
//! `cool_meaning`. `specs/Accord.antt` says how a run of the machine accords with the runs of the source, `specs/Theorem.antt` has the
//! theorem.
#![tactic(auto)]

mod laws;

pub use laws::{
    law_always_runs, law_calls_mean, law_folded_means, law_means, law_shown, law_spans_stand,
    law_typed_means,
};
