//! The semantics of programs without type errors (the Cool manual, sections 8 and 13): values, evaluation, the methods of the basic classes, and counters of
//! the work, the memory and the depth that a run needs.
//!
//! Input: a class table. Output: no code, but the definition that every way of running a program has to meet. `specs/Evaluation.antt` defines each form of
//! expression, and `specs/SourceRun.antt` the run of a program. The functions here are laws.
#![tactic(auto)]

mod laws;

pub use laws::{law_longer, law_sound};
