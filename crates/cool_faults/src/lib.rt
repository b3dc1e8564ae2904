//! The front end decides whether source files are a valid Cool program, and if not, which compile-time errors they have at which source locations.
//!
//! Input: the bytes of source files. Output: the program, or the faults of the first phase that finds any, and their lines. `specs/Verdicts.antt` and
//! `specs/Texts.antt` define them, and `specs/Phases.antt` the findings of each phase.
#![tactic(auto)]

mod acceptance;
mod classes;
mod fault;
mod findings;
mod laws;
mod lexing;
mod parsing;
mod shown_bytes;
mod text;
mod typing;
mod untyped_files;

pub use acceptance::accept;
pub use fault::{ClassVerdict, Fault, Refusal, Untyped, Verdict};
pub use laws::{
    law_accepted_exactly, law_never_both, law_never_both_untyped, law_one_list, law_one_program,
    law_one_verdict_at_least, law_rows,
};
pub use lexing::lex_files;
pub use shown_bytes::shown;
pub use text::{fault_text, fault_words};
pub use typing::of_typing;
pub use untyped_files::class_phase;
