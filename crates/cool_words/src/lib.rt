//! The parser of the command line: from arguments to a plan (a command with its files and limits).
//!
//! Input: the arguments after the program's name. Output: the plan that they ask for, or an error. This crate implements `specs/Plans.antt`.
#![tactic(auto)]

mod command_word;
mod names;
mod numbers;
mod plan;
mod reading;
mod words_error;

pub use command_word::CommandWord;
pub use names::MOST_NAME_BYTES;
pub use plan::{Plan, RunLimits, RunPlan, USUAL_LIMITS};
pub use reading::read_words;
pub use words_error::WordsError;
