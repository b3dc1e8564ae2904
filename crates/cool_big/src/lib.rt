//! Large valid Cool programs, generated from a number.
//!
//! Input: a number. Output: the text of the program that `specs/BigPrograms.antt` defines.
#![tactic(auto)]

mod digits;
mod line;
mod program;

pub use program::{MOST_BIG, big_program};
