//! The simulated machine: a processor with SPIM's system calls, and its runs.
//!
//! Input: an image (an executable program), the sizes of heap and stack, an input stream (source) and an output stream (sink). Output: what the program prints,
//! and how its run ends. This crate implements `Calls.antt` and `Run.antt` of `mips_isa`, by `specs/Ends.antt`.
#![tactic(auto)]

mod halt;
mod input;
mod laws;
mod machine;
mod number;
mod output;

pub use halt::{Halt, Stopped};
pub use laws::{law_possible_inputs, law_puts_are_output, law_two_budgets};
pub use machine::Machine;
