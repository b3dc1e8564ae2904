//! An interpreter, which runs programs by the semantics of the source language, without compiling them to machine code.
//!
//! Input: a typed program, a source and a sink. Output: how its run ends. It implements `specs/Ends.antt`, by the run of the program that
//! `cool_meaning` defines. `specs/StackMachine.antt` is a machine with a stack of frames whose steps the code takes; `proofs/StepsMean.antt` shows
//! that they are evaluation.
//!
//! Each step is compiled into the one loop of `run` (`#[inline(always)]`), so that focus, frame and values pass in registers, and only each
//! frame's own parts are written where it waits.
#![tactic(auto)]

mod basic;
mod call;
mod console;
mod control;
mod ending;
mod evaluation;
mod expression;
mod frame;
mod laws;
mod machine;
mod numbers;
mod numeral;
mod object;
mod part;
mod report;
mod scene;
mod step;
mod store;
mod value;

pub use evaluation::{EvalEnd, evaluate};
pub use laws::{law_puts_are_output, law_stopped_within};
