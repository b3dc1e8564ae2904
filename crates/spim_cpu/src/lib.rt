//! The processor of the simulator, an integer R2000 (MIPS).
//!
//! Input: the memory of an image (an executable program). Output: the state after each instruction, or why it stops. This crate implements `Machine.antt` of
//! `mips_isa`.
#![tactic(auto)]

mod arithmetic;
mod breaks;
mod cpu;
mod step;

pub use breaks::{Breaks, NoBreaks, contains};
pub use cpu::{Cpu, word_index};
pub use step::Step;
