//! Collects the integer and string constants of a program, numbered in the order of first use, and generates the data lines of their objects.
//!
//! Input: the integers and strings of expressions, as they are used. Output: a number for each, and the lines of their
//! objects (`specs/Constants.antt`, `specs/LinesOfConstants.antt`).
#![tactic(auto)]

mod consts;
mod data;

pub use consts::Consts;
