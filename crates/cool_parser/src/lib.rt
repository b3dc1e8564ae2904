//! The parser of Cool: from tokens to the tree of a file.
//!
//! Input: the tokens of one file. Output: its classes, or the source location of its first syntax error. `specs/ParsingMachine.antt` defines the parser as a
//! function on lists, to which the code is proved equal.
#![tactic(auto)]

mod boxed;
mod classes;
mod declarations;
mod endings;
mod fault;
mod forms;
mod item;
mod laws;
mod mode;
mod operands;
mod operator;
mod parser;
mod parsing;
mod reading;
mod stack;
mod step;

pub use fault::{ParseError, ParseFault};
pub use laws::{law_always_one, law_never_both, law_one_first_fault, law_one_tree};
pub use parsing::parse;
