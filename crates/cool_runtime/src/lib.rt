//! The run-time routines of compiled programs in assembly, and the instructions and code pieces from which these routines and the code of expressions are made.
//!
//! Input: the name of a routine, or the contents of an object of data. Output: the lines of assembly. `specs/Routines` defines them, and
//! `specs/Meanings` their effects, wherever they stand in a text.
#![tactic(auto)]

mod catalogue;
mod data;
pub mod draft;
mod lines;
pub mod piece;
mod routine_part;

pub use catalogue::Routine;
pub use data::{
    StringTags, address, bool_object, int_object, label_line, labelled_text, number, object,
    string_object, word_line,
};
pub use lines::{routine, routines};
