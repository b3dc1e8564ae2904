//! The lexer of Cool: from the bytes of a source file to its tokens.
//!
//! Input: a file's bytes, at most 1 MiB. Output: its tokens with their source locations, or its first lexical error. This crate implements
//! `LexicalStructure.antt` of `cool_syntax`; `specs/Fronts.antt` defines the results of its scanning functions.
#![tactic(auto)]

mod class;
mod comment;
mod error;
mod front;
mod item;
mod laws;
mod lexer;
mod number;
mod piece;
mod reading;
mod run;
mod sign;
mod span;
mod string;
mod word;

pub use cool_syntax::LexKind;
pub use error::{LexError, LexFault};
pub use item::item_size;
pub use laws::{law_always_one, law_never_both, law_one_cutting, law_one_first_fault};
pub use lexer::{Beginning, Lexed, lex, lex_to_fault};
pub use run::{depth_after, ends_run};
