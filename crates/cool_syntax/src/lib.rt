//! Types for Cool's source text: source locations, names, string constants, expressions and classes.
//!
//! Input: bytes of source files. Output: small types that contracts see as lists of bytes and as trees. `specs/` defines which texts are programs, and which
//! list of nodes a tree has, apart from any code that reads them.
#![tactic(auto)]

mod body;
mod file_tree;
mod lexical;
mod listed;
mod node;
mod operator;
mod place;
mod text;
mod token;
mod type_ref;

pub use body::Body;
pub use file_tree::{AttributeDef, ClassDef, Feature, FileTree, Formal, MethodDef};
pub use lexical::LexKind;
pub use listed::Listed;
pub use node::{Node, NodeBranch, NodeId};
pub use operator::{ArithOp, CompareOp};
pub use place::Place;
pub use text::{Bytes, Name, same_name};
pub use token::{Key, Sign, Token, TokenKind};
pub use type_ref::TypeRef;

/// The most source files of a command.
pub const MOST_FILES: usize = 64;

/// The most bytes of all source files of a command.
pub const MOST_SOURCE_BYTES: u64 = 1_048_576;

/// The most bytes that a string constant denotes.
pub const MOST_BYTES: usize = 65_535;

/// The most tokens in a run.
pub const MOST_TOKENS: usize = 8_000;
