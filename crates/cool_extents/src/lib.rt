//! Extents of expressions: the first and the last token of each.
//!
//! Input: the tokens of a file, and an expression of it. Output: for each of its nodes the places of its first and last token. `specs/Extents.antt`
//! defines them.
#![tactic(auto)]

mod extent;
mod finding;
mod laws;

pub use extent::Extent;
pub use finding::extents;
pub use laws::law_extents_found;
