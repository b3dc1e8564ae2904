//! The arena in which the parser builds the syntax tree of one feature (method or attribute). It is dropped or handed on as a whole.
//!
//! Input: nodes, each after its parts. Output: a body that is their tree, the tree at an index, or one value a node in a column. Memory is reserved ahead, so
//! that later calls cannot run out of it.
#![tactic(auto)]

mod column;
mod pool;

pub use column::Column;
pub use pool::Pool;
