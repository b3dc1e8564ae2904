//! Expression trees in memory, which are made of the nodes of a pool, copied and compared, and the conversion of syntax trees back to tokens. No command calls
//! these.
//!
//! Input: a pool, an expression, or the tree of a file. Output: an expression, the answer whether two are the same, or the tokens of a file.
#![tactic(auto)]

mod boxed;
mod comparison;
mod copy;
mod expr;
mod parts;
mod token_list;
mod written;
mod written_file;

pub use boxed::boxed_tree;
pub use comparison::same_expr;
pub use copy::copy_expr;
pub use expr::{Branch, Expr};
pub use parts::{Branches, Child, Exprs};
pub use written_file::tokens_of;
