//! Explanations of compile-time errors: the lexeme at the error, the types that do not fit, and an edit that fixes the error.
//!
//! Input: the bytes of source files. Output: an explanation of each fault of their fault list, in its order, with an edit that was tried and
//! mends it, where one was found. `specs/Edits.antt` defines edits, `specs/Mends.antt` what it is that an edit mends, and
//! `specs/Explanations.antt` what an explanation tells.
#![tactic(auto)]

mod after_fixes;
mod edit;
mod editing;
mod explained;
mod explaining;
mod explanation;
mod fixes;
mod fixing;
mod mended;
mod noticing;
mod range;
mod search;
mod shift;
mod trial;
mod types;
mod values;
mod words;

pub use edit::Edit;
pub use explaining::explain;
pub use explanation::{AfterFixes, Explained, Explanation, Mend, Methods, Notice, Origin, Types};
pub use trial::mends;
