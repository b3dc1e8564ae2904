//! The type checker of Cool (the Cool manual, section 12).
//!
//! Input: a class table. Output: the program if each feature is well typed, or else the first fault of each feature that is not. `TypeKind` says when each
//! fault comes and where it stands.
#![tactic(auto)]

mod binding;
mod checking;
mod dispatch;
mod expression;
mod fault;
mod feature;
mod laws;
mod operator;
mod typer;
mod typing_setting;

pub use checking::{check, in_order};
pub use fault::{CheckAllError, CheckError, TypeFault, TypeKind, TypingRule};
pub use feature::check_feature;
pub use laws::{law_failing_rule, law_faultless, law_one_type, law_typed_exactly};
pub use typer::{PlainTyper, Typer};
