//! Constant folding: operators on constants are computed, conditionals with constant tests decided, and a dispatch that can go to only one method becomes a
//! direct call.
//!
//! Input: an accepted program. Output: the folded program. `specs/Folding.antt` defines the result for each form of expression and for a table, over the
//! static types of `cool_rules`; `specs/Foldable.antt` defines when nothing is left to fold. The functions `law_*` state the properties of a folded
//! program. The types of expressions are read in the program's columns and not computed, and the folded program has its own.
#![tactic(auto)]

mod constant;
mod definers;
mod expression;
mod feature;
mod fold_binding;
mod fold_call;
mod fold_control;
mod fold_operator;
mod folding_setting;
mod form;
mod laws;
mod place;
mod place_form;
mod place_operator;
mod program;

pub use laws::{law_folded, law_folded_fits, law_folded_is_typed, law_nothing_left};
pub use program::fold;
