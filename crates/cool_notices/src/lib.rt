//! Warnings about parts of a program that are legal, but likely mistakes.
//!
//! Input: the body of a feature. Output: notices, each with its kind and its place. `specs/Notices.antt` defines what each says. `value_places` gives the
//! places of the expressions that give the value of an expression.
#![tactic(auto)]

mod kind;
mod noticing;
mod values;

pub use kind::{Notice, NoticeKind};
pub use noticing::body_notices;
pub use values::value_places;
