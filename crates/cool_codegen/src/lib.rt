//! Code generation for features: it translates the methods and the initial values of attributes of a typed program to lines of MIPS assembly.
//!
//! Input: a feature of a typed program, the layout of its classes and the names of the files, and the constants so far. Output: the lines of a
//! method, or those that compute and store an initial value, and the constants with those that the code asks for. `specs/Features.antt`, `specs/Code.antt`
//! and `specs/Asked.antt` define them.
#![tactic(auto)]

mod arm;
mod binding;
mod call;
mod code;
mod code_setting;
mod constant_labels;
mod expression;
mod feature;
mod inner_labels;
mod label_text;
mod number;
mod operation;
mod operator;
pub mod piece;
mod span;
mod variables;

pub use feature::{FeatureCode, attribute_variables, feature_code, feature_lines};
pub use span::{Form, Span};
pub use variables::{Base, Variable};
