//! The run-time layout of the classes of a program: their tags, the offsets of attributes in their objects, the methods in their dispatch tables, and the lines
//! of assembly that define this data.
//!
//! Input: a class table. Output: the layout of its classes, and its lines (`specs/Preorder.antt`, `specs/Members.antt`,
//! `specs/LinesOfLayout.antt`).
#![tactic(auto)]

mod attributes;
mod basic;
mod labels;
mod laws;
mod layout;
mod offsets;
mod order;
mod prototypes;
mod slots;
mod tables;
mod tags;
mod texts;

pub use labels::{initializer_label, method_label, name_label, prototype_label, table_label};
pub use laws::law_tags;
pub use layout::Layout;
