//! The occurrences of names in a program: the source location of each, its role there, and the definition that it refers to.
//!
//! Input: the class table of a program and the definitions of its classes. Output: a mark for each name, in the order of the text. `specs/Marks.antt` and
//! `specs/Programs.antt` define which marks there are, and `specs/Meanings.antt` the meaning of a name.
#![tactic(auto)]

mod binding;
mod call;
mod declaration;
mod expression;
mod feature;
mod laws;
mod mark;
mod meaning;
mod naming_setting;
mod program;

pub use laws::{
    law_declared_type, law_marks_are_names, law_program_uses_told, law_seen_type, law_uses_told,
};
pub use mark::{Mark, Meaning, Role, Target};
pub use meaning::method_meaning;
pub use program::program_marks;
