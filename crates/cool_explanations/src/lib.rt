//! Explanations of compile-time errors as text: for each error its message, the source line with its range marked, what is known of the error, and lines
//! that fix it; for people, or for other programs.
//!
//! Input: arguments, files and writers. Output: the explanations of `cool_mend` as `specs/Texts.antt` and `specs/Lines.antt` write them, or a status.
//! `perform` is everything that the program `cool_explain` does if its arguments are text, and its clause is the promise over the system's files and
//! streams (`specs/Ends.antt`, and `specs/Ends.antt` of `cool_sources`).
#![tactic(auto)]

mod changes;
mod cures;
mod explaining;
mod facts;
mod form;
mod laws;
mod lines;
mod note;
mod process;
mod rules;
mod shown;
mod source_line;
mod text;
mod values;
mod warnings;

pub use form::Form;
pub use laws::law_changes_are_lines;
pub use note::BAD_COMMAND_LINE;
pub use process::perform;
