//! Listings of Cool files for editors: their names with the definitions, the code of each expression with the names in scope there, their tokens, and their
//! syntax trees with types.
//!
//! Input: arguments, files and writers. Output: a line for each mark of `cool_names`, as `specs/Lines.antt` defines it, the table of code of `cool_emit`,
//! the tokens as `specs/TokenLines.antt` defines their lines, the trees as `specs/TreeLines.antt` does, or a status (`specs/Ends.antt`). `perform` is
//! everything that the program `cool_editor` does if its arguments are text, and its clause is the promise over the system's files and streams
//! (`specs/Ends.antt` of `cool_sources`).
#![tactic(auto)]

mod answer;
mod files;
mod form;
mod line;
mod listing;
mod node_text;
mod note;
mod process;
mod tokens;
mod trees;

pub use form::Form;
pub use note::BAD_COMMAND_LINE;
pub use process::perform;
