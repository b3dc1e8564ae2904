//! Generates the assembly of a whole program, and the image that the assembler makes of it.
//!
//! Input: a typed program, and the names of its files. Output: the lines, or the image that the assembler makes of them
//! (`specs/Programs.antt`), or the table of its code (`specs/CodeTables.antt`, `specs/TableLines.antt`).
#![tactic(auto)]

mod building;
mod code_table;
mod emission;
mod initializer;
mod kept;
mod laws;
mod program;
mod row;
mod section;

pub use building::build;
pub use code_table::table;
pub use kept::MOST_KEPT_LINES;
pub use laws::{law_rows_are_spans, law_rows_stand};
pub use program::lines;
pub use row::{arith_word, compare_word, place_text, type_text};

/// The most bytes of the name of a file that a program is built with.
pub const MOST_FILE_NAME: usize = 4_096;
