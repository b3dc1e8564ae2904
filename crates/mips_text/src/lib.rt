//! Assembly as text: the parser and the printer of lines of assembly.
//!
//! Input: the bytes of a text, or lines of assembly. Output: the parsed lines or the first error, or the printed text. Parsing finds the first wrong token of
//! the text; `print_asm` has one spelling for each line. `is_name` and `value_of_digits` read single names and numbers.
#![tactic(auto)]

mod class;
mod data;
mod directives;
mod flaw;
mod fronts;
mod instruction_operands;
mod instructions;
mod laws;
mod letters;
mod lines;
mod magnitudes;
mod mnemonics;
mod names;
mod numbers;
mod operands;
mod printing;
mod ranges;
mod reading;
mod registers;
mod rows;
mod span;
mod strings;
mod wanted;
mod words;

pub use laws::{
    law_always_one, law_kinds_of_reading, law_longest_words, law_never_both, law_one_first_fault,
    law_one_reading, law_printed_is_read, law_read_is_printable, law_text_is_cut,
};
pub use names::is_name;
pub use numbers::{LARGEST, value_of_digits};
pub use printing::{print_asm, print_statement};
pub use reading::read_asm;
