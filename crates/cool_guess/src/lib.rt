//! Guesses of edits that may fix a compile-time error of a Cool text, and advice about the error in words.
//!
//! Input: the bytes of source files, and a fault. Output: candidates, the likeliest first, words on forms of other languages, and the other definition of
//! a thing that is defined twice. No clause says which candidates come: `cool_mend` tries each edit. `specs/Words.antt` defines the words on an edit,
//! and `specs/Hints.antt` the sentence of each hint.
#![tactic(auto)]

mod candidate;
mod declarations;
mod definition;
mod excerpt;
mod extents;
mod fitting;
mod forms;
mod hint;
mod inherited;
mod kind;
mod lexeme;
mod meaning_guesses;
mod names;
mod nearness;
mod other_words;
mod outline;
mod signs;
mod silly;
mod source;
mod telling;
mod text_guesses;

pub use candidate::{Candidate, Reason, Splice, spliced};
pub use definition::other_definition;
pub use excerpt::{Excerpt, Program};
pub use hint::{Hint, hint_words};
pub use lexeme::{Lexeme, index_at, lexeme_length, part};
pub use meaning_guesses::meaning_candidates;
pub use other_words::{advice, is_advised, type_advice};
pub use source::{Range, Source};
pub use telling::{difference, reason_words};
pub use text_guesses::text_candidates;
