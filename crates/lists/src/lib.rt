//! Lists, numbers and truth values: the definitions and lemmas that several crates need, and that use no crate's definitions.
//!
//! Input: no code. Output: definitions about lists in `specs/`, and facts about lists, bytes, numbers, truth values and results in `proofs/`, beside those
//! of the library.
#![tactic(auto)]
