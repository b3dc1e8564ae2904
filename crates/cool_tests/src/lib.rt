//! Tests of the crates below, for cases that no clause covers: files, inputs or outputs that fail at a given call, and library calls that no command makes,
//! once each with enough memory. They are a crate of their own, since a crate that has tests is proved once more with them.
#![tactic(auto)]

#[cfg(test)]
mod devices;
#[cfg(test)]
mod library;
#[cfg(test)]
mod printed_texts;
