//! The commands of `cool`, each implemented in a file of its own.

pub mod big;
pub mod build;
pub mod check;
pub mod debug;
pub mod eval;
pub mod exec;
pub mod run;
pub mod session;
