//! The type `Declaration`, the declaration of a variable in scope: the name of its type, and the source location where it is declared.

use cool_syntax::{Name, Place};

/// The name of a variable's type, and where the variable is declared.
#[derive(Clone, Copy)]
pub(crate) struct Declaration<'a> {
    pub(crate) declared: &'a Name,
    pub(crate) at: Place,
}
