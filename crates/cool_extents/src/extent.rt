//! An `Extent` holds the places of the first and the last token of an expression, without parentheses around it.

use cool_syntax::Place;

/// The places of the first and of the last token of an expression, without parentheses around it.
#[derive(Clone, Copy)]
pub struct Extent {
    pub first: Place,
    pub last: Place,
}
