//! Laws about the debug information: its rows give the correct addresses of code, and are the address ranges of the program's expressions.

ghost use Rattle.cool_emit.specs.RowsOfSpans.{RowsAreSpans, RowsOfFeatures, ScopesOfRows};
ghost use Rattle.cool_emit.specs.StandingRows.{RowsStand};

/// If a program is in the text of a machine, each row of its table is true: the code of the feature or the expression in the row extends from the row's
/// first address to its second.
pub fn law_rows_stand()
    ensures { RowsStand }
{}

/// The rows of code of a table are the spans of its program, one for one and in their order: each tells the place, the form, the addresses and the
/// depth of its span, and how many names are in scope there, with the latest. So are those of a feature behind its head, and
/// the names in scope at each are had from the rows before it.
pub fn law_rows_are_spans()
    ensures spans { RowsAreSpans }
    ensures features { RowsOfFeatures }
    ensures scopes { ScopesOfRows }
{}
