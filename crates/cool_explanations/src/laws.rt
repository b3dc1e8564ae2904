//! The theorem on shown edits says that the changes listed for an edit are lines of the file and of the edited file at their line numbers, no change is left
//! out, and all other lines stay.

ghost use Rattle.std.specs.Prelude.{ℕ, List};
ghost use Rattle.cool_mend.specs.declared.edit.Edit.{Edit};
ghost use Rattle.cool_mend.specs.Edits.{IsEdit};
ghost use Rattle.cool_explanations.specs.ChangedLines.{ShowsEdit};

/// The lines that are listed for an edit of files are those that it changes: each stands at its number in the file or in the edited file, none is left out,
/// and no other line changes.
pub fn law_changes_are_lines()
    ensures { (files : List (List ℕ)) (e : Edit) → IsEdit files e → ShowsEdit files e }
{}
