//! Theorems on folded programs: they run as the original programs do, have no type errors, are within the limits of size, and have nothing left to fold.

ghost use Rattle.std.specs.Prelude.{ℕ, List};
ghost use Rattle.cool_classes.specs.Chains.{Class};
ghost use Rattle.cool_classes.specs.Declarations.{AreAllAlike};
ghost use Rattle.cool_meaning.specs.SourceRun.{run};
ghost use Rattle.cool_fold.specs.Folding.{fold_table};
ghost use Rattle.cool_fold.specs.Laws.{NoMoreRun};
ghost use Rattle.cool_fold.specs.NothingLeft.{IsDoneTable};
ghost use Rattle.cool_rules.specs.Fits.{Fits};
ghost use Rattle.cool_rules.specs.TypedTables.{IsTypedTable};

/// The folded program runs as a typed program does: whatever the input, and however many steps there are, its run ends the same, with the
/// same output and the same input left, and no meter is greater.
pub fn law_folded()
    ensures { (p : List Class) → IsTypedTable p → (names : List (List ℕ)) (input : List ℕ) (n : ℕ) → NoMoreRun (run p names input n) (run (fold_table p) names input n) }
{}

/// The folded program is typed, where the program is: its classes keep the rules, and each folded body and initial value conforms to the
/// type that its feature declares. Typed or not, it has the same classes with the same parents, and these declare the same features with the
/// same signatures.
pub fn law_folded_is_typed()
    ensures typed { (p : List Class) → IsTypedTable p → IsTypedTable (fold_table p) }
    ensures declared { (p : List Class) → AreAllAlike p (fold_table p) }
{}

/// Folding leaves nothing to fold: in no body and in no initial value of the folded program of a typed one is there a foldable node.
pub fn law_nothing_left()
    ensures done { (p : List Class) → IsTypedTable p → IsDoneTable (fold_table p) }
{}

/// The folded program of a typed one keeps the limits that the program keeps, on classes, features, nodes, branches, names, constants and
/// places, in as many files.
pub fn law_folded_fits()
    ensures fits { (p : List Class) → IsTypedTable p → (count : ℕ) → Fits p count → Fits (fold_table p) count }
{}
