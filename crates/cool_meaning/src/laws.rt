//! Theorems on the runs of programs without type errors: no run is stuck, and a run with more steps extends one with fewer steps.

ghost use Rattle.std.specs.Prelude.{◌≡◌, ◌≢◌, ◌+◌, ℕ, List};
ghost use Rattle.cool_classes.specs.Chains.{Class};
ghost use Rattle.cool_rules.specs.TypedTables.{IsTypedTable};
ghost use Rattle.cool_meaning.specs.Laws.{Extends, IsOver};
ghost use Rattle.cool_meaning.specs.SourceRun.{run, IsStuck};

/// No run of a typed program is stuck: whatever the input, and however many steps there are.
pub fn law_sound()
    ensures { (p : List Class) → IsTypedTable p → (names : List (List ℕ)) (input : List ℕ) (n : ℕ) → (run p names input n).end ≢ IsStuck }
{}

/// A run with more steps extends one with fewer: where that one ended it is the same, and where it goes on, the longer one wrote the
/// same and more, took the same of the input and more, and no meter is less. The first holds of every table, typed or not.
pub fn law_longer()
    ensures over { (p : List Class) (names : List (List ℕ)) (input : List ℕ) (n k : ℕ) → IsOver (run p names input n).end → run p names input (n + k) ≡ run p names input n }
    ensures further { (p : List Class) → IsTypedTable p → (names : List (List ℕ)) (input : List ℕ) (n k : ℕ) → Extends (run p names input n) (run p names input (n + k)) }
{}
