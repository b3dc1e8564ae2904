//! Theorems about evaluations: the pieces that a run writes to its sink make up its output, and an interrupted run did a part of the whole run.

ghost use Rattle.std.specs.Prelude.{◌≡◌, ℕ, List, Option};
ghost use Rattle.std.specs.List.{concat};
ghost use Rattle.cool_classes.specs.Chains.{Class};
ghost use Rattle.cool_rules.specs.TypedTables.{IsTypedTable};
ghost use Rattle.cool_eval.specs.Ends.{IsPart, StoppedAtLastLine, StoppedReading, StoppedShort, StoppedWriting};
ghost use Rattle.cool_eval.specs.Puts.{run_puts};
ghost use Rattle.cool_meaning.specs.SourceRun.{run};

/// If a device failed or memory ran out, a part of the whole run of a typed program was done: a prefix of its output was put, and at least the input that
/// it leaves is left.
pub fn law_stopped_within()
    ensures reading { (p : List Class) → IsTypedTable p → (names : List (List ℕ)) (input : List ℕ) (steps : ℕ) (held : Option (List ℕ)) (rest : List ℕ) (held' : Option (List ℕ))
        → StoppedReading (run p names input) steps held rest held' → IsPart (run p names input steps) held rest held' }
    ensures writing { (p : List Class) → IsTypedTable p → (names : List (List ℕ)) (input : List ℕ) (steps : ℕ) (held : Option (List ℕ)) (rest : List ℕ) (held' : Option (List ℕ))
        → StoppedWriting (run p names input) steps held rest held' → IsPart (run p names input steps) held rest held' }
    ensures last_line { (p : List Class) → IsTypedTable p → (names : List (List ℕ)) (input : List ℕ) (steps : ℕ) (held : Option (List ℕ)) (rest : List ℕ) (held' : Option (List ℕ))
        → StoppedAtLastLine p names (run p names input steps) held rest held' → IsPart (run p names input steps) held rest held' }
    ensures memory { (p : List Class) → IsTypedTable p → (names : List (List ℕ)) (input : List ℕ) (steps : ℕ) (held : Option (List ℕ)) (rest : List ℕ) (held' : Option (List ℕ))
        → StoppedShort p names (run p names input) steps held rest held' → IsPart (run p names input steps) held rest held' }
{}

/// All puts of a run of a typed program, one after another, are what it writes.
pub fn law_puts_are_output()
    ensures { (p : List Class) → IsTypedTable p → (names : List (List ℕ)) (input : List ℕ) (steps : ℕ) → concat (run_puts p names input steps) ≡ (run p names input steps).output }
{}
