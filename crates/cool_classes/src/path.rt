//! The type `Path`: a stack of the class definitions that the search for cycles of inheritance has visited on its way from a definition to its ancestors.

ghost use Rattle.std.specs.Prelude.{◌≡◌, [], ◌∷◌, MatchOption, OnOk};

use std::alloc::{AllocError, Global};
use std::marker::Model;

/// Class definitions, each as its position among all definitions. A contract sees the list of them, with the one that was added last at the front.
#[derive(Drop)]
pub(crate) struct Path {
    passed: Vec<usize>,
}

impl Model for Path {
    ghost use Rattle.std.specs.Prelude.{ℕ, List, reverse};

    ghost Value = { List ℕ };

    ghost view = { λ s. reverse s.passed.items };
}

impl Path {
    /// Returns a path without definitions. It allocates no memory.
    pub(crate) fn new(alloc: Global) -> Path
        ensures { result ≡ [] }
    {
        Path {
            passed: Vec::new(alloc),
        }
    }

    /// Adds a definition at the front. Returns `Err` only if memory runs out.
    pub(crate) fn push(&mut self, class: usize) -> Result<(), AllocError>
        ensures { OnOk result (self.new ≡ class ∷ self.old) }
    {
        self.passed.push(class)?;
        Ok(())
    }

    /// Removes the definition that was added last, and returns it; returns `None` if the path is empty.
    pub(crate) fn pop(&mut self) -> Option<usize>
        ensures { MatchOption result ((self.old ≡ []) × (self.new ≡ [])) (λ class. self.old ≡ class ∷ self.new) }
    {
        self.passed.pop()
    }
}
