//! The type `Scope`: a stack of the names in scope, each with its type or another value.

ghost use Rattle.std.specs.Prelude.{◌≡◌, ◌≢◌, [], ◌∷◌, length, option_map, slice_get, if◌then◌else◌};
ghost use Rattle.std.specs.Result.{is_ok};
ghost use Rattle.cool_rules.specs.Scopes.{binding_of, found, left};

use cool_syntax::Name;
use std::alloc::{AllocError, Global};
use std::marker::Model;

/// A name that was entered, with its value.
#[derive(Clone, Copy)]
pub struct Entry<'a, T: Copy> {
    pub name: &'a [u8],
    pub value: T,
}

/// The names in scope, each bound to its type or to another value. A contract sees them with the latest first.
#[derive(Drop)]
pub struct Scope<'a, T: Copy> {
    entries: Vec<Entry<'a, T>>,
}

impl<'a, T: Copy> Model for Scope<'a, T> {
    ghost use Rattle.std.specs.Prelude.{List};
    ghost use Rattle.cool_rules.specs.Scopes.{Bound, latest_first};

    ghost Value = { List (Bound T) };

    ghost view = { λ s. latest_first s.entries.items };
}

impl<'a, T: Copy> Scope<'a, T> {
    /// A scope without names.
    pub fn new(alloc: Global) -> Scope<'a, T>
        ensures { result ≡ [] }
    {
        Scope {
            entries: Vec::new(alloc),
        }
    }

    /// Adds a name, in front of an earlier one of the same name. Returns `Err` only if memory runs out; then the scope stays as it is.
    pub fn enter(&mut self, name: &'a Name, value: T) -> Result<(), AllocError>
        ensures { self.new ≡ (if is_ok result then record { name = name.now; value = value } ∷ self.old else self.old) }
    {
        self.entries.push(Entry {
            name: name.as_slice(),
            value,
        })?;
        Ok(())
    }

    /// Takes out the name that was entered last.
    pub fn leave(&mut self)
        requires entered { self.old ≢ [] }
        ensures { self.new ≡ left self.old }
    {
        self.entries.pop();
    }

    /// The number of names in scope.
    pub fn count(&self) -> usize
        ensures { result ≡ length self.now }
    {
        self.entries.len()
    }

    /// The name that was entered last, with its value.
    pub fn latest(&self) -> Option<Entry<'a, T>>
        ensures { option_map binding_of result ≡ slice_get self.now 0 }
    {
        self.entries.last().copied()
    }

    /// The value of a name, by its latest entry. `None` exactly if there is no entry of the name.
    pub fn find(&self, name: &Name) -> Option<T>
        ensures { result ≡ found self.now name.now }
    {
        for index in (0..self.entries.len()).rev() {
            let entry = &self.entries[index];
            if entry.name == name.as_slice() {
                return Some(entry.value);
            }
        }
        None
    }
}
