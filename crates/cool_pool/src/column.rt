//! A column: an array with one value for each node of a syntax tree, in the order in which the nodes are stored.

ghost use Rattle.std.specs.Prelude.{◌≡◌, ◌<◌, [], ◌∷◌, ◌++◌, Some, length, take, IfOk};
ghost use Rattle.std.specs.List.{slice_get};

use cool_syntax::NodeId;
use std::alloc::{AllocError, Global};
use std::marker::Model;

/// The values of the first nodes, with room for a number of values that was asked for at the start. A contract sees the
/// list of the values, and the room for all of them.
#[derive(Drop)]
pub struct Column<T> {
    values: Vec<T>,
}

impl<T> Model for Column<T> {
    ghost use Rattle.std.specs.Prelude.{vec_capacity};
    ghost use Rattle.cool_pool.specs.Region.{Filled};

    ghost Value = { Filled T };

    ghost view = { λ c. record { held = c.values.items; room = vec_capacity c.values } };
}

impl<T: Drop> Column<T> {
    /// An empty column with room for this many values. Returns `Err` only if memory runs out; no other call takes any memory.
    pub fn new(alloc: Global, room: u32) -> Result<Column<T>, AllocError>
        ensures held { IfOk result (λ c. c.held ≡ []) }
        ensures room { IfOk result (λ c. c.room ≡ room) }
    {
        Ok(Column {
            values: Vec::with_capacity(alloc, room as usize)?,
        })
    }

    /// Adds the value of the next node. It takes no memory.
    pub fn push(&mut self, value: T)
        requires room { length self.old.held < self.old.room }
        ensures held { self.new.held ≡ self.old.held ++ value ∷ [] }
        ensures room { self.new.room ≡ self.old.room }
    {
        self.values.push_reserved(value);
    }

    /// The value of the node of this number.
    pub fn get(&self, id: NodeId) -> &T
        requires below { id.0 < length self.now.held }
        ensures { slice_get self.now.held id.0 ≡ Some result.now }
    {
        &self.values[id.0 as usize]
    }

    /// The values, given up by the column. It takes no memory.
    pub fn into_values(self) -> Vec<T>
        ensures { result.items ≡ self.held }
    {
        self.values
    }

    /// Takes the values of the nodes from this number on away, and keeps their room.
    pub fn cut(&mut self, start: usize)
        ensures held { self.new.held ≡ take start self.old.held }
        ensures room { self.new.room ≡ self.old.room }
    {
        self.values.truncate(start);
    }

    /// Gives the values up, and keeps their room.
    pub fn clear(&mut self)
        ensures held { self.new.held ≡ [] }
        ensures room { self.new.room ≡ self.old.room }
    {
        self.values.clear();
    }
}
