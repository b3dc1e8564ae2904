//! The store of a run: the values at its locations, and the number of object identities given out.

ghost use Rattle.std.specs.Prelude.{◌≡◌, ◌+◌, ◌∷◌, [], ◌++◌, length, map, slice_set, IfOk, IfErr, OnOk};
ghost use Rattle.cool_eval.specs.Values.{value_of, locations_from};
ghost use Rattle.cool_eval.specs.Counts.{IsInner};
ghost use Rattle.cool_eval.specs.Configurations.{IsLoaded, AreLoaded};

use crate::ending::Ending;
use crate::machine::add;
use crate::value::Value;
use std::alloc::Global;
use std::marker::Model;

/// Values at locations from 0 on, and how many identities were drawn.
#[derive(Drop)]
pub(crate) struct Store {
    values: Vec<Value>,
    drawn: u64,
}

impl Model for Store {
    ghost use Rattle.std.specs.Prelude.{map};
    ghost use Rattle.cool_eval.specs.Values.{Stored, value_of};

    ghost Value = { Stored };

    ghost view = { λ s. record { values = map value_of s.values.items; drawn = s.drawn } };
}

impl Store {
    /// Nothing is stored.
    pub(crate) fn new(alloc: Global) -> Store
        ensures values { result.values ≡ [] }
        ensures drawn { result.drawn ≡ 0 }
    {
        Store {
            values: Vec::new(alloc),
            drawn: 0,
        }
    }

    /// The number of locations, which is the next location.
    #[tactic(auto, using(crate::proofs::StoredValues::stored_length))]
    pub(crate) fn len(&self) -> usize
        ensures { result ≡ length self.now.values }
    {
        self.values.len()
    }

    /// A new location with a value.
    #[tactic(auto, using(crate::proofs::StoredValues::stored_more))]
    pub(crate) fn locate(&mut self, value: Value) -> Result<(), Ending>
        ensures values { OnOk result (self.new.values ≡ self.old.values ++ value_of value ∷ []) }
        ensures memory { IfErr result (λ e. e ≡ Ending.Memory) }
        ensures drawn { self.new.drawn ≡ self.old.drawn }
    {
        match self.values.push(value) {
            Ok(()) => Ok(()),
            Err(_) => Err(Ending::Memory),
        }
    }

    /// New locations with values, in order.
    #[tactic(auto, using(crate::proofs::StoredValues::stored_all))]
    pub(crate) fn locate_all(&mut self, mut values: Vec<Value>) -> Result<(), Ending>
        ensures values { OnOk result (self.new.values ≡ self.old.values ++ map value_of values.items) }
        ensures memory { IfErr result (λ e. e ≡ Ending.Memory) }
        ensures drawn { self.new.drawn ≡ self.old.drawn }
    {
        match self.values.append(&mut values) {
            Ok(()) => Ok(()),
            Err(_) => Err(Ending::Memory),
        }
    }

    /// The value at a location.
    #[inline(always)]
    pub(crate) fn load(&self, location: usize) -> Result<Value, Ending>
        ensures loaded { IsLoaded self.now.values location result }
        ensures inner { IfErr result IsInner }
    {
        match self.values.get(location) {
            Some(value) => Ok(value.copy()?),
            None => Err(Ending::Stuck),
        }
    }

    /// The values at so many locations from one on.
    #[tactic(auto, using(crate::proofs::LoadedValues::loaded_more))]
    pub(crate) fn load_all(
        &self,
        alloc: Global,
        first: usize,
        count: usize,
    ) -> Result<Vec<Value>, Ending>
        ensures loaded { AreLoaded self.now.values (locations_from first count) result }
        ensures inner { IfErr result IsInner }
    {
        let mut values = Vec::new(alloc);
        let mut location = first;
        for _ in 0..count {
            add(&mut values, self.load(location)?)?;
            location = location_after(location, 1)?;
        }
        Ok(values)
    }

    /// A new value at a location; nothing where there is no such location.
    #[tactic(auto, using(crate::proofs::StoredValues::stored_set))]
    pub(crate) fn store(&mut self, location: usize, value: Value)
        ensures values { self.new.values ≡ slice_set self.old.values location (value_of value) }
        ensures drawn { self.new.drawn ≡ self.old.drawn }
    {
        if location < self.values.len() {
            self.values[location] = value;
        }
    }

    /// A new identity.
    pub(crate) fn draw(&mut self) -> Result<u64, Ending>
        ensures drawn { IfOk result (λ i. (i ≡ self.old.drawn) × (self.new.drawn ≡ self.old.drawn + 1)) }
        ensures memory { IfErr result (λ e. e ≡ Ending.Memory) }
        ensures values { self.new.values ≡ self.old.values }
    {
        let identity = self.drawn;
        match identity.checked_add(1) {
            Some(next) => {
                self.drawn = next;
                Ok(identity)
            }
            None => Err(Ending::Memory),
        }
    }
}

/// The location so many after one. `Memory` comes where locations run out.
pub(crate) fn location_after(location: usize, count: usize) -> Result<usize, Ending>
    ensures after { IfOk result (λ after. after ≡ location + count) }
    ensures memory { IfErr result (λ e. e ≡ Ending.Memory) }
{
    match location.checked_add(count) {
        Some(after) => Ok(after),
        None => Err(Ending::Memory),
    }
}
