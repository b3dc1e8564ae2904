//! Collects the integer and string constants of a program, and numbers each in the order of its first use.

ghost use Rattle.std.specs.Prelude.{◌≡◌, ◌<◌, ◌^◌, ◌-◌, ◌++◌, [], length, OnOk, OnErr, IfOk};
ghost use Rattle.std.specs.List.{AllByRecursion};
ghost use Rattle.mips_isa.specs.Lines.{lines_of};
ghost use Rattle.cool_consts.specs.Constants.{with_integer, with_string, integer_number, string_number};
ghost use Rattle.cool_consts.specs.LinesOfConstants.{integers_lines, strings_lines, constants_lines};

use crate::data::{add_integers, add_strings};
use cool_runtime::{StringTags, bool_object};
use indexmap::IndexSet;
use mips_isa::Line;
use std::alloc::{AllocError, Global};
use std::marker::Model;

/// The integers and the strings that were used, each with its number. A contract sees both in the order of their numbers.
#[derive(Drop)]
pub struct Consts {
    integers: IndexSet<u32>,
    strings: IndexSet<Vec<u8>>,
    alloc: Global,
}

impl Model for Consts {
    ghost use Rattle.std.specs.Prelude.{ℕ, map};
    ghost use Rattle.std.specs.Global.{Vec};
    ghost use Rattle.cool_consts.specs.Constants.{Constants};

    ghost Value = { Constants };

    ghost view = { λ s. record { integers = s.integers.keys; strings = map (λ (v : Vec ℕ). v.items) s.strings.keys } };
}

impl Consts {
    /// No constants.
    pub fn new(alloc: Global) -> Consts
        ensures integers { result.integers ≡ [] }
        ensures strings { result.strings ≡ [] }
    {
        Consts {
            integers: IndexSet::new(alloc),
            strings: IndexSet::new(alloc),
            alloc,
        }
    }

    /// The number of an integer. Returns `Err` only if memory runs out.
    pub fn int(&mut self, value: u32) -> Result<u32, AllocError>
        requires few { length self.old.integers < 2 ^ 32 - 1 }
        ensures number { IfOk result (λ k. k ≡ integer_number self.old.integers value) }
        ensures integers { OnOk result (self.new.integers ≡ with_integer self.old.integers value) }
        ensures strings { self.new.strings ≡ self.old.strings }
        ensures refused { OnErr result (self.new ≡ self.old) }
    {
        let (index, _) = self.integers.insert_full(value)?;
        Ok(index as u32)
    }

    /// The number of a string. Returns `Err` only if memory runs out.
    pub fn string(&mut self, bytes: &[u8]) -> Result<u32, AllocError>
        requires few { length self.old.strings < 2 ^ 32 - 1 }
        ensures number { IfOk result (λ k. k ≡ string_number self.old.strings bytes.now) }
        ensures integers { self.new.integers ≡ self.old.integers }
        ensures strings { OnOk result (self.new.strings ≡ with_string self.old.strings bytes.now) }
        ensures refused { OnErr result (self.new ≡ self.old) }
    {
        let copy = Vec::from_slice(self.alloc, bytes)?;
        let (index, _) = self.strings.insert_full(copy)?;
        Ok(index as u32)
    }

    #[tactic(auto, unfolding(cool_runtime::specs::Labels::false_constant, cool_runtime::specs::Labels::true_constant))]
    /// The lines of the objects of all constants, whose classes have these tags. Returns `Err` only if memory runs out.
    pub fn lines(
        &self,
        alloc: Global,
        int_tag: u32,
        bool_tag: u32,
        string_tag: u32,
    ) -> Result<Vec<Line>, AllocError>
        ensures { IfOk result (λ lines. lines_of lines.items ≡ constants_lines int_tag bool_tag string_tag self.now) }
    {
        let mut lines = bool_object(alloc, b"bool_const0", bool_tag, 0)?;
        lines.append(&mut bool_object(alloc, b"bool_const1", bool_tag, 1)?)?;
        add_integers(alloc, &mut lines, int_tag, self.integers.as_slice())?;
        let tags = StringTags {
            int: int_tag,
            string: string_tag,
        };
        add_strings(alloc, &mut lines, tags, self.strings.as_slice())?;
        Ok(lines)
    }
}
