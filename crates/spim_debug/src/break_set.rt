//! The set of breakpoints of a program, with a Boolean for each machine word of its text.

ghost use Rattle.std.specs.Prelude.{◌≡◌, ◌==◌, ◌&&◌, ◌||◌, not, ℕ, length, IfOk, false};
ghost use Rattle.spim_debug.specs.BreakSets.{in_set};
ghost use Rattle.spim_debug.specs.Debugging.{IsTextAddress};

use mips_isa::TEXT_START;
use spim_cpu::{Breaks, word_index};
use std::alloc::{AllocError, Global};
use std::marker::Model;

/// Break addresses: a mark for each word of a text, and the number of marks that are set. A contract sees the marks.
#[derive(Drop)]
pub struct BreakSet {
    marks: Vec<bool>,
    count: usize,
}

impl Model for BreakSet {
    ghost use Rattle.std.specs.Prelude.{◌≡◌, List, Bool};
    ghost use Rattle.std.specs.List.{count_by};

    ghost Value = { List Bool };

    ghost view = { λ s. s.marks.items };

    ghost invariant = { λ s. s.count ≡ count_by (λ mark. mark) s.marks.items };
}

impl BreakSet {
    /// No break address, of a text of so many words. Returns `Err` only if memory runs out.
    pub fn new(alloc: Global, words: usize) -> Result<BreakSet, AllocError>
        ensures none { IfOk result (λ set. (a : ℕ) → in_set set a ≡ false) }
        ensures size { IfOk result (λ set. length set ≡ words) }
    {
        Ok(BreakSet {
            marks: vec![in alloc; false; words]?,
            count: 0,
        })
    }

    /// Takes an address of a word of the text up into the set.
    pub fn insert(&mut self, address: u32)
        requires { IsTextAddress self.old address }
        ensures held { (a : ℕ) → in_set self.new a ≡ (address == a || in_set self.old a) }
        ensures size { length self.new ≡ length self.old }
    {
        let index = word_index(address);
        if !self.marks[index] {
            self.count += 1;
        }
        self.marks[index] = true;
    }

    /// Takes an address of a word of the text out of the set.
    pub fn remove(&mut self, address: u32)
        requires { IsTextAddress self.old address }
        ensures held { (a : ℕ) → in_set self.new a ≡ (not (address == a) && in_set self.old a) }
        ensures size { length self.new ≡ length self.old }
    {
        let index = word_index(address);
        if self.marks[index] {
            self.count -= 1;
        }
        self.marks[index] = false;
    }
}

impl Breaks for BreakSet {
    ghost use Rattle.spim_debug.specs.BreakSets.{in_set};

    ghost holds = { in_set };

    #[inline(always)]
    fn marks(&self) -> Option<&[bool]> {
        if self.count == 0 {
            return None;
        }
        Some(&self.marks)
    }
}
