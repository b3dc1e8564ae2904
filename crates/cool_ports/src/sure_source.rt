//! `SureSource` is an input stream that gives bytes from memory and never fails.

ghost use Rattle.std.specs.Prelude.{◌≡◌, IfOk, IsOk, Some, length};
ghost use Rattle.cool_ports.specs.Answers.{nothing_yet, after_answer};
ghost use Rattle.cool_ports.specs.SourceBytes.{Takes, Spends};

use crate::history::{Answer, History};
use crate::{Failed, Source};
use std::marker::Model;

/// A source that gives bytes of memory, and never fails. A contract sees the bytes that are left, and its answers so far.
#[derive(Drop)]
pub struct SureSource {
    bytes: Vec<u8>,
    taken: usize,
    history: History,
}

impl Model for SureSource {
    ghost use Rattle.std.specs.Prelude.{drop};
    ghost use Rattle.cool_ports.specs.MemoryObjects.{SureState};

    ghost Value = { SureState };

    ghost view = { λ s. record { left = drop s.taken s.bytes.items; past = s.history.past } };
}

impl SureSource {
    /// A source of these bytes. Takes no memory.
    pub fn new(bytes: Vec<u8>) -> SureSource
        ensures { result ≡ record { left = bytes.items; past = nothing_yet } }
    {
        SureSource {
            bytes,
            taken: 0,
            history: History::new(),
        }
    }
}

impl Source for SureSource {
    ghost use Rattle.std.specs.Prelude.{refl};

    ghost faults = { λ _. 0 };

    ghost past = { λ source. source.past };

    ghost left = { λ source. Some source.left };

    ghost room = { λ source. length source.left };

    /// Takes no memory, and never fails.
    #[tactic(auto, unfolding(crate::specs::SourceBytes::put_back))]
    fn take(&mut self) -> Result<Option<u8>, Failed>
        ensures answered { IfOk result (λ first. self.new.past ≡ after_answer self.old.past first) }
        ensures taken { IfOk result (λ first. Takes (Some self.old.left) first (Some self.new.left)) }
        ensures room { Spends (length self.old.left) result (length self.new.left) }
        ensures never { IsOk result }
    {
        match self.bytes.get(self.taken) {
            Some(byte) => {
                let byte = *byte;
                self.taken += 1;
                self.history = self.history.with(&Answer { first: Some(byte) });
                Ok(Some(byte))
            }
            None => {
                self.history = self.history.with(&Answer { first: None });
                Ok(None)
            }
        }
    }

    ghost told_room = { λ source. refl };
}
