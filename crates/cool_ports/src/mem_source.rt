//! `MemSource` is an input stream that gives bytes from memory. A test can order that some of its calls fail.

ghost use Rattle.std.specs.Prelude.{◌≡◌, ◌<◌, ◌↔◌, IfOk, IsErr, OnOk, OnErr, Some, length};
ghost use Rattle.cool_ports.specs.Counts.{GoesOn, Rose};
ghost use Rattle.cool_ports.specs.SourceBytes.{Takes, Spends};
ghost use Rattle.cool_ports.specs.Answers.{nothing_yet, after_answer};
ghost use Rattle.cool_ports.specs.MemoryObjects.{no_faults, IsToFail, called, faulted, failing_at};

use crate::fault_schedule::FaultSchedule;
use crate::history::{Answer, History};
use crate::{Failed, Source};
use std::alloc::{AllocError, Global};
use std::marker::Model;

/// A source that gives bytes of memory.
#[derive(Drop)]
pub struct MemSource {
    bytes: Vec<u8>,
    taken: usize,
    history: History,
    schedule: FaultSchedule,
}

impl Model for MemSource {
    ghost use Rattle.std.specs.Prelude.{drop};
    ghost use Rattle.cool_ports.specs.MemoryObjects.{SourceState};

    ghost Value = { SourceState };

    ghost view = { λ s. record { left = drop s.taken s.bytes.items; past = s.history.past; schedule = s.schedule } };
}

impl MemSource {
    /// A source of these bytes, of which no call is to fail.
    pub fn new(alloc: Global, bytes: Vec<u8>) -> MemSource
        ensures { result ≡ record { left = bytes.items; past = nothing_yet; schedule = no_faults } }
    {
        MemSource {
            bytes,
            taken: 0,
            history: History::new(),
            schedule: FaultSchedule::new(alloc),
        }
    }

    /// Makes the `take` of this number fail, the first being 1. Returns `Err` only if memory runs out; then nothing changes.
    pub fn fail_call(&mut self, number: u64) -> Result<(), AllocError>
        ensures ok { OnOk result (self.new ≡ record self.old { schedule = failing_at self.old.schedule number }) }
        ensures err { OnErr result (self.new ≡ self.old) }
    {
        self.schedule.fail_call(number)
    }
}

impl Source for MemSource {
    ghost use Rattle.std.specs.Prelude.{refl};

    ghost faults = { λ source. source.schedule.faults };

    ghost past = { λ source. source.past };

    ghost left = { λ source. Some source.left };

    ghost room = { λ source. length source.left };

    /// Takes no memory. `Failed` comes exactly where the number of this call was given to `fail_call`.
    #[tactic(auto, unfolding(crate::specs::SourceBytes::put_back))]
    fn take(&mut self) -> Result<Option<u8>, Failed>
        ensures answered { IfOk result (λ first. self.new.past ≡ after_answer self.old.past first) }
        ensures taken { IfOk result (λ first. Takes (Some self.old.left) first (Some self.new.left)) }
        ensures no_fault { OnOk result (self.new.schedule.faults ≡ self.old.schedule.faults) }
        ensures failed { OnErr result (Rose self.old.schedule.faults self.new.schedule.faults) }
        ensures nothing_given { OnErr result (self.new.past ≡ self.old.past) }
        ensures kept { OnErr result (Some self.new.left ≡ Some self.old.left) }
        ensures count { GoesOn self.old.schedule.faults self.new.schedule.faults }
        ensures room { Spends (length self.old.left) result (length self.new.left) }
        ensures when { IsErr result ↔ IsToFail self.old.schedule }
        ensures counted { OnOk result (self.new.schedule ≡ called self.old.schedule) }
        ensures refused { OnErr result (self.new ≡ record self.old { schedule = faulted (called self.old.schedule) }) }
    {
        if self.schedule.begin_call() {
            self.schedule.count_fault();
            return Err(Failed);
        }
        match self.bytes.get(self.taken) {
            Some(byte) => {
                let byte = *byte;
                self.taken += 1;
                self.history = self.history.with(&Answer { first: Some(byte) });
                Ok(Some(byte))
            }
            None => {
                self.history = self.history.with(&Answer { first: None });
                Ok(None)
            }
        }
    }

    ghost told_room = { λ source. refl };
}
