//! `MemSink` is an output stream that keeps its bytes in memory. A test can order that some of its calls fail.

ghost use Rattle.std.specs.Prelude.{◌≡◌, ℕ, ◌+◌, ◌<◌, ◌≤◌, ◌⊎◌, ◌↔◌, ◌++◌, [], ◌∷◌, List, length, IfOk, IsErr, OnOk, OnErr, Some};
ghost use Rattle.cool_ports.specs.Counts.{GoesOn, Rose};
ghost use Rattle.cool_ports.specs.SinkBytes.{appended, GotPrefix};
ghost use Rattle.cool_ports.specs.MemoryObjects.{no_faults, IsToFail, called, faulted, failing_at};

use crate::fault_schedule::FaultSchedule;
use crate::{Failed, Log, Sink};
use std::alloc::{AllocError, Global};
use std::marker::Model;

/// A sink that holds its bytes in memory, and has room for a fixed number of them.
#[derive(Drop)]
pub struct MemSink {
    bytes: Vec<u8>,
    room: usize,
    puts: Log,
    schedule: FaultSchedule,
}

impl Model for MemSink {
    ghost use Rattle.std.specs.Prelude.{◌≤◌, vec_len, vec_capacity};
    ghost use Rattle.cool_ports.specs.MemoryObjects.{SinkState};

    ghost Value = { SinkState };

    ghost view = { λ s. record { held = s.bytes.items; room = s.room; puts = s.puts.entries; schedule = s.schedule } };

    ghost invariant = { λ s. (vec_len s.bytes ≤ s.room) × (s.room ≤ vec_capacity s.bytes) };
}

impl MemSink {
    /// An empty sink with memory for `room` bytes, of which no call is to fail. Returns `Err` only if memory runs out.
    pub fn new(alloc: Global, room: u32) -> Result<MemSink, AllocError>
        ensures made { IfOk result (λ sink. sink ≡ record { held = []; room = room; puts = []; schedule = no_faults }) }
    {
        let room = room as usize;
        Ok(MemSink {
            bytes: Vec::with_capacity(alloc, room)?,
            room,
            puts: Log::new(),
            schedule: FaultSchedule::new(alloc),
        })
    }

    /// Makes the `put` of this number fail, the first being 1. Returns `Err` only if memory runs out; then nothing changes.
    pub fn fail_call(&mut self, number: u64) -> Result<(), AllocError>
        ensures ok { OnOk result (self.new ≡ record self.old { schedule = failing_at self.old.schedule number }) }
        ensures err { OnErr result (self.new ≡ self.old) }
    {
        self.schedule.fail_call(number)
    }

    /// The bytes that it holds.
    pub fn held(&self) -> &[u8]
        ensures { result.now ≡ self.now.held }
    {
        self.bytes.as_slice()
    }
}

impl Sink for MemSink {
    ghost faults = { λ sink. sink.schedule.faults };

    ghost held = { λ sink. Some sink.held };

    ghost puts = { λ sink. sink.puts };

    /// Takes no memory. `Failed` comes exactly where the number of this call was given to `fail_call` or the bytes
    /// pass the room that is left; then nothing is put.
    #[tactic(auto, unfolding(crate::specs::SinkBytes::appended))]
    fn put(&mut self, bytes: &[u8]) -> Result<(), Failed>
        requires { 0 < length bytes.now }
        ensures put { OnOk result (Some self.new.held ≡ appended (Some self.old.held) bytes.now) }
        ensures puts { self.new.puts ≡ self.old.puts ++ bytes.now ∷ [] }
        ensures no_fault { OnOk result (self.new.schedule.faults ≡ self.old.schedule.faults) }
        ensures failed { OnErr result (Rose self.old.schedule.faults self.new.schedule.faults) }
        ensures prefix { OnErr result (GotPrefix (Some self.old.held) bytes.now (Some self.new.held)) }
        ensures count { GoesOn self.old.schedule.faults self.new.schedule.faults }
        ensures when { IsErr result ↔ (IsToFail self.old.schedule ⊎ (self.old.room < length self.old.held + length bytes.now)) }
        ensures counted { OnOk result (self.new ≡ record { held = self.old.held ++ bytes.now; room = self.old.room; puts = self.old.puts ++ bytes.now ∷ []; schedule = called self.old.schedule }) }
        ensures nothing_put { OnErr result (self.new ≡ record self.old { puts = self.old.puts ++ bytes.now ∷ []; schedule = faulted (called self.old.schedule) }) }
    {
        self.puts = self.puts.with(bytes);
        if self.schedule.begin_call() || self.room - self.bytes.len() < bytes.len() {
            self.schedule.count_fault();
            return Err(Failed);
        }
        self.bytes.extend_from_slice(bytes).unwrap();
        Ok(())
    }
}
