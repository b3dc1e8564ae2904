//! An output stream that stores its bytes in a growing buffer in memory.

ghost use Rattle.std.specs.Prelude.{◌≡◌, ℕ, ◌<◌, [], ◌∷◌, ◌++◌, List, length, OnOk, OnErr, Option, Some};
ghost use Rattle.cool_ports.specs.Counts.{GoesOn, Rose};
ghost use Rattle.cool_ports.specs.SinkBytes.{appended, GotPrefix};

use cool_ports::{Failed, Log, Sink};
use std::alloc::{AllocError, Global};

/// A sink that keeps its bytes in memory, and allocates more if they need more. So it fails only if memory runs out.
#[derive(Drop)]
pub struct GrowingSink {
    bytes: Vec<u8>,
    faults: u64,
    puts: Log,
}

impl GrowingSink {
    /// A sink without bytes. Takes no memory.
    pub fn new(alloc: Global) -> GrowingSink
        ensures empty { result.bytes.items ≡ [] }
        ensures calm { result.faults ≡ 0 }
        ensures puts { result.puts.entries ≡ [] }
    {
        GrowingSink {
            bytes: Vec::new(alloc),
            faults: 0,
            puts: Log::new(),
        }
    }

    /// The number of bytes that it holds.
    pub fn len(&self) -> usize
        ensures { result ≡ length self.now.bytes.items }
    {
        self.bytes.len()
    }
}

impl Sink for GrowingSink {
    ghost faults = { λ sink. sink.faults };

    ghost held = { λ sink. Some sink.bytes.items };

    ghost puts = { λ sink. sink.puts.entries };

    /// Returns `Failed` only if memory runs out; then nothing is put.
    #[tactic(auto, unfolding(cool_ports::specs::SinkBytes::appended))]
    fn put(&mut self, bytes: &[u8]) -> Result<(), Failed>
        requires { 0 < length bytes.now }
        ensures put { OnOk result (Some self.new.bytes.items ≡ appended (Some self.old.bytes.items) bytes.now) }
        ensures puts { self.new.puts.entries ≡ self.old.puts.entries ++ bytes.now ∷ [] }
        ensures no_fault { OnOk result (self.new.faults ≡ self.old.faults) }
        ensures failed { OnErr result (Rose self.old.faults self.new.faults) }
        ensures prefix { OnErr result (GotPrefix (Some self.old.bytes.items) bytes.now (Some self.new.bytes.items)) }
        ensures count { GoesOn self.old.faults self.new.faults }
    {
        let faults = self.faults;
        self.puts = self.puts.with(bytes);
        match self.bytes.extend_from_slice(bytes) {
            Ok(()) => Ok(()),
            Err(AllocError) => {
                self.faults = faults.saturating_add(1);
                Err(Failed)
            }
        }
    }
}
