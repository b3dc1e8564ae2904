//! `SureSink` is an output stream that discards its bytes and never fails.

ghost use Rattle.std.specs.Prelude.{◌≡◌, ℕ, ◌<◌, List, [], ◌∷◌, ◌++◌, length, IsOk, OnOk, Option, None};
ghost use Rattle.cool_ports.specs.SinkBytes.{appended};

use crate::{Failed, Log, Sink};

/// A sink that throws its bytes away, and never fails. It tells nothing of the bytes that it got.
#[derive(Drop)]
pub struct SureSink {
    puts: Log,
}

impl SureSink {
    /// A sink. Takes no memory.
    pub fn new() -> SureSink
        ensures puts { ⟦<SureSink as Sink>⟧.puts result ≡ [] }
    {
        SureSink { puts: Log::new() }
    }
}

impl Sink for SureSink {
    ghost faults = { λ _. 0 };

    ghost held = { λ _. None };

    ghost puts = { λ sink. sink.puts.entries };

    /// Takes no memory, and never fails.
    #[tactic(auto, unfolding(crate::specs::SinkBytes::appended))]
    fn put(&mut self, bytes: &[u8]) -> Result<(), Failed>
        requires { 0 < length bytes.now }
        ensures put { OnOk result (None ≡ appended None bytes.now) }
        ensures puts { self.new.puts.entries ≡ self.old.puts.entries ++ bytes.now ∷ [] }
        ensures never { IsOk result }
    {
        self.puts = self.puts.with(bytes);
        Ok(())
    }
}
