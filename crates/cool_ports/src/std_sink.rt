//! `StdSink` implements the trait `Sink` (an output stream) with a writer of the standard library, such as standard output.

ghost use Rattle.std.specs.Prelude.{◌≡◌, ◌<◌, [], ◌∷◌, ◌++◌, length, OnOk, OnErr, Some};
ghost use Rattle.std.specs.List.{concat};
ghost use Rattle.std.specs.Io.KnownBytes.{Appends};
ghost use Rattle.cool_ports.specs.Counts.{GoesOn, Rose};
ghost use Rattle.cool_ports.specs.SinkBytes.{appended, GotPrefix};

use crate::{Failed, Log, Sink};
use std::io;
use std::io::Write;

/// A sink over a writer, as standard output. It tells the bytes that the writer took: those of each put that went well, in order. The writer may have taken
/// a part of a put that failed; the sink does not tell that part. It counts each `Err` as a fault.
#[derive(Drop)]
pub struct StdSink<W> {
    writer: W,
    faults: u64,
    puts: Log,
    taken: Log,
}

impl<W: Write> StdSink<W> {
    /// A sink that hands its bytes to this writer.
    pub fn new(writer: W) -> StdSink<W>
        ensures writer { result.writer ≡ writer }
        ensures faults { ⟦<StdSink<W> as Sink>⟧.faults result ≡ 0 }
        ensures held { ⟦<StdSink<W> as Sink>⟧.held result ≡ Some [] }
        ensures puts { ⟦<StdSink<W> as Sink>⟧.puts result ≡ [] }
    {
        StdSink {
            writer,
            faults: 0,
            puts: Log::new(),
            taken: Log::new(),
        }
    }
}

impl<W: Write> Sink for StdSink<W> {
    ghost faults = { λ sink. sink.faults };

    ghost held = { λ sink. Some (concat sink.taken.entries) };

    ghost puts = { λ sink. sink.puts.entries };

    /// All bytes are handed on before it returns: after those of the writer, where it tells them.
    #[tactic(auto, using(crate::proofs::GettingBytes::taken_more), unfolding(crate::specs::SinkBytes::appended))]
    fn put(&mut self, bytes: &[u8]) -> Result<(), Failed>
        requires { 0 < length bytes.now }
        ensures writes { OnOk result (Appends (W.contents self.old.writer) (W.contents self.new.writer) bytes.now) }
        ensures put { OnOk result (Some (concat self.new.taken.entries) ≡ appended (Some (concat self.old.taken.entries)) bytes.now) }
        ensures puts { self.new.puts.entries ≡ self.old.puts.entries ++ bytes.now ∷ [] }
        ensures no_fault { OnOk result (self.new.faults ≡ self.old.faults) }
        ensures failed { OnErr result (Rose self.old.faults self.new.faults) }
        ensures prefix { OnErr result (GotPrefix (Some (concat self.old.taken.entries)) bytes.now (Some (concat self.new.taken.entries))) }
        ensures not_taken { OnErr result (self.new.taken.entries ≡ self.old.taken.entries) }
        ensures count { GoesOn self.old.faults self.new.faults }
    {
        let faults = self.faults;
        self.puts = self.puts.with(bytes);
        if write_through(&mut self.writer, bytes).is_err() {
            self.faults = faults.saturating_add(1);
            return Err(Failed);
        }
        self.taken = self.taken.with(bytes);
        Ok(())
    }
}

fn write_through<W: Write>(writer: &mut W, bytes: &[u8]) -> io::Result<()>
    ensures { OnOk result (Appends (W.contents writer.old) (W.contents writer.new) bytes.now) }
{
    writer.write_all(bytes)?;
    writer.flush()
}
