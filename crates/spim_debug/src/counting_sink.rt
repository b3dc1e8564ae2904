//! An output stream (sink) that passes its bytes to another output stream and counts them.

ghost use Rattle.std.specs.Prelude.{◌≡◌, ◌++◌, ◌∷◌, [], length};
ghost use Rattle.std.specs.List.{concat};
ghost use Rattle.spim_debug.specs.ByteCounts.{counted};

use cool_ports::{Failed, Log, Sink};
use std::marker::Model;

/// The number of bytes named by puts, up to the largest number. A contract sees the puts.
#[derive(Drop)]
pub struct ByteCount {
    puts: Log,
    bytes: u64,
}

impl Model for ByteCount {
    ghost use Rattle.std.specs.Prelude.{◌≡◌, ℕ, List, length};
    ghost use Rattle.std.specs.List.{concat};
    ghost use Rattle.spim_debug.specs.ByteCounts.{counted};

    ghost Value = { List (List ℕ) };

    ghost view = { λ c. c.puts.entries };

    ghost invariant = { λ c. c.bytes ≡ counted (length (concat c.puts.entries)) };
}

impl ByteCount {
    /// No put.
    pub fn new() -> ByteCount
        ensures { result ≡ [] }
    {
        ByteCount {
            puts: Log::new(),
            bytes: 0,
        }
    }

    /// One more put, of these bytes.
    pub fn add(&mut self, bytes: &[u8])
        ensures { self.new ≡ self.old ++ bytes.now ∷ [] }
    {
        self.puts = self.puts.with(bytes);
        self.bytes = self.bytes.saturating_add(bytes.len() as u64);
    }

    /// The number of bytes that the puts named.
    pub fn bytes(&self) -> u64
        ensures { result ≡ counted (length (concat self.now)) }
    {
        self.bytes
    }
}

/// Another sink, which is lent, and the number of bytes that were put into it.
#[derive(Drop)]
pub struct CountingSink<'a, K> {
    sink: &'a mut K,
    count: ByteCount,
}

impl<'a, K: Sink> CountingSink<'a, K> {
    /// Before any put.
    pub fn new(sink: &'a mut K) -> CountingSink<'a, K>
        ensures same_reference { result.sink.ghost_name ≡ sink.entry.ghost_name }
        ensures sink { result.sink.now ≡ sink.old }
        ensures none { result.count ≡ [] }
    {
        CountingSink {
            sink,
            count: ByteCount::new(),
        }
    }

    /// The number of bytes that were put.
    pub fn bytes(&self) -> u64
        ensures { result ≡ counted (length (concat self.now.count)) }
    {
        self.count.bytes()
    }
}

impl<K: Sink> Sink for CountingSink<'_, K> {
    ghost use Rattle.std.specs.Prelude.{◌∷◌, []};

    ghost faults = { λ w. K.faults w.sink.now };

    ghost held = { λ w. K.held w.sink.now };

    // The number of the reference stands first: a run only adds puts, so a caller knows that it still lends from the same sink.
    ghost puts = { λ w. (w.sink.ghost_name ∷ []) ∷ w.count };

    fn put(&mut self, bytes: &[u8]) -> Result<(), Failed> {
        self.count.add(bytes);
        self.sink.put(bytes)
    }
}
