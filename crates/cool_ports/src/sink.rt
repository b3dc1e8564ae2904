//! The trait `Sink` is an output stream: it writes bytes.

ghost use Rattle.std.specs.Prelude.{◌≡◌, ℕ, ◌<◌, List, [], ◌∷◌, ◌++◌, length, OnOk, OnErr, Option};
ghost use Rattle.cool_ports.specs.Counts.{GoesOn, Rose};
ghost use Rattle.cool_ports.specs.SinkBytes.{appended, GotPrefix};

use crate::Failed;

/// A place where bytes are put, in order.
pub trait Sink {
    /// The number of its failures.
    ghost faults: { Self → ℕ };

    /// The bytes that it holds, where it tells them.
    ghost held: { Self → Option (List ℕ) };

    /// The bytes that it was given to put, a list for each put, including those that failed.
    ghost puts: { Self → List (List ℕ) };

    /// Puts the bytes after those that it holds.
    ///
    /// `Failed` comes only where the count of faults rose; then a prefix of the bytes was put.
    fn put(&mut self, bytes: &[u8]) -> Result<(), Failed>
        requires { 0 < length bytes.now }
        ensures put { OnOk result (held self.new ≡ appended (held self.old) bytes.now) }
        ensures puts { puts self.new ≡ puts self.old ++ bytes.now ∷ [] }
        ensures no_fault { OnOk result (faults self.new ≡ faults self.old) }
        ensures failed { OnErr result (Rose (faults self.old) (faults self.new)) }
        ensures prefix { OnErr result (GotPrefix (held self.old) bytes.now (held self.new)) }
        ensures count { GoesOn (faults self.old) (faults self.new) };
}
