//! The trait `Source` is an input stream: it gives one byte after another.

ghost use Rattle.std.specs.Prelude.{◌≡◌, ℕ, List, IfOk, OnOk, OnErr, Option};
ghost use Rattle.cool_ports.specs.Answers.{Past, after_answer};
ghost use Rattle.cool_ports.specs.Counts.{GoesOn, Rose};
ghost use Rattle.cool_ports.specs.SourceBytes.{Takes, Spends, HasRoomFor};

use crate::Failed;

/// A place from which bytes are taken, one after another.
pub trait Source {
    /// The number of its failures.
    ghost faults: { Self → ℕ };

    /// The bytes that it has given so far, and how often it has answered that nothing is left.
    ghost past: { Self → Past };

    /// The bytes that are left, where it tells them.
    ghost left: { Self → Option (List ℕ) };

    /// The greatest number of bytes that it can still give.
    ghost room: { Self → ℕ };

    /// Takes the next byte, or answers `None` where nothing is left.
    ///
    /// `Failed` comes only where the count of faults rose; then nothing was given, and the bytes left are as before.
    fn take(&mut self) -> Result<Option<u8>, Failed>
        ensures answered { IfOk result (λ first. past self.new ≡ after_answer (past self.old) first) }
        ensures taken { IfOk result (λ first. Takes (left self.old) first (left self.new)) }
        ensures no_fault { OnOk result (faults self.new ≡ faults self.old) }
        ensures failed { OnErr result (Rose (faults self.old) (faults self.new)) }
        ensures nothing_given { OnErr result (past self.new ≡ past self.old) }
        ensures kept { OnErr result (left self.new ≡ left self.old) }
        ensures count { GoesOn (faults self.old) (faults self.new) }
        ensures room { Spends (room self.old) result (room self.new) };

    /// A told source has room for just the bytes that are left.
    ghost told_room: { (source : Self) → HasRoomFor (left source) (room source) };
}
