//! The exit statuses of a call, and the function that writes a message and returns a status.

ghost use Rattle.std.specs.Prelude.{◌≡◌, ◌≢◌, ◌<◌, ◌≤◌, ◌⊎◌, [], ◌∷◌, ◌++◌, length};
ghost use Rattle.cool_ports.specs.Counts.{Rose};
ghost use Rattle.cool_ports.specs.SinkBytes.{appended, GotPrefix};
ghost use Rattle.cool_sources.specs.Statuses.{code_of};

use cool_ports::{Failed, Sink};
use std::alloc::{AllocError, AllocFailed};

/// The exit status of a call, as for `cool`.
#[derive(Clone, Copy)]
pub enum Status {
    /// The requested output was written.
    Done = 0,
    /// The files have faults.
    Refused = 1,
    /// The words are no command line, or name no file.
    Usage = 2,
    /// A write failed.
    WriteFault = 8,
    /// Memory ran out.
    Memory = 9,
    /// A file was not read, or there are too many.
    FileFault = 10,
}

impl From<AllocError> for Status {
    ghost use Rattle.std.specs.Prelude.{◌≡◌};
    ghost use Rattle.cool_sources.specs.declared.status.Status.TheVariants as ends;

    ghost from_gives = { λ _ e. e ≡ ends.Memory };

    fn from(_error: AllocError) -> Status {
        Status::Memory
    }
}

impl<T: Drop> From<AllocFailed<T>> for Status {
    ghost use Rattle.std.specs.Prelude.{◌≡◌};
    ghost use Rattle.cool_sources.specs.declared.status.Status.TheVariants as ends;

    ghost from_gives = { λ _ e. e ≡ ends.Memory };

    fn from(_error: AllocFailed<T>) -> Status {
        Status::Memory
    }
}

impl Status {
    /// The program's exit status.
    pub fn code(self) -> u8
        ensures { result ≡ code_of self }
    {
        self as u8
    }
}

/// Writes the note of a status at once and answers the status, or that the write failed.
pub fn tell<E: Sink>(notes: &mut E, status: Status, note: &[u8]) -> Status
    requires some { 0 < length note.now }
    requires other { status ≢ Status.WriteFault }
    ensures statuses { (result ≡ status) ⊎ (result ≡ Status.WriteFault) }
    ensures note { result ≢ Status.WriteFault → E.held notes.new ≡ appended (E.held notes.old) note.now }
    ensures no_fault { result ≢ Status.WriteFault → E.faults notes.new ≡ E.faults notes.old }
    ensures write_fault { result ≡ Status.WriteFault → Rose (E.faults notes.old) (E.faults notes.new) }
    ensures prefix { result ≡ Status.WriteFault → GotPrefix (E.held notes.old) note.now (E.held notes.new) }
    ensures no_less { E.faults notes.old ≤ E.faults notes.new }
    ensures put { E.puts notes.new ≡ E.puts notes.old ++ note.now ∷ [] }
{
    match notes.put(note) {
        Ok(()) => status,
        Err(Failed) => Status::WriteFault,
    }
}
