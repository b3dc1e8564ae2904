//! The texts of a program's messages on invalid arguments and on files that could not be read.

ghost use Rattle.std.specs.Prelude.{◌≡◌, ◌++◌, ℕ, List, codes, IfOk};
ghost use Rattle.cool_faults.specs.Shown.{shown};
ghost use Rattle.cool_sources.specs.Notes.{AreNotes, file_note, note_text};

use cool_faults::shown;
use cool_ports::ShelfFault;
use std::alloc::{AllocError, Global};

/// The notes of a program that need no memory, and its name.
#[derive(Clone, Copy)]
pub struct Notes {
    /// The name of the program.
    pub program: &'static [u8],
    /// The note on arguments that are not a valid command line.
    pub usage: &'static [u8],
    /// The note on too many files.
    pub too_many: &'static [u8],
    /// The note on files that are too large.
    pub too_large: &'static [u8],
}

/// A note.
#[derive(Drop)]
pub enum Note {
    /// A fixed text, or none.
    Fixed(&'static [u8]),
    /// A text with the name of a file.
    Made(Vec<u8>),
}

impl Note {
    /// The bytes of the note.
    pub fn bytes(&self) -> &[u8]
        ensures { result.now ≡ note_text self.now }
    {
        match self {
            Note::Fixed(bytes) => bytes,
            Note::Made(bytes) => bytes,
        }
    }
}

/// The note on the file of this name at which reading stopped, by the cause. Returns `Err` only if memory runs out.
pub fn file_note(
    alloc: Global,
    notes: &Notes,
    name: &str,
    fault: ShelfFault,
) -> Result<Note, AllocError>
    ensures { (program : List ℕ) → AreNotes program notes.now → IfOk result (λ note. note_text note ≡ file_note program name.now fault) }
{
    match fault {
        ShelfFault::Missing => Ok(Note::Made(named(alloc, notes, name, b": missing\n")?)),
        ShelfFault::Failed => Ok(Note::Made(named(alloc, notes, name, b": read failed\n")?)),
        ShelfFault::TooLarge => Ok(Note::Fixed(notes.too_large)),
        ShelfFault::Memory => Err(AllocError),
    }
}

/// The name of the program, the name of a file as it is shown, and these words. Returns `Err` only if memory runs out.
fn named(alloc: Global, notes: &Notes, name: &str, words: &[u8]) -> Result<Vec<u8>, AllocError>
    ensures { IfOk result (λ text. text.items ≡ notes.now.program.now ++ (codes ": " ++ (shown name.now ++ words.now))) }
{
    let mut text = Vec::from_slice(alloc, notes.program)?;
    text.extend_from_slice(b": ")?;
    text.extend_from_slice(&shown(alloc, name.as_bytes())?)?;
    text.extend_from_slice(words)?;
    Ok(text)
}
