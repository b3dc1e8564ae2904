//! The names of labels in assembly, stored without allocation if they are short.

ghost use Rattle.std.specs.Prelude.{◌≡◌, ◌≤◌, length, IfOk, IsOk};
ghost use Rattle.mips_isa.specs.Spellings.{IsSpelled, spelled};
ghost use Rattle.mips_isa.specs.declared.label.TheConstants.{MOST_SHORT_NAME};

use std::alloc::{AllocError, Global};
use std::marker::Model;

/// The most bytes of a name that takes no memory of its own.
pub const MOST_SHORT_NAME: usize = 14;

/// A label takes 16 bytes, and the box of a long name.
const _: () = prove!(size_of::<Label>() == 16);

/// The name of a place, in 16 bytes: a name of up to `MOST_SHORT_NAME` bytes stands in them, and a longer one in a box. A contract sees
/// the list of its bytes.
#[derive(Drop)]
pub struct Label {
    name: Spelling,
}

/// The bytes of a name.
#[derive(Drop)]
enum Spelling {
    /// The first bytes, this many, of these.
    Short {
        count: u8,
        bytes: [u8; MOST_SHORT_NAME],
    },
    /// All of these.
    Long(Box<Vec<u8>>),
}

impl Model for Label {
    ghost use Rattle.std.specs.Prelude.{ℕ, List};

    ghost Value = { List ℕ };

    ghost use Rattle.mips_isa.specs.Spellings.{IsSpelled, spelled};

    ghost view = { λ label. spelled label.name };

    ghost invariant = { λ label. IsSpelled label.name };
}

impl Label {
    /// A copy of the bytes of the name. Returns `Err` only if memory runs out, and never for a name of up to `MOST_SHORT_NAME` bytes.
    pub fn new(alloc: Global, bytes: &[u8]) -> Result<Self, AllocError>
        ensures copied { IfOk result (λ label. label ≡ bytes.now) }
        ensures short { length bytes.now ≤ MOST_SHORT_NAME → IsOk result }
    {
        let name = if bytes.len() <= MOST_SHORT_NAME {
            short(bytes)
        } else {
            Spelling::Long(Box::new(alloc, Vec::from_slice(alloc, bytes)?)?)
        };
        Ok(Label { name })
    }

    /// The bytes of the name.
    pub fn as_slice(&self) -> &[u8]
        ensures { result.now ≡ self.now }
    {
        match &self.name {
            Spelling::Short { count, bytes } => &bytes[..usize::from(*count)],
            Spelling::Long(bytes) => bytes.as_slice(),
        }
    }
}

/// A name of few bytes.
fn short(bytes: &[u8]) -> Spelling
    requires { length bytes.now ≤ MOST_SHORT_NAME }
    ensures held { IsSpelled result }
    ensures copied { spelled result ≡ bytes.now }
{
    let mut copy = [0; MOST_SHORT_NAME];
    copy[..bytes.len()].copy_from_slice(bytes);
    Spelling::Short {
        count: bytes.len() as u8,
        bytes: copy,
    }
}
