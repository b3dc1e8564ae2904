//! The types of names and string constants, which own their bytes, and which contracts see as lists of bytes.

ghost use Rattle.std.specs.Prelude.{◌≡◌, ◌≤◌, ◌↔◌, length, bytes_eq, IfOk, IsTrue};
ghost use Rattle.cool_syntax.specs.Spellings.{IsSpelled, spelled};
ghost use Rattle.cool_syntax.specs.declared.text.TheConstants.{MOST_SHORT_NAME};

use std::alloc::{AllocError, Global};
use std::marker::Model;

/// The bytes of a string constant. A contract sees the list of its bytes.
#[derive(Drop)]
pub struct Bytes {
    bytes: Vec<u8>,
}

impl Model for Bytes {
    ghost use Rattle.std.specs.Prelude.{ℕ, List};

    ghost Value = { List ℕ };

    ghost view = { λ s. s.bytes.items };
}

impl Bytes {
    /// A copy of the bytes. Returns `Err` only if memory runs out.
    pub fn new(alloc: Global, bytes: &[u8]) -> Result<Self, AllocError>
        ensures copied { IfOk result (λ copy. copy ≡ bytes.now) }
    {
        Ok(Bytes {
            bytes: Vec::from_slice(alloc, bytes)?,
        })
    }

    /// These bytes. It takes no memory.
    pub fn from_vec(bytes: Vec<u8>) -> Self
        ensures { result ≡ bytes.items }
    {
        Bytes { bytes }
    }

    /// A copy. Returns `Err` only if memory runs out.
    pub fn copy(&self, alloc: Global) -> Result<Self, AllocError>
        ensures copied { IfOk result (λ copy. copy ≡ self.now) }
    {
        Bytes::new(alloc, self.as_slice())
    }

    /// The bytes.
    pub fn as_slice(&self) -> &[u8]
        ensures { result.now ≡ self.now }
    {
        self.bytes.as_slice()
    }
}

/// The most bytes of a name that takes no memory of its own.
pub const MOST_SHORT_NAME: usize = 14;

/// A name takes 16 bytes, plus the box of a long one.
const _: () = prove!(size_of::<Name>() == 16);

/// The name of a class, a feature, a formal or a variable, in 16 bytes: a name of up to `MOST_SHORT_NAME` bytes stands in them, and a longer
/// one in a box. A contract sees the list of its bytes.
#[derive(Drop)]
pub struct Name {
    spelling: Spelling,
}

/// The bytes of a name.
#[derive(Drop)]
enum Spelling {
    /// The first bytes, this many, of these.
    Short {
        count: u8,
        bytes: [u8; MOST_SHORT_NAME],
    },
    /// All of these.
    Long(Box<Vec<u8>>),
}

impl Model for Name {
    ghost use Rattle.std.specs.Prelude.{ℕ, List};

    ghost Value = { List ℕ };

    ghost use Rattle.cool_syntax.specs.Spellings.{IsSpelled, spelled};

    ghost view = { λ name. spelled name.spelling };

    ghost invariant = { λ name. IsSpelled name.spelling };
}

impl Name {
    /// A copy of the bytes of the name. Returns `Err` only if memory runs out.
    pub fn new(alloc: Global, bytes: &[u8]) -> Result<Self, AllocError>
        ensures copied { IfOk result (λ name. name ≡ bytes.now) }
    {
        let spelling = if bytes.len() <= MOST_SHORT_NAME {
            short(bytes)
        } else {
            Spelling::Long(Box::new(alloc, Vec::from_slice(alloc, bytes)?)?)
        };
        Ok(Name { spelling })
    }

    /// A copy. Returns `Err` only if memory runs out.
    pub fn copy(&self, alloc: Global) -> Result<Self, AllocError>
        ensures copied { IfOk result (λ copy. copy ≡ self.now) }
    {
        Name::new(alloc, self.as_slice())
    }

    /// The bytes of the name.
    pub fn as_slice(&self) -> &[u8]
        ensures { result.now ≡ self.now }
    {
        match &self.spelling {
            Spelling::Short { count, bytes } => &bytes[..usize::from(*count)],
            Spelling::Long(bytes) => bytes.as_slice(),
        }
    }

    /// Whether this is the other name: two short ones are compared as a few words, at once.
    #[inline(always)]
    pub fn is(&self, other: &Name) -> bool
        ensures { result ≡ bytes_eq self.now other.now }
    {
        match (&self.spelling, &other.spelling) {
            (
                Spelling::Short { count, bytes },
                Spelling::Short {
                    count: other_count,
                    bytes: other_bytes,
                },
            ) => count == other_count && same_room(bytes, other_bytes),
            _ => self.as_slice() == other.as_slice(),
        }
    }
}

/// Whether two names are one.
pub fn same_name(a: &Name, b: &Name) -> bool
    ensures same { IsTrue result ↔ (a.now ≡ b.now) }
{
    a.is(b)
}

/// Whether two rooms hold the same, word by word: as slices of some length they would be compared by a call.
#[inline(always)]
fn same_room(a: &[u8; MOST_SHORT_NAME], b: &[u8; MOST_SHORT_NAME]) -> bool
    ensures { result ≡ bytes_eq a.now b.now }
{
    let fronts = (a.first_chunk::<8>(), b.first_chunk::<8>());
    let backs = (a.last_chunk::<6>(), b.last_chunk::<6>());
    match (fronts, backs) {
        ((Some(a_front), Some(b_front)), (Some(a_back), Some(b_back))) => {
            a_front == b_front && a_back == b_back
        }
        _ => a == b,
    }
}

/// A name of few bytes.
fn short(bytes: &[u8]) -> Spelling
    requires { length bytes.now ≤ MOST_SHORT_NAME }
    ensures held { IsSpelled result }
    ensures copied { spelled result ≡ bytes.now }
{
    let mut copy = [0; MOST_SHORT_NAME];
    copy[..bytes.len()].copy_from_slice(bytes);
    Spelling::Short {
        count: bytes.len() as u8,
        bytes: copy,
    }
}
