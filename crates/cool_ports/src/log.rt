//! `Log` records, for contracts only, the bytes that each call of an object named, such as the name of the file to read or the bytes to write.

ghost use Rattle.std.specs.Prelude.{◌≡◌, ℕ, List, [], ◌∷◌, ◌++◌};
ghost use Rattle.std.specs.Borrow.{ftrue};

use std::marker::Model;

/// The bytes that each call of an object named, in order. It has no bytes of its own, and its functions do nothing when
/// they run.
#[derive(Drop)]
pub struct Log {
    pub ghost entries: { List (List ℕ) },
}

impl Model for Log {
    ghost also_owns = { λ _. ftrue };
}

impl Log {
    /// Nothing was called.
    pub fn new() -> Log
        ensures { result.entries ≡ [] }
    {
        Log {}
    }

    /// With one more call, which named these bytes.
    pub fn with(&self, _bytes: &[u8]) -> Log
        ensures { result.entries ≡ self.now.entries ++ _bytes.now ∷ [] }
    {
        Log {}
    }
}
