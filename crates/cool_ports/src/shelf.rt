//! The trait `Shelf` is a file system: it reads files by name.

ghost use Rattle.std.specs.Prelude.{◌≡◌, ℕ, ◌<◌, ◌≤◌, ◌^◌, List, [], ◌∷◌, ◌++◌, vec_len, IfOk, OnOk, OnErr, IsErrOf, Option};
ghost use Rattle.cool_ports.specs.Counts.{GoesOn, Rose};
ghost use Rattle.cool_ports.specs.ShelfFiles.{FileMap, MayHold, IsMissing, IsLonger, IsWanting};

use std::alloc::Global;

/// The reason why a file was not read.
#[derive(Clone, Copy)]
pub enum ShelfFault {
    /// There is no such file.
    Missing,
    /// The file could not be read.
    Failed,
    /// The file has more bytes than were asked for.
    TooLarge,
    /// Memory ran out.
    Memory,
}

/// A place of files, each under its name.
pub trait Shelf {
    /// The number of its failures.
    ghost faults: { Self → ℕ };

    /// Its files, where it tells them. No call changes them.
    ghost files: { Self → Option FileMap };

    /// The names that it was asked for, one for each read, those that failed among them.
    ghost asked: { Self → List (List ℕ) };

    /// The bytes of each file that it gave, in order: a list for each read that was Ok.
    ghost gave: { Self → List (List ℕ) };

    /// All bytes of the file of this name; they are at most `most`.
    ///
    /// `Missing` comes exactly where the told map lacks the name and the call did not fail, `TooLarge` exactly where the told file is longer than `most`
    /// and the call did not fail. Where the map is not told, both come only where the count of faults rose, and so does `Failed` always. `Memory` comes
    /// only if memory runs out: the count did not rise if the map is told, and it rose if not.
    fn read(&mut self, alloc: Global, name: &str, most: u64) -> Result<Vec<u8>, ShelfFault>
        requires { most < 2 ^ 40 }
        ensures read { IfOk result (λ bytes. MayHold (files self.old) name.now bytes.items) }
        ensures within { IfOk result (λ bytes. vec_len bytes ≤ most) }
        ensures no_fault { OnOk result (faults self.new ≡ faults self.old) }
        ensures missing { IsErrOf result ShelfFault.Missing → IsMissing (files self.old) name.now (faults self.old) (faults self.new) }
        ensures too_large { IsErrOf result ShelfFault.TooLarge → IsLonger (files self.old) name.now most (faults self.old) (faults self.new) }
        ensures failed { IsErrOf result ShelfFault.Failed → Rose (faults self.old) (faults self.new) }
        ensures memory { IsErrOf result ShelfFault.Memory → IsWanting (files self.old) (faults self.old) (faults self.new) }
        ensures asked { asked self.new ≡ asked self.old ++ name.now ∷ [] }
        ensures gave { IfOk result (λ bytes. gave self.new ≡ gave self.old ++ bytes.items ∷ []) }
        ensures nothing_given { OnErr result (gave self.new ≡ gave self.old) }
        ensures kept { files self.new ≡ files self.old }
        ensures count { GoesOn (faults self.old) (faults self.new) };
}
