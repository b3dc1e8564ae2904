//! `MemShelf` is a file system in memory. A test can order that some of its calls fail.

ghost use Rattle.std.specs.Prelude.{◌≡◌, ℕ, ◌<◌, ◌≤◌, ◌^◌, ◌⊎◌, ◌↔◌, List, [], ◌∷◌, ◌++◌, IfOk, IsErrOf, OnOk, OnErr, Some, vec_len, if◌then◌else◌, bytes_eq};
ghost use Rattle.cool_ports.specs.Counts.{GoesOn, Rose};
ghost use Rattle.cool_ports.specs.ShelfFiles.{MayHold, IsMissing, IsLonger, IsWanting};
ghost use Rattle.cool_ports.specs.MemoryObjects.{no_faults, IsToFail, called, faulted, failing_at};

use crate::fault_schedule::FaultSchedule;
use crate::{Log, Shelf, ShelfFault};
use std::alloc::{AllocError, Global};
use std::collections::BTreeMap;

/// A shelf that keeps its files in memory.
#[derive(Drop)]
pub struct MemShelf {
    alloc: Global,
    contents: BTreeMap<String, Vec<u8>>,
    asked: Log,
    gave: Log,
    schedule: FaultSchedule,
}

impl MemShelf {
    ghost use Rattle.cool_ports.specs.MemoryShelf.{file_of, asked_of, gave_of, schedule_of};

    /// A shelf without files, of which no call is to fail.
    pub fn new(alloc: Global) -> MemShelf
        ensures empty { (name : List ℕ) → file_of result name ≡ None }
        ensures asked { asked_of result ≡ [] }
        ensures gave { gave_of result ≡ [] }
        ensures schedule { schedule_of result ≡ no_faults }
    {
        MemShelf {
            alloc,
            contents: BTreeMap::new(alloc),
            asked: Log::new(),
            gave: Log::new(),
            schedule: FaultSchedule::new(alloc),
        }
    }

    /// Sets one file, in place of one of the same name. Returns `Err` only if memory runs out; then nothing changes.
    pub fn put_file(&mut self, name: &str, bytes: &[u8]) -> Result<(), AllocError>
        ensures ok { OnOk result ((q : List ℕ) → file_of self.new q ≡ (if bytes_eq name.now q then Some bytes.now else file_of self.old q)) }
        ensures err { OnErr result ((q : List ℕ) → file_of self.new q ≡ file_of self.old q) }
        ensures asked { asked_of self.new ≡ asked_of self.old }
        ensures gave { gave_of self.new ≡ gave_of self.old }
        ensures schedule { schedule_of self.new ≡ schedule_of self.old }
    {
        let key = String::from_str(self.alloc, name)?;
        let copy = Vec::from_slice(self.alloc, bytes)?;
        self.contents.insert(key, copy)?;
        Ok(())
    }

    /// Makes the `read` of this number fail, the first being 1. Returns `Err` only if memory runs out; then nothing changes.
    pub fn fail_call(&mut self, number: u64) -> Result<(), AllocError>
        ensures ok { OnOk result (schedule_of self.new ≡ failing_at (schedule_of self.old) number) }
        ensures err { OnErr result (schedule_of self.new ≡ schedule_of self.old) }
        ensures asked { asked_of self.new ≡ asked_of self.old }
        ensures gave { gave_of self.new ≡ gave_of self.old }
        ensures files { (q : List ℕ) → file_of self.new q ≡ file_of self.old q }
    {
        self.schedule.fail_call(number)
    }
}

impl Shelf for MemShelf {
    ghost use Rattle.cool_ports.specs.MemoryShelf.{file_of, asked_of, gave_of, schedule_of};

    ghost faults = { λ shelf. (schedule_of shelf).faults };

    ghost files = { λ shelf. Some (file_of shelf) };

    ghost asked = { λ shelf. asked_of shelf };

    ghost gave = { λ shelf. gave_of shelf };

    /// `Failed` comes exactly where the number of this call was given to `fail_call`.
    fn read(&mut self, alloc: Global, name: &str, most: u64) -> Result<Vec<u8>, ShelfFault>
        requires { most < 2 ^ 40 }
        ensures read { IfOk result (λ bytes. MayHold (Some (file_of self.old)) name.now bytes.items) }
        ensures within { IfOk result (λ bytes. vec_len bytes ≤ most) }
        ensures no_fault { OnOk result ((schedule_of self.new).faults ≡ (schedule_of self.old).faults) }
        ensures missing { IsErrOf result ShelfFault.Missing → IsMissing (Some (file_of self.old)) name.now (schedule_of self.old).faults (schedule_of self.new).faults }
        ensures too_large { IsErrOf result ShelfFault.TooLarge → IsLonger (Some (file_of self.old)) name.now most (schedule_of self.old).faults (schedule_of self.new).faults }
        ensures failed { IsErrOf result ShelfFault.Failed → Rose (schedule_of self.old).faults (schedule_of self.new).faults }
        ensures memory { IsErrOf result ShelfFault.Memory → IsWanting (Some (file_of self.old)) (schedule_of self.old).faults (schedule_of self.new).faults }
        ensures asked { asked_of self.new ≡ asked_of self.old ++ name.now ∷ [] }
        ensures gave { IfOk result (λ bytes. gave_of self.new ≡ gave_of self.old ++ bytes.items ∷ []) }
        ensures nothing_given { OnErr result (gave_of self.new ≡ gave_of self.old) }
        ensures kept { Some (file_of self.new) ≡ Some (file_of self.old) }
        ensures count { GoesOn (schedule_of self.old).faults (schedule_of self.new).faults }
        ensures counted { IsErrOf result ShelfFault.Failed ⊎ (schedule_of self.new ≡ called (schedule_of self.old)) }
        ensures refused { IsErrOf result ShelfFault.Failed → schedule_of self.new ≡ faulted (called (schedule_of self.old)) }
        ensures when { IsErrOf result ShelfFault.Failed ↔ IsToFail (schedule_of self.old) }
    {
        self.asked = self.asked.with(name.as_bytes());
        if self.schedule.begin_call() {
            self.schedule.count_fault();
            return Err(ShelfFault::Failed);
        }
        let Some(bytes) = self.contents.get(name) else {
            return Err(ShelfFault::Missing);
        };
        if bytes.len() as u64 > most {
            return Err(ShelfFault::TooLarge);
        }
        match Vec::from_slice(alloc, bytes) {
            Ok(copy) => {
                self.gave = self.gave.with(&copy);
                Ok(copy)
            }
            Err(_) => Err(ShelfFault::Memory),
        }
    }
}
