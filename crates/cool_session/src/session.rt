//! A session: source files that are held by name and can be set, removed and checked.

ghost use Rattle.std.specs.Prelude.{◌≡◌, ◌≤◌, ◌<◌, [], length, replicate, None, IfOk, IfSome, IfNone, OnOk, OnErr};
ghost use Rattle.std.specs.List.{AllByRecursion};
ghost use Rattle.cool_syntax.specs.declared.TheConstants.{MOST_FILES, MOST_SOURCE_BYTES};
ghost use Rattle.cool_syntax.specs.TokenFacts.{IsPlaced};
ghost use Rattle.cool_faults.specs.Files.{bytes_of, total};
ghost use Rattle.cool_faults.specs.Verdicts.{IsFaultList, place_of};
ghost use Rattle.cool_session.specs.Files.{files_set, IsSetAnswer, length_at, names_of, names_set, position, set_room, without};
ghost use Rattle.cool_session.specs.Fresh.{Types};
ghost use Rattle.cool_session.specs.PresentFiles.{IsOfPresent};
ghost use Rattle.cool_session.specs.NewFeatures.{base_seen, calls_after, IsAskedWithin};

use crate::base::Base;
use crate::edited::check_edited;
use crate::error::SetError;
use crate::fault_list::fault_list;
use crate::files::{place_for, position, position_to_set};
use crate::known::known;
use crate::renewal::{renew, used};
use crate::reply::Reply;
use cool_check::Typer;
use cool_faults::{ClassVerdict, class_phase};
use std::alloc::{AllocError, Global};

/// Files by name, in order: at most 64, of at most 1,048,576 bytes together.
#[derive(Drop)]
pub struct Session {
    alloc: Global,
    names: Vec<String>,
    files: Vec<Vec<u8>>,
    base: Option<Base>,
    is_current: bool,
    ghost paired: { length names.items ≡ length files.items },
    ghost few: { length files.items ≤ MOST_FILES },
    ghost small: { total (bytes_of files.items) ≤ MOST_SOURCE_BYTES },
    ghost current: { ∥ IsOfPresent is_current (bytes_of files.items) base ∥₁ },
}

impl Session {
    /// A session with no file.
    pub fn new(alloc: Global) -> Session
        ensures names { result.names.items ≡ [] }
        ensures files { result.files.items ≡ [] }
        ensures base { result.base ≡ None }
    {
        Session {
            alloc,
            names: Vec::new(alloc),
            files: Vec::new(alloc),
            base: None,
            is_current: false,
        }
    }

    /// The names of the files, in order.
    pub fn names(&self) -> &[String]
        ensures { result.now ≡ self.now.names.items }
    {
        self.names.as_slice()
    }

    /// The number of bytes in the file of this name. Returns `None` exactly if the name is not held. It takes no memory.
    pub fn held(&self, name: &str) -> Option<u64>
        ensures { result ≡ length_at (bytes_of self.now.files.items) (position (names_of self.now.names.items) name.now) }
    {
        match position(self.names.as_slice(), name) {
            Some(k) => Some(self.files[k].len() as u64),
            None => None,
        }
    }

    /// Sets the file of this name: a name that is held keeps its position, and another goes last.
    ///
    /// Returns `Err(TooMany)` exactly if more than 64 files would be held, and `Err(TooLarge)` where not and more than 1,048,576 bytes would. Returns
    /// `Err(Memory)` only if memory runs out. Any `Err` leaves the files as they are, and the base stays in any case.
    pub fn set_file(&mut self, name: &str, bytes: &[u8]) -> Result<(), SetError>
        ensures names { OnOk result (names_of self.new.names.items ≡ names_set (names_of self.old.names.items) name.now) }
        ensures files { OnOk result (bytes_of self.new.files.items ≡ files_set (names_of self.old.names.items) (bytes_of self.old.files.items) name.now bytes.now) }
        ensures names_kept { OnErr result (self.new.names.items ≡ self.old.names.items) }
        ensures files_kept { OnErr result (self.new.files.items ≡ self.old.files.items) }
        ensures base { self.new.base ≡ self.old.base }
        ensures answer { IsSetAnswer (set_room (names_of self.old.names.items) (bytes_of self.old.files.items) name.now bytes.now) result }
    {
        let place = position_to_set(self.names.as_slice(), self.files.as_slice(), name, bytes)?;
        let file = Vec::from_slice(self.alloc, bytes)?;
        match place {
            Some(k) => {
                self.is_current = false;
                self.files[k] = file;
            }
            None => {
                let name = String::from_str(self.alloc, name)?;
                self.names.reserve(1)?;
                self.files.reserve(1)?;
                self.is_current = false;
                self.names.push(name).unwrap();
                self.files.push(file).unwrap();
            }
        }
        Ok(())
    }

    /// Takes the file of this name away, where it is held. It takes no memory.
    pub fn drop_file(&mut self, name: &str)
        ensures names { names_of self.new.names.items ≡ without (position (names_of self.old.names.items) name.now) (names_of self.old.names.items) }
        ensures files { bytes_of self.new.files.items ≡ without (position (names_of self.old.names.items) name.now) (bytes_of self.old.files.items) }
        ensures base { self.new.base ≡ self.old.base }
    {
        if let Some(k) = position(self.names.as_slice(), name) {
            self.is_current = false;
            self.names.remove(k);
            self.files.remove(k);
        }
    }

    /// Whether there is room for a file of this name with so many bytes: the result that `set_file` returns for any bytes of that number, unless memory
    /// runs out.
    pub fn has_room(&self, name: &str, size: u64) -> Result<(), SetError>
        ensures { result ≡ set_room (names_of self.now.names.items) (bytes_of self.now.files.items) name.now (replicate size 0) }
    {
        place_for(self.names.as_slice(), self.files.as_slice(), name, size)?;
        Ok(())
    }

    /// Checks the files as they are, of which there is one at least: their fault list, and how many features were typed anew.
    ///
    /// Only features are typed that are not kept of the last check that came to type any: one is kept where the signatures of all classes are those of that
    /// check, and its tokens are those of the feature at the same position there. Returns `Err` only if memory runs out, and then changes nothing.
    pub fn check<K: Typer>(&mut self, typer: &mut K) -> Result<Reply, AllocError>
        requires { 0 < length self.old.files.items }
        ensures names { self.new.names.items ≡ self.old.names.items }
        ensures files { self.new.files.items ≡ self.old.files.items }
        ensures faults { IfOk result (λ reply. IsFaultList (bytes_of self.old.files.items) reply.faults.items) }
        ensures placed { IfOk result (λ reply. AllByRecursion (λ f. IsPlaced (length self.old.files.items) (place_of f)) reply.faults.items) }
        ensures typed { IfOk result (λ reply. Types (bytes_of self.old.files.items) (base_seen self.old.base) reply.typed (base_seen self.new.base)) }
        ensures asked { IfOk result (λ reply. K.calls typer.new ≡ calls_after reply.typed (K.calls typer.old)) }
        ensures most { OnErr result (IsAskedWithin (bytes_of self.old.files.items) (base_seen self.old.base) (K.calls typer.old) (K.calls typer.new)) }
        ensures kept { OnErr result (self.new.base ≡ self.old.base) }
    {
        match self.check_by_base(typer)? {
            Some(reply) => Ok(reply),
            None => self.check_anew(typer),
        }
    }

    /// Checks the files where no more than one feature, which declares what it declared, was edited since the last check that came to type any. `None`
    /// comes elsewhere, and changes nothing. Returns `Err` only if memory runs out, and then changes nothing.
    fn check_by_base<K: Typer>(&mut self, typer: &mut K) -> Result<Option<Reply>, AllocError>
        requires { 0 < length self.old.files.items }
        ensures names { self.new.names.items ≡ self.old.names.items }
        ensures files { self.new.files.items ≡ self.old.files.items }
        ensures faults { IfOk result (λ reply. IfSome reply (λ r. IsFaultList (bytes_of self.old.files.items) r.faults.items)) }
        ensures placed { IfOk result (λ reply. IfSome reply (λ r. AllByRecursion (λ f. IsPlaced (length self.old.files.items) (place_of f)) r.faults.items)) }
        ensures typed { IfOk result (λ reply. IfSome reply (λ r. Types (bytes_of self.old.files.items) (base_seen self.old.base) r.typed (base_seen self.new.base))) }
        ensures asked { IfOk result (λ reply. IfSome reply (λ r. K.calls typer.new ≡ calls_after r.typed (K.calls typer.old))) }
        ensures other { IfOk result (λ reply. IfNone reply (self.new.base ≡ self.old.base)) }
        ensures unasked { IfOk result (λ reply. IfNone reply (K.calls typer.new ≡ K.calls typer.old)) }
        ensures most { OnErr result (IsAskedWithin (bytes_of self.old.files.items) (base_seen self.old.base) (K.calls typer.old) (K.calls typer.new)) }
        ensures kept { OnErr result (self.new.base ≡ self.old.base) }
    {
        let Some(base) = &mut self.base else {
            return Ok(None);
        };
        if self.is_current {
            return Ok(Some(known(self.alloc, base)?));
        }
        let reply = check_edited(self.alloc, typer, base, self.files.as_slice())?;
        self.is_current = reply.is_some();
        Ok(reply)
    }

    /// Checks the files from their bytes on; features are kept as `check` says.
    fn check_anew<K: Typer>(&mut self, typer: &mut K) -> Result<Reply, AllocError>
        requires { 0 < length self.old.files.items }
        ensures names { self.new.names.items ≡ self.old.names.items }
        ensures files { self.new.files.items ≡ self.old.files.items }
        ensures faults { IfOk result (λ reply. IsFaultList (bytes_of self.old.files.items) reply.faults.items) }
        ensures placed { IfOk result (λ reply. AllByRecursion (λ f. IsPlaced (length self.old.files.items) (place_of f)) reply.faults.items) }
        ensures typed { IfOk result (λ reply. Types (bytes_of self.old.files.items) (base_seen self.old.base) reply.typed (base_seen self.new.base)) }
        ensures asked { IfOk result (λ reply. K.calls typer.new ≡ calls_after reply.typed (K.calls typer.old)) }
        ensures most { OnErr result (IsAskedWithin (bytes_of self.old.files.items) (base_seen self.old.base) (K.calls typer.old) (K.calls typer.new)) }
        ensures kept { OnErr result (self.new.base ≡ self.old.base) }
    {
        match class_phase(self.alloc, self.files.as_slice())? {
            ClassVerdict::Refused(faults) => Ok(Reply {
                faults: faults.into_vec(),
                typed: 0,
            }),
            ClassVerdict::Untyped(now) => {
                let renewed = renew(self.alloc, typer, used(&self.base, &now.classes), &now)?;
                let faults = fault_list(
                    self.alloc,
                    now.lexed.as_slice(),
                    renewed.faults.as_slice(),
                )?;
                let base = Base {
                    untyped: now,
                    faults: renewed.faults,
                };
                self.base = Some(base);
                self.is_current = true;
                Ok(Reply {
                    faults,
                    typed: renewed.asked,
                })
            }
        }
    }
}
