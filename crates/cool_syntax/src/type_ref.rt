//! A type name where the source uses it, with its source location.

ghost use Rattle.std.specs.Prelude.{◌≡◌, IfOk};

use crate::place::Place;
use crate::text::Name;
use std::alloc::{AllocError, Global};

/// The name of a type where the source uses it, and the place of that name.
///
/// The name is that of a class or `SELF_TYPE` (the Cool manual, section 11). Whether there is such a class is not known
/// here.
#[derive(Drop)]
pub struct TypeRef {
    pub name: Name,
    pub at: Place,
}

impl TypeRef {
    /// A copy. Returns `Err` only if memory runs out.
    pub fn copy(&self, alloc: Global) -> Result<TypeRef, AllocError>
        ensures copied { IfOk result (λ copy. copy ≡ self.now) }
    {
        Ok(TypeRef {
            name: self.name.copy(alloc)?,
            at: self.at,
        })
    }
}
