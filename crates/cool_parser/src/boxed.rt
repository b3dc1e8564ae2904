//! A value in a box (an allocation of its own), which contracts see as the value.

ghost use Rattle.std.specs.Prelude.{◌≡◌, IfOk};

use std::alloc::{AllocError, Global};
use std::marker::Model;

/// A value in a box: its owner is moved at each token, and so moves only an address. A contract sees the value.
#[derive(Drop)]
pub(crate) struct Boxed<T> {
    pub(crate) inner: Box<T>,
}

impl<T> Model for Boxed<T> {
    ghost Value = { T };

    ghost view = { λ b. b.inner.value };
}

impl<T: Drop> Boxed<T> {
    /// The value in a box of its own. Returns `Err` only if memory runs out; then the value is dropped.
    pub(crate) fn new(alloc: Global, value: T) -> Result<Boxed<T>, AllocError>
        ensures { IfOk result (λ boxed. boxed ≡ value) }
    {
        Ok(Boxed {
            inner: Box::new(alloc, value)?,
        })
    }

    /// The value. Its box is let go.
    pub(crate) fn into_inner(self) -> T
        ensures { result ≡ self }
    {
        let Boxed { inner } = self;
        Box::into_inner(inner)
    }
}
