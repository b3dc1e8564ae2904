//! The values of a running program, and objects with their class, identity and locations.

ghost use Rattle.std.specs.Prelude.{◌≡◌, IfOk};
ghost use Rattle.cool_eval.specs.Values.{value_of};

use cool_classes::ClassId;
use std::alloc::{AllocError, Global};
use std::rc::Rc;

/// An object: its class, its identity, and the locations of its attributes, which follow one another.
#[derive(Clone, Copy)]
pub(crate) struct Object {
    pub(crate) class: ClassId,
    pub(crate) identity: u64,
    pub(crate) first: usize,
    pub(crate) count: usize,
}

/// A value. A string is shared by all that hold it. A constant of a tree has 32 bits without a sign, all other numbers 32 with one.
#[derive(Drop)]
pub(crate) enum Value {
    Void,
    Int(i64),
    Bool(bool),
    Str(Rc<Vec<u8>>),
    Object(Object),
}

impl Value {
    /// The same value. Returns `Err` only if memory runs out.
    #[inline(always)]
    pub(crate) fn copy(&self) -> Result<Value, AllocError>
        ensures { IfOk result (λ copy. value_of copy ≡ value_of self.now) }
    {
        Ok(match self {
            Value::Void => Value::Void,
            Value::Int(number) => Value::Int(*number),
            Value::Bool(truth) => Value::Bool(*truth),
            Value::Str(bytes) => Value::Str(bytes.clone()?),
            Value::Object(object) => Value::Object(*object),
        })
    }
}
