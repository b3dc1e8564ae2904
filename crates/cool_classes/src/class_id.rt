//! The type `ClassId`, the number of a class in the class table, and the type `Ty` of Cool types: a class or `SELF_TYPE`.

/// The number of a class in its table, from 0.
///
/// The five basic classes have the first numbers (the Cool manual, section 8). The classes of the program follow in the
/// order of files and text.
#[derive(Clone, Copy, PartialEq, Eq)]
pub struct ClassId(pub u32);

/// The class Object, the root of all chains of parents.
pub const OBJECT: ClassId = ClassId(0);

/// The class IO.
pub const IO: ClassId = ClassId(1);

/// The class Int.
pub const INT: ClassId = ClassId(2);

/// The class Bool.
pub const BOOL: ClassId = ClassId(3);

/// The class String.
pub const STRING: ClassId = ClassId(4);

/// A type (the Cool manual, section 4): a class, or `SELF_TYPE`.
#[derive(Clone, Copy)]
pub enum Ty {
    /// The class of this number.
    Class(ClassId),
    /// The class of the object itself.
    SelfType,
}
