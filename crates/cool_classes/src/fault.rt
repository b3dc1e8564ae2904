//! The faults (compile-time errors) of classes and features (the Cool manual, sections 3 to 8, and the limits of this compiler).

use cool_syntax::{Listed, Place};
use std::alloc::AllocError;

/// The reason why there is no table.
#[derive(Drop)]
pub enum TableError {
    /// Want of memory.
    Memory,
    /// The faults of the classes, or where there are none those of the features.
    Faults(Listed<ClassFault>),
}

impl From<AllocError> for TableError {
    ghost use Rattle.std.specs.Prelude.{◌≡◌};
    ghost use Rattle.cool_classes.specs.declared.fault.TableError.TheVariants as error;

    ghost from_gives = { λ _ e. e ≡ error.Memory };

    fn from(_error: AllocError) -> TableError {
        TableError::Memory
    }
}

/// A fault, and the place where it stands.
#[derive(Clone, Copy)]
pub struct ClassFault {
    pub kind: ClassKind,
    pub at: Place,
}

/// A kind of fault. The faults of the classes are C1 to C7, those of their features F1 to F9. A list of faults has only those of the classes, or if there
/// are none those of the features.
#[derive(Clone, Copy, PartialEq, Eq, PartialOrd, Ord)]
pub enum ClassKind {
    /// A class whose name is that of a basic class or of an earlier class. At its name.
    C1,
    /// A class or a parent named `SELF_TYPE`. At that name.
    C2,
    /// A parent that is no class. At the parent's name.
    C3,
    /// The parent Int, Bool or String. At the parent's name.
    C4,
    /// A class whose chain of parents comes back to itself. At its name.
    C5,
    /// No class Main. At the beginning of the first file.
    C6,
    /// The 1,001st class. At its name.
    C7,
    /// A method whose name an earlier method of the class has. At its name.
    F1,
    /// An attribute whose name an earlier attribute of the class or one of a proper ancestor has. At its name.
    F2,
    /// An attribute or a formal named `self`. At its name.
    F3,
    /// A formal whose name an earlier formal of the method has. At its name.
    F4,
    /// A formal of type `SELF_TYPE`. At the type.
    F5,
    /// A type of a formal, a result or an attribute that is no class and not `SELF_TYPE`. At the type.
    F6,
    /// A method with another signature than the nearest one of its name above its class. At its name.
    F7,
    /// A class Main with no method main of its own, or whose first one has formals. At the name Main.
    F8,
    /// A class with over 2,000 attributes or methods, inherited ones too. At its name.
    F9,
}
