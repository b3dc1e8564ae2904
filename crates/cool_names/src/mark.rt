//! The type `Mark`, an occurrence of a name in the source: its location, its role, and the definition that it refers to.

use cool_syntax::{Bytes, Name, Place};

/// The role of a name where it stands.
#[derive(Clone, Copy)]
pub enum Role {
    /// The name of a class in its definition.
    Class,
    /// The name of a type that the text uses.
    Type,
    /// An attribute in its definition.
    Attribute,
    /// A method in its definition.
    Method,
    /// A formal of a method.
    Formal,
    /// The variable of a `let`.
    Let,
    /// The variable of a branch of a `case`.
    Case,
    /// A variable that is read, or `self`.
    Variable,
    /// A variable that is assigned to.
    Assigned,
    /// A method that is called.
    Call,
}

/// The place of a name's definition.
#[derive(Clone, Copy)]
pub enum Target {
    /// It is not known where, or nowhere.
    Unknown,
    /// In no file: a basic class, a method of one, `self` or `SELF_TYPE`.
    Given,
    /// At this place.
    At(Place),
}

/// The meaning of a name: the type that its definition declares, as a text, and the place of the definition.
#[derive(Drop)]
pub struct Meaning {
    pub declared: Bytes,
    pub target: Target,
}

/// A place where a name stands.
#[derive(Drop)]
pub struct Mark {
    pub at: Place,
    pub role: Role,
    pub name: Name,
    pub meaning: Meaning,
}
