//! References to methods and attributes: a class with the index of a feature in it, or a method of a basic class.

use crate::class_id::ClassId;

/// A method: one of a basic class, or the one at an index among the features of its owner.
#[derive(Clone, Copy)]
pub enum MethodRef {
    /// A method of a basic class.
    Basic(BasicMethod),
    /// The method that stands at this position among the features of its class.
    User { owner: ClassId, index: u32 },
}

/// The attribute at an index among the features of its owner.
#[derive(Clone, Copy)]
pub struct AttributeRef {
    pub owner: ClassId,
    pub index: u32,
}

/// A method of a basic class (the Cool manual, section 8).
#[derive(Clone, Copy)]
pub enum BasicMethod {
    /// `Object.abort() : Object`
    Abort,
    /// `Object.type_name() : String`
    TypeName,
    /// `Object.copy() : SELF_TYPE`
    Copy,
    /// `IO.out_string(x : String) : SELF_TYPE`
    OutString,
    /// `IO.out_int(x : Int) : SELF_TYPE`
    OutInt,
    /// `IO.in_string() : String`
    InString,
    /// `IO.in_int() : Int`
    InInt,
    /// `String.length() : Int`
    Length,
    /// `String.concat(s : String) : String`
    Concat,
    /// `String.substr(i : Int, l : Int) : String`
    Substr,
}
