//! The syntax tree of a source file: its classes with their features (the Cool manual, section 11).

use crate::body::Body;
use crate::listed::Listed;
use crate::place::Place;
use crate::text::Name;
use crate::type_ref::TypeRef;

/// A formal parameter of a method: `name : declared`, at the place of its name.
#[derive(Drop)]
pub struct Formal {
    pub name: Name,
    pub at: Place,
    pub declared: TypeRef,
}

/// A method: `name(formals) : result { body };`, at the place of its name.
#[derive(Drop)]
pub struct MethodDef {
    pub name: Name,
    pub at: Place,
    pub formals: Listed<Formal>,
    pub result: TypeRef,
    pub body: Body,
}

/// An attribute: `name : declared <- init;`, or with no value of its own. It is at the place of its name.
#[derive(Drop)]
pub struct AttributeDef {
    pub name: Name,
    pub at: Place,
    pub declared: TypeRef,
    pub init: Option<Body>,
}

/// A feature of a class.
#[derive(Drop)]
pub enum Feature {
    Method(MethodDef),
    Attribute(AttributeDef),
}

/// A class: `class name inherits parent { features };`, or with no parent named. It is at the place of its name.
#[derive(Drop)]
pub struct ClassDef {
    pub name: Name,
    pub at: Place,
    pub parent: Option<TypeRef>,
    pub features: Listed<Feature>,
}

/// The classes of one source file, in order. The file is named by its position in the command, from 0.
#[derive(Drop)]
pub struct FileTree {
    pub file: u32,
    pub classes: Listed<ClassDef>,
}
