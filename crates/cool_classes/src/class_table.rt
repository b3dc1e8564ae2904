//! The type `ClassTable`: the classes of a program by number, with look-ups of classes, methods and attributes.

ghost use Rattle.std.specs.Prelude.{◌≡◌, ◌+◌, ◌<◌, ◌↔◌, IsTrue, IfSome, IfNone, IfOk, Some, List, [], length, get_or, IsSome};
ghost use Rattle.cool_classes.specs.declared.class_id.ClassId as number;
ghost use Rattle.cool_classes.specs.Bodies.{body_at, with_body_at, with_feature_at};
ghost use Rattle.cool_classes.specs.Declarations.{IsDeclaredBy};
ghost use Rattle.cool_classes.specs.Chains.{IsChain, Below, IsJoin, name_of, parent_of, features_of};
ghost use Rattle.std.specs.List.{AllByRecursion, slice_get};
ghost use Rattle.cool_classes.specs.Features.{implementation, attributes_of, attribute_name, attribute_type, HasAttribute, HasMethod, Denotes, formals_of, result_of};
ghost use Rattle.cool_classes.specs.LawfulTables.{IsLawful};
ghost use Rattle.cool_classes.specs.Tables.{IsTable, IsWholeTable, IsNamed};
ghost use Rattle.cool_classes.specs.Entries.{classes};
ghost use Rattle.cool_classes.specs.OwnNames.{IsIndexed};

use crate::class_id::{ClassId, Ty};
use crate::entry::Entry;
use crate::first_names::FirstNames;
use crate::method::{AttributeRef, MethodRef};
use crate::own_names::OwnNames;
use crate::{attributes, bodies, climbing, lookup, signature};
use cool_syntax::{Body, Feature, Name};
use std::alloc::{AllocError, Global};
use std::marker::Model;

/// The classes of a program with the five basic ones. A contract sees them as a list, in the order of their numbers, which
/// is that of a whole table (`IsWholeTable` of `specs/Tables.antt`) and keeps the rules of classes (`IsLawful` of
/// `specs/LawfulTables.antt`).
#[derive(Drop)]
pub struct ClassTable {
    entries: Vec<Entry>,
    /// The names of the classes.
    names: FirstNames,
    /// The names of the features of each class.
    own: Vec<OwnNames>,
}

impl Model for ClassTable {
    ghost use Rattle.std.specs.Prelude.{List};
    ghost use Rattle.std.specs.Coded.{codes};
    ghost use Rattle.cool_syntax.specs.TreeCode.{tree_code};
    ghost use Rattle.cool_classes.specs.Chains.{Class};

    ghost Value = { List Class };

    ghost coded = { Prim.hlevel (codes, tree_code) };

    ghost use Rattle.cool_classes.specs.Entries.{classes};
    ghost use Rattle.cool_classes.specs.OwnNames.{IsIndexed};

    ghost view = { λ s. classes s.entries.items };

    ghost invariant = { λ s. IsIndexed s.entries.items s.names.entries s.own.items };
}

impl ClassTable {
    /// A table of these entries, with the names of the classes and those of the features of each.
    pub(crate) fn from_entries(
        entries: Vec<Entry>,
        names: FirstNames,
        own: Vec<OwnNames>,
    ) -> ClassTable
        requires indexed { IsIndexed entries.items names.entries own.items }
        ensures { result ≡ classes entries.items }
    {
        ClassTable {
            entries,
            names,
            own,
        }
    }

    /// The number of classes.
    pub fn count(&self) -> u32
        ensures count { result ≡ length self.now }
        ensures table { IsTable self.now }
        ensures whole { IsWholeTable self.now }
        ensures lawful { IsLawful self.now }
    {
        self.entries.len() as u32
    }

    /// The name of a class.
    pub fn name(&self, c: ClassId) -> &Name
        requires within { c.0 < length self.now }
        ensures { result.now ≡ name_of self.now c }
    {
        &self.entries[c.0 as usize].name
    }

    /// The number of classes above a class: 0 for Object.
    pub fn depth(&self, c: ClassId) -> u32
        requires within { c.0 < length self.now }
        ensures { (ds : List number.ClassId) → IsChain self.now (Some c) ds → length ds ≡ result + 1 }
    {
        climbing::depth(self.entries.as_slice(), c)
    }

    /// The features of a class, in textual order. A basic class has none.
    pub fn features(&self, c: ClassId) -> &[Feature]
        requires within { c.0 < length self.now }
        ensures features { result.now ≡ features_of self.now c }
        ensures table { IsTable self.now }
    {
        self.entries[c.0 as usize].features.as_slice()
    }

    /// The class of a name, if there is one.
    pub fn id(&self, name: &Name) -> Option<ClassId>
        ensures { IsNamed self.now name.now result }
    {
        lookup::class_named(&self.names, name.as_slice())
    }

    /// The parent of a class: `None` only for Object.
    pub fn parent(&self, c: ClassId) -> Option<ClassId>
        requires within { c.0 < length self.now }
        ensures parent { result ≡ parent_of self.now c }
        ensures above { IfSome result (λ q. q.0 < length self.now) }
        ensures top { IfNone result (c.0 ≡ 0) }
    {
        climbing::parent(self.entries.as_slice(), c)
    }

    /// Whether the first class is the second or has it above it.
    pub fn is_below(&self, a: ClassId, b: ClassId) -> bool
        requires within { a.0 < length self.now }
        ensures { IsTrue result ↔ Below self.now a b }
    {
        climbing::is_below(self.entries.as_slice(), a, b)
    }

    /// The least class that both are below.
    pub fn join(&self, a: ClassId, b: ClassId) -> ClassId
        requires a_within { a.0 < length self.now }
        requires b_within { b.0 < length self.now }
        ensures within { result.0 < length self.now }
        ensures join { IsJoin self.now a b result }
    {
        climbing::join(self.entries.as_slice(), a, b)
    }

    /// The method of a name that a class has, the nearest on its chain; none where the chain has none.
    pub fn find_method(&self, c: ClassId, name: &Name) -> Option<MethodRef>
        requires within { c.0 < length self.now }
        ensures nearest { (ds : List number.ClassId) → IsChain self.now (Some c) ds → result ≡ implementation self.now ds name.now }
        ensures has { IfSome result (λ m. HasMethod self.now m) }
    {
        lookup::find_method(
            self.entries.as_slice(),
            self.own.as_slice(),
            c,
            name.as_slice(),
        )
    }

    /// The attributes of a class with those that it inherits: from the greatest ancestor down, in textual order. Returns `Err` only if memory runs out.
    pub fn attributes(&self, alloc: Global, c: ClassId) -> Result<Vec<AttributeRef>, AllocError>
        requires within { c.0 < length self.now }
        ensures attributes { IfOk result (λ all. (ds : List number.ClassId) → IsChain self.now (Some c) ds → all.items ≡ attributes_of self.now ds) }
        ensures has { IfOk result (λ all. AllByRecursion (HasAttribute self.now) all.items) }
    {
        attributes::attributes(alloc, self.entries.as_slice(), c)
    }

    /// The name of an attribute.
    pub fn attribute_name(&self, attribute: AttributeRef) -> &Name
        requires has { HasAttribute self.now attribute }
        ensures { result.now ≡ attribute_name self.now attribute }
    {
        attributes::name(self.entries.as_slice(), attribute)
    }

    /// The declared type of an attribute.
    pub fn attribute_type(&self, attribute: AttributeRef) -> Ty
        requires has { HasAttribute self.now attribute }
        ensures { Denotes self.now (attribute_type self.now attribute) result }
    {
        signature::attribute_type(self.entries.as_slice(), &self.names, attribute)
    }

    /// The number of formals of a method.
    pub fn formal_count(&self, method: MethodRef) -> u32
        requires has { HasMethod self.now method }
        ensures { result ≡ length (formals_of self.now method) }
    {
        signature::formal_count(self.entries.as_slice(), method)
    }

    /// The type of a formal of a method, counted from 0.
    pub fn formal(&self, method: MethodRef, i: u32) -> Ty
        requires has { HasMethod self.now method }
        requires within { i < length (formals_of self.now method) }
        ensures { Denotes self.now (get_or (formals_of self.now method) i []) result }
    {
        signature::formal(self.entries.as_slice(), &self.names, method, i)
    }

    /// The type of the result of a method.
    pub fn result(&self, method: MethodRef) -> Ty
        requires has { HasMethod self.now method }
        ensures { Denotes self.now (result_of self.now method) result }
    {
        signature::result(self.entries.as_slice(), &self.names, method)
    }

    /// Puts a body in the place of that of a feature, counted from 0, and gives the one that was there: the body of a method, or the
    /// initial value of an attribute. It takes no memory.
    pub fn swap_body(&mut self, c: ClassId, feature: u32, body: Body) -> Body
        requires within { c.0 < length self.old }
        requires has { IsSome (body_at self.old c feature) }
        ensures gave { body_at self.old c feature ≡ Some result }
        ensures now { self.new ≡ with_body_at self.old c feature body }
    {
        let alloc = *self.entries.allocator();
        bodies::swap_body(alloc, &mut self.entries, c, feature, body)
    }

    /// Puts a feature in the place of one of a class, counted from 0, and gives the one that was there. Both declare the same: only places, the
    /// body and the initial value may differ. It takes no memory.
    pub fn swap_feature(&mut self, c: ClassId, index: u32, feature: Feature) -> Feature
        requires within { c.0 < length self.old }
        requires same { IsDeclaredBy feature (slice_get (features_of self.old c) index) }
        ensures gave { slice_get (features_of self.old c) index ≡ Some result }
        ensures now { self.new ≡ with_feature_at self.old c index feature }
    {
        let alloc = *self.entries.allocator();
        bodies::swap_feature(alloc, &mut self.entries, c, index, feature)
    }
}
