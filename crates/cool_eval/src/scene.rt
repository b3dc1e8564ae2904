//! The context in which an expression is evaluated: the class table, the object whose method is running, and the variables in scope.

ghost use Rattle.std.specs.Prelude.{◌≡◌, ◌∷◌, [], ◌++◌, IfOk, IfErr, map, option_map, slice_get};
ghost use Rattle.std.specs.List.{AllByRecursion};
ghost use Rattle.cool_classes.specs.Chains.{features_of, name_of};
ghost use Rattle.cool_classes.specs.ClimbedChains.{chain};
ghost use Rattle.cool_classes.specs.Features.{HasAttribute};
ghost use Rattle.cool_syntax.specs.Tree.{of_twigs};
ghost use Rattle.cool_meaning.specs.Values as values;
ghost use Rattle.cool_meaning.specs.Lookups.{attributes, default_values, environment_of, init_of};
ghost use Rattle.cool_eval.specs.Values.{value_of, locations_from};
ghost use Rattle.cool_eval.specs.Counts.{IsInner};
ghost use Rattle.cool_eval.specs.StackMachine.{nearest_branch};
ghost use Rattle.cool_eval.specs.Views.{attribute_in, taken_of};
ghost use Rattle.cool_eval.specs.Configurations.{env_of, IsLocation};
ghost use Rattle.cool_eval.specs.Ready.{IsReady};

use crate::basic::string;
use crate::ending::Ending;
use crate::machine::add;
use crate::part::{Part, Twigs};
use crate::store::location_after;
use crate::value::{Object, Value};
use cool_classes::{AttributeRef, BOOL, ClassId, ClassTable, INT, STRING};
use cool_syntax::{AttributeDef, Body, Feature, Name};
use std::alloc::{AllocError, Global};

/// The constant context of a run: the class table, and the attributes of each class.
#[derive(Clone, Copy)]
pub(crate) struct RunSetting<'a> {
    pub(crate) alloc: Global,
    pub(crate) table: &'a ClassTable,
    pub(crate) layouts: &'a [Vec<AttributeRef>],
}

/// A variable at its location.
#[derive(Clone, Copy)]
pub(crate) struct Local<'a> {
    pub(crate) name: &'a Name,
    pub(crate) location: usize,
}

/// An object and the variables, the latest last.
#[derive(Drop)]
pub(crate) struct Scene<'a> {
    pub(crate) me: Value,
    pub(crate) locals: Vec<Local<'a>>,
}

impl<'a> RunSetting<'a> {
    /// The attributes of a class with those that it inherits; none where there is no such class.
    pub(crate) fn attributes(&self, class: ClassId) -> &'a [AttributeRef]
        requires ready { IsReady self.now.table.now self.now.layouts.now }
        ensures attributes { result.now ≡ attributes self.now.table.now class }
        ensures has { AllByRecursion (HasAttribute self.now.table.now) result.now }
    {
        match self.layouts.get(class.0 as usize) {
            Some(layout) => layout.as_slice(),
            None => &[],
        }
    }

    /// The class of a value; void has none.
    pub(crate) fn class_of(&self, value: &Value) -> Option<ClassId>
        ensures { result ≡ values.class_of (value_of value.now) }
    {
        match value {
            Value::Void => None,
            Value::Int(_) => Some(INT),
            Value::Bool(_) => Some(BOOL),
            Value::Str(_) => Some(STRING),
            Value::Object(object) => Some(object.class),
        }
    }

    /// The attribute of this place, if there is one.
    fn attribute_at(&self, attribute: AttributeRef) -> Option<&'a AttributeDef>
        ensures { option_map (λ found. found.now) result ≡ attribute_in (slice_get (features_of self.now.table.now attribute.owner) attribute.index) }
    {
        if attribute.owner.0 >= self.table.count() {
            return None;
        }
        match self
            .table
            .features(attribute.owner)
            .get(attribute.index as usize)
        {
            Some(Feature::Attribute(found)) => Some(found),
            _ => None,
        }
    }

    /// The location of an attribute of an object. `Stuck` comes where it has none of this name.
    #[inline(always)]
    fn attribute(&self, object: &Object, name: &Name) -> Result<usize, Ending>
        requires ready { IsReady self.now.table.now self.now.layouts.now }
        ensures location { IsLocation (environment_of self.now.table.now (values.Obj object.now.class object.now.identity (locations_from object.now.first object.now.count))) name.now result }
        ensures inner { IfErr result IsInner }
    {
        let attributes = self.attributes(object.class);
        let mut location = object.first;
        for index in 0..object.count {
            let Some(attribute) = attributes.get(index) else {
                return Err(Ending::Stuck);
            };
            if self.table.attribute_name(*attribute).is(name) {
                return Ok(location);
            }
            location = location_after(location, 1)?;
        }
        Err(Ending::Stuck)
    }

    /// The name of a class; no bytes where there is no such class.
    pub(crate) fn class_name(&self, class: ClassId) -> &'a [u8]
        ensures { result.now ≡ name_of self.now.table.now class }
    {
        if class.0 >= self.table.count() {
            return b"";
        }
        self.table.name(class).as_slice()
    }

    /// The value that a variable of a type begins with.
    pub(crate) fn default_of(&self, name: &Name) -> Result<Value, Ending>
        ensures default { IfOk result (λ v. value_of v ≡ values.default_of name.now) }
        ensures memory { IfErr result (λ e. e ≡ Ending.Memory) }
    {
        let name = name.as_slice();
        if name == b"Int".as_slice() {
            return Ok(Value::Int(0));
        }
        if name == b"Bool".as_slice() {
            return Ok(Value::Bool(false));
        }
        if name == b"String".as_slice() {
            return string(self.alloc, Vec::new(self.alloc));
        }
        Ok(Value::Void)
    }

    /// The default values of attributes, before their initial values.
    pub(crate) fn defaults(&self, attributes: &[AttributeRef]) -> Result<Vec<Value>, Ending>
        requires has { AllByRecursion (HasAttribute self.now.table.now) attributes.now }
        ensures defaults { IfOk result (λ found. map value_of found.items ≡ default_values self.now.table.now attributes.now) }
        ensures memory { IfErr result (λ e. e ≡ Ending.Memory) }
    {
        let mut defaults = Vec::new(self.alloc);
        for attribute in attributes {
            match self.attribute_at(*attribute) {
                Some(found) => add(&mut defaults, self.default_of(&found.declared.name)?)?,
                None => unreachable!(),
            }
        }
        Ok(defaults)
    }

    /// The initial value of an attribute, where it has one.
    pub(crate) fn initial(&self, attribute: AttributeRef) -> Option<&'a Body>
        ensures { option_map (λ body. body.now) result ≡ init_of self.now.table.now attribute }
    {
        self.attribute_at(attribute)?.init.as_ref()
    }

    /// The branch of a class, or of the nearest above it that has one.
    ///
    /// At most as many classes stand above one as there are, so the last that is climbed to is looked at after the loop.
    pub(crate) fn nearest(
        &self,
        branches: &Twigs<'a>,
        class: ClassId,
    ) -> Option<(&'a Name, Part<'a>)>
        requires ready { IsReady self.now.table.now self.now.layouts.now }
        ensures { taken_of result ≡ nearest_branch self.now.table.now (of_twigs branches.now) (chain self.now.table.now class) }
    {
        let mut above = class;
        for _ in 0..self.table.count() {
            if let Some(found) = branches.named(self.class_name(above)) {
                return Some(found);
            }
            if above.0 >= self.table.count() {
                return None;
            }
            above = self.table.parent(above)?;
        }
        branches.named(self.class_name(above))
    }
}

impl<'a> Scene<'a> {
    /// The location of a name: that of the latest variable of this name, or else of the attribute. `Stuck` comes where there is none.
    #[inline(always)]
    pub(crate) fn location(&self, setting: &RunSetting<'a>, name: &Name) -> Result<usize, Ending>
        requires ready { IsReady setting.now.table.now setting.now.layouts.now }
        ensures location { IsLocation (env_of setting.now.table.now self.now) name.now result }
        ensures inner { IfErr result IsInner }
    {
        for index in (0..self.locals.len()).rev() {
            let local = &self.locals[index];
            if local.name.is(name) {
                return Ok(local.location);
            }
        }
        match &self.me {
            Value::Object(object) => setting.attribute(object, name),
            _ => Err(Ending::Stuck),
        }
    }

    /// The same with one more variable. Returns `Err` only if memory runs out.
    pub(crate) fn with(
        &self,
        alloc: Global,
        name: &'a Name,
        location: usize,
    ) -> Result<Scene<'a>, AllocError>
        ensures me { IfOk result (λ scene. value_of scene.me ≡ value_of self.now.me) }
        ensures locals { IfOk result (λ scene. scene.locals.items ≡ self.now.locals.items ++ record { name = name.entry; location = location } ∷ []) }
    {
        let mut locals = Vec::from_slice(alloc, self.locals.as_slice())?;
        locals.push(Local { name, location })?;
        Ok(Scene {
            me: self.me.copy()?,
            locals,
        })
    }
}
