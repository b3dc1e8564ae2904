//! Functions that collect the occurrences of names in methods and attributes, each with its definition, and build the scope of their expressions.

ghost use Rattle.std.specs.Prelude.{◌≡◌, ◌<◌, ◌++◌, [], length, IfOk, OnOk, Some, slice_get};
ghost use Rattle.cool_syntax.specs.declared.file_tree.Feature.TheVariants as feature;
ghost use Rattle.cool_classes.specs.Chains.{features_of};
ghost use Rattle.cool_classes.specs.Features.{HasAttribute};
ghost use Rattle.cool_classes.specs.Tables.{IsTable};
ghost use Rattle.cool_names.specs.Marks.{marks_of, type_mark};
ghost use Rattle.cool_names.specs.Programs.{attributes_in_scope, feature_marks, features_marks, formals_in_scope, formals_marks, class_context};
ghost use Rattle.cool_names.specs.Scopes.{variables};
ghost use Rattle.cool_names.specs.NamingSettings.{AreClasses};

use crate::declaration::Declaration;
use crate::expression::add_marks;
use crate::mark::{Mark, Role};
use crate::meaning::defined_method;
use crate::naming_setting::NamingSetting;
use crate::program::Program;
use cool_classes::{AttributeRef, ClassId, ClassTable};
use cool_rules::Scope;
use cool_syntax::{AttributeDef, Body, Feature, Formal, MethodDef};
use std::alloc::{AllocError, Global};

/// Adds the marks of the features of a class, in order. Returns `Err` only if memory runs out.
pub(crate) fn add_features<'a>(
    program: &Program<'a>,
    marks: &mut Vec<Mark>,
    class: ClassId,
    features: &'a [Feature],
) -> Result<(), AllocError>
    requires classes { AreClasses program.now.table.now program.now.definitions.now }
    requires class { class.0 < length program.now.table.now }
    ensures { OnOk result (marks.new.items ≡ marks.old.items ++ features_marks (class_context program.now.table.now program.now.definitions.now class) features.now) }
{
    let attributes = attribute_scope(program.alloc, program.table, class)?;
    for feature in features {
        match feature {
            Feature::Method(method) => add_method(program, marks, class, &attributes, method)?,
            Feature::Attribute(attribute) => {
                add_attribute(program, marks, class, &attributes, attribute)?;
            }
        }
    }
    Ok(())
}

/// Adds the marks of a method. Returns `Err` only if memory runs out.
fn add_method<'a>(
    program: &Program<'a>,
    marks: &mut Vec<Mark>,
    class: ClassId,
    attributes: &Scope<'a, Declaration<'a>>,
    method: &'a MethodDef,
) -> Result<(), AllocError>
    requires classes { AreClasses program.now.table.now program.now.definitions.now }
    requires class { class.0 < length program.now.table.now }
    requires attributes { variables attributes.now ≡ attributes_in_scope program.now.table.now class }
    ensures { OnOk result (marks.new.items ≡ marks.old.items ++ feature_marks (class_context program.now.table.now program.now.definitions.now class) (feature.Method method.now)) }
{
    marks.push(Mark {
        at: method.at,
        role: Role::Method,
        name: method.name.copy(program.alloc)?,
        meaning: defined_method(program.alloc, method)?,
    })?;
    let mut locals = add_formals(program, marks, method.formals.as_slice())?;
    marks.push(program.type_mark(&method.result)?)?;
    let setting = NamingSetting {
        program: *program,
        class,
        attributes,
        body: &method.body,
    };
    add_marks(&setting, &mut locals, marks, method.body.root())
}

/// Adds the marks of formals, in order, and gives them as a scope. Returns `Err` only if memory runs out.
fn add_formals<'a>(
    program: &Program<'a>,
    marks: &mut Vec<Mark>,
    formals: &'a [Formal],
) -> Result<Scope<'a, Declaration<'a>>, AllocError>
    requires classes { AreClasses program.now.table.now program.now.definitions.now }
    ensures marks { OnOk result (marks.new.items ≡ marks.old.items ++ formals_marks program.now.table.now program.now.definitions.now formals.now) }
    ensures scope { IfOk result (λ scope. variables scope ≡ formals_in_scope formals.now) }
{
    let mut locals = Scope::new(program.alloc);
    for formal in formals {
        program.add_declared(
            marks,
            Role::Formal,
            formal.at,
            &formal.name,
            &formal.declared,
        )?;
        let variable = Declaration {
            declared: &formal.declared.name,
            at: formal.at,
        };
        locals.enter(&formal.name, variable)?;
    }
    Ok(locals)
}

/// Adds the marks of an attribute. Returns `Err` only if memory runs out.
fn add_attribute<'a>(
    program: &Program<'a>,
    marks: &mut Vec<Mark>,
    class: ClassId,
    attributes: &Scope<'a, Declaration<'a>>,
    attribute: &'a AttributeDef,
) -> Result<(), AllocError>
    requires classes { AreClasses program.now.table.now program.now.definitions.now }
    requires class { class.0 < length program.now.table.now }
    requires attributes { variables attributes.now ≡ attributes_in_scope program.now.table.now class }
    ensures { OnOk result (marks.new.items ≡ marks.old.items ++ feature_marks (class_context program.now.table.now program.now.definitions.now class) (feature.Attribute attribute.now)) }
{
    program.add_declared(
        marks,
        Role::Attribute,
        attribute.at,
        &attribute.name,
        &attribute.declared,
    )?;
    let Some(body) = &attribute.init else {
        return Ok(());
    };
    let setting = NamingSetting {
        program: *program,
        class,
        attributes,
        body,
    };
    add_marks(&setting, &mut Scope::new(program.alloc), marks, body.root())
}

/// The attributes of a class with those that it inherits, as a scope. Returns `Err` only if memory runs out.
fn attribute_scope(
    alloc: Global,
    table: &ClassTable,
    class: ClassId,
) -> Result<Scope<'_, Declaration<'_>>, AllocError>
    requires table { IsTable table.now }
    requires class { class.0 < length table.now }
    ensures { IfOk result (λ scope. variables scope ≡ attributes_in_scope table.now class) }
{
    let mut scope = Scope::new(alloc);
    for attribute in table.attributes(alloc, class)? {
        let found = attribute_definition(table, attribute);
        let variable = Declaration {
            declared: &found.declared.name,
            at: found.at,
        };
        scope.enter(&found.name, variable)?;
    }
    Ok(scope)
}

/// The definition of an attribute.
fn attribute_definition(table: &ClassTable, attribute: AttributeRef) -> &AttributeDef
    requires has { HasAttribute table.now attribute }
    ensures { slice_get (features_of table.now attribute.owner) attribute.index ≡ Some (feature.Attribute result.now) }
{
    match &table.features(attribute.owner)[attribute.index as usize] {
        Feature::Attribute(found) => found,
        Feature::Method(_) => unreachable!(),
    }
}
