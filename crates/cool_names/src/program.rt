//! The function `program_marks`: it lists the occurrences of names in a program, from its class table and the definitions of its classes.

ghost use Rattle.std.specs.Prelude.{◌≡◌, ◌+◌, ◌++◌, ◌<◌, length, IfOk, IfSome, OnOk};
ghost use Rattle.cool_classes.specs.declared.class_id.ClassId as number;
ghost use Rattle.cool_classes.specs.Tables.{IsTable};
ghost use Rattle.cool_rules.specs.Conformance.{IsType};
ghost use Rattle.cool_rules.specs.Rules.{type_of_name};
ghost use Rattle.cool_names.specs.declared.mark.Role.TheVariants as role;
ghost use Rattle.cool_names.specs.declared.mark.Target.TheVariants.{At};
ghost use Rattle.cool_names.specs.Marks.{declared_marks, mark, type_mark};
ghost use Rattle.cool_names.specs.Meanings.{class_target, type_meaning};
ghost use Rattle.cool_names.specs.Programs.{class_marks, parent_marks, program_marks};
ghost use Rattle.cool_names.specs.NamingSettings.{AreClasses};

use crate::feature::add_features;
use crate::mark::{Mark, Meaning, Role, Target};
use crate::meaning::{meaning, unknown};
use cool_classes::{ClassId, ClassTable, Ty};
use cool_rules::type_named;
use cool_syntax::{ClassDef, Name, Place, TypeRef};
use std::alloc::{AllocError, Global};

/// The number of the first class that a program defines.
const FIRST_CLASS: u32 = 5;

/// A class table, and the definitions of its classes after the basic ones.
#[derive(Clone, Copy)]
pub(crate) struct Program<'a> {
    pub(crate) alloc: Global,
    pub(crate) table: &'a ClassTable,
    pub(crate) definitions: &'a [ClassDef],
}

/// The marks of a program, in the order of files and text. Returns `Err` only if memory runs out.
pub fn program_marks(
    alloc: Global,
    table: &ClassTable,
    definitions: &[ClassDef],
) -> Result<Vec<Mark>, AllocError>
    requires each { length table.now ≡ length definitions.now + 5 }
    ensures marks { IfOk result (λ marks. marks.items ≡ program_marks table.now definitions.now) }
{
    let _count = table.count();
    let program = Program {
        alloc,
        table,
        definitions,
    };
    let mut marks = Vec::new(alloc);
    for index in 0..definitions.len() {
        program.add_class(
            &mut marks,
            ClassId(index as u32 + FIRST_CLASS),
            &definitions[index],
        )?;
    }
    Ok(marks)
}

impl<'a> Program<'a> {
    /// Adds the marks of the definition of a class. Returns `Err` only if memory runs out.
    fn add_class(
        &self,
        marks: &mut Vec<Mark>,
        class: ClassId,
        definition: &'a ClassDef,
    ) -> Result<(), AllocError>
        requires classes { AreClasses self.now.table.now self.now.definitions.now }
        requires class { class.0 < length self.now.table.now }
        ensures { OnOk result (marks.new.items ≡ marks.old.items ++ class_marks self.now.table.now self.now.definitions.now class.0 definition.now) }
    {
        marks.push(self.class_mark(definition)?)?;
        if let Some(parent) = &definition.parent {
            marks.push(self.type_mark(parent)?)?;
        }
        add_features(self, marks, class, definition.features.as_slice())
    }

    /// The mark of the name of a class where it is defined. Returns `Err` only if memory runs out.
    fn class_mark(&self, definition: &ClassDef) -> Result<Mark, AllocError>
        ensures { IfOk result (λ m. m ≡ mark definition.now.at role.Class definition.now.name (record { declared = definition.now.name; target = At definition.now.at })) }
    {
        Ok(Mark {
            at: definition.at,
            role: Role::Class,
            name: definition.name.copy(self.alloc)?,
            meaning: meaning(
                self.alloc,
                definition.name.as_slice(),
                Target::At(definition.at),
            )?,
        })
    }

    /// The type of a name: a class, or `SELF_TYPE`. None where it is neither.
    pub(crate) fn type_named(&self, name: &Name) -> Option<Ty>
        requires table { IsTable self.now.table.now }
        ensures is_type { IfSome result (IsType self.now.table.now) }
        ensures named { result ≡ type_of_name self.now.table.now name.now }
    {
        type_named(self.table, name)
    }

    /// The place of a class's definition.
    fn class_target(&self, class: ClassId) -> Target
        requires classes { AreClasses self.now.table.now self.now.definitions.now }
        requires class { class.0 < length self.now.table.now }
        ensures { result ≡ class_target self.now.definitions.now class }
    {
        if class.0 < FIRST_CLASS {
            return Target::Given;
        }
        Target::At(self.definitions[(class.0 - FIRST_CLASS) as usize].at)
    }

    /// The meaning of the name of a type. Returns `Err` only if memory runs out.
    fn type_meaning(&self, name: &Name) -> Result<Meaning, AllocError>
        requires classes { AreClasses self.now.table.now self.now.definitions.now }
        ensures { IfOk result (λ m. m ≡ type_meaning self.now.table.now self.now.definitions.now name.now) }
    {
        let target = match self.type_named(name) {
            Some(Ty::SelfType) => Target::Given,
            Some(Ty::Class(class)) => self.class_target(class),
            None => return unknown(self.alloc),
        };
        meaning(self.alloc, name.as_slice(), target)
    }

    /// The mark of the name of a type. Returns `Err` only if memory runs out.
    pub(crate) fn type_mark(&self, used: &TypeRef) -> Result<Mark, AllocError>
        requires classes { AreClasses self.now.table.now self.now.definitions.now }
        ensures { IfOk result (λ m. m ≡ type_mark self.now.table.now self.now.definitions.now used.now) }
    {
        Ok(Mark {
            at: used.at,
            role: Role::Type,
            name: used.name.copy(self.alloc)?,
            meaning: self.type_meaning(&used.name)?,
        })
    }

    /// Adds the marks of a variable where it is declared, and of its type. Returns `Err` only if memory runs out.
    pub(crate) fn add_declared(
        &self,
        marks: &mut Vec<Mark>,
        role: Role,
        at: Place,
        name: &Name,
        declared: &TypeRef,
    ) -> Result<(), AllocError>
        requires classes { AreClasses self.now.table.now self.now.definitions.now }
        ensures { OnOk result (marks.new.items ≡ marks.old.items ++ declared_marks self.now.table.now self.now.definitions.now role at name.now declared.now) }
    {
        marks.push(Mark {
            at,
            role,
            name: name.copy(self.alloc)?,
            meaning: meaning(self.alloc, declared.name.as_slice(), Target::At(at))?,
        })?;
        marks.push(self.type_mark(declared)?)?;
        Ok(())
    }
}
