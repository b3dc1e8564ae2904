//! Lists the sections of a program's text, which are generated one by one: the run-time routines, and each initializer and method.

ghost use Rattle.std.specs.Prelude.{◌≡◌, ◌++◌, ◌∷◌, ◌<◌, ◌^◌, [], length, if◌then◌else◌, IfOk, OnOk};
ghost use Rattle.mips_isa.specs.Lines.{lines_of};
ghost use Rattle.cool_emit.specs.Additions.{Adds, belongs, files_of, IsSound};
ghost use Rattle.cool_emit.specs.declared.emission.Part.TheVariants.{Methods};
ghost use Rattle.cool_emit.specs.declared.section.Section.TheVariants.{Method};
ghost use Rattle.cool_emit.specs.Sections.{class_sections, features_in, section_code, sections_in, IsSection};

use crate::emission::{Emission, Part, add_lines};
use crate::initializer::add_initializer;
use cool_classes::ClassId;
use cool_consts::Consts;
use cool_runtime::routines;
use cool_syntax::Feature;
use mips_isa::Line;
use std::alloc::AllocError;

/// A section of the text of a program.
#[derive(Drop)]
pub(crate) enum Section {
    /// The routines of the run-time system.
    Routines,
    /// The initializer of a class.
    Initializer(ClassId),
    /// A method of a class, by its number among the features of the class.
    Method(ClassId, u32),
}

impl<'a> Emission<'a> {
    /// The sections of the text of the program, in their order. Returns `Err` only if memory runs out.
    pub(crate) fn sections(&self) -> Result<Vec<Section>, AllocError>
        requires sound { IsSound self.now }
        ensures { IfOk result (λ sections. sections.items ≡ sections_in self.now.program.now) }
    {
        let mut sections = Vec::new(self.alloc);
        sections.push(Section::Routines)?;
        for number in 0..self.table().count() {
            self.add_class_sections(ClassId(number), &mut sections)?;
        }
        Ok(sections)
    }

    /// Adds the sections of a class: its initializer, and its methods. Returns `Err` only if memory runs out.
    fn add_class_sections(&self, c: ClassId, sections: &mut Vec<Section>) -> Result<(), AllocError>
        requires sound { IsSound self.now }
        requires class { c.0 < length self.now.program.now }
        ensures { OnOk result (sections.new.items ≡ sections.old.items ++ class_sections self.now.program.now c) }
    {
        sections.push(Section::Initializer(c))?;
        let features = self.table().features(c);
        for index in 0..features.len() {
            add_method(c, index as u32, &features[index], sections)?;
        }
        Ok(())
    }

    /// Adds the lines of a section. Returns `Err` only if memory runs out.
    pub(crate) fn add_section(
        &self,
        section: &Section,
        consts: &mut Consts,
        lines: &mut Vec<Line>,
    ) -> Result<(), AllocError>
        requires sound { IsSound self.now }
        requires there { IsSection self.now.program.now section.now }
        requires few_integers { length consts.old.integers < 2 ^ 30 }
        requires few_strings { length consts.old.strings < 2 ^ 30 }
        ensures { OnOk result (Adds (files_of self.now) (features_in self.now.program.now section.now) (λ g. section_code self.now.program.now (files_of self.now) g section.now) consts.old consts.new (lines_of lines.old.items) (lines_of lines.new.items)) }
    {
        match section {
            Section::Routines => add_lines(lines, routines(self.alloc)?),
            Section::Initializer(c) => add_initializer(self, *c, consts, lines),
            Section::Method(c, feature) => self.add_feature(*c, *feature, consts, lines),
        }
    }
}

/// Adds the section of a feature of a class, if it is a method. Returns `Err` only if memory runs out.
fn add_method(
    c: ClassId,
    index: u32,
    feature: &Feature,
    sections: &mut Vec<Section>,
) -> Result<(), AllocError>
    ensures { OnOk result (sections.new.items ≡ sections.old.items ++ (if belongs Methods feature.now then Method c index ∷ [] else [])) }
{
    if Part::Methods.has(feature) {
        sections.push(Section::Method(c, index))?;
    }
    Ok(())
}
