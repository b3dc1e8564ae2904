//! The input of code generation (program, layout of its classes, file names), and code generation for each feature.

ghost use Rattle.std.specs.Prelude.{◌≡◌, ◌++◌, ◌<◌, ◌^◌, [], ◌∷◌, length, slice_get, flat_map, OnOk, Some};
ghost use Rattle.mips_isa.specs.Lines.{lines_of};
ghost use Rattle.cool_syntax.specs.declared.file_tree.Feature as syntax;
ghost use Rattle.cool_classes.specs.Chains.{features_of};
ghost use Rattle.cool_emit.specs.Additions.{Adds, belongs, files_of, part_of, IsSound};
ghost use Rattle.cool_emit.specs.Programs.{placed_code};

use cool_classes::{ClassId, ClassTable};
use cool_codegen::feature_lines;
use cool_consts::Consts;
use cool_layout::Layout;
use cool_rules::TypedProgram;
use cool_syntax::Feature;
use mips_isa::Line;
use std::alloc::{AllocError, Global};

/// A program with the layout of its classes and the names of its files.
#[derive(Clone, Copy)]
pub(crate) struct Emission<'a> {
    pub(crate) alloc: Global,
    pub(crate) program: &'a TypedProgram,
    pub(crate) layout: &'a Layout,
    pub(crate) names: &'a [String],
}

/// The two parts of a class: its initializer has the code of the attributes.
#[derive(Clone, Copy)]
pub(crate) enum Part {
    Attributes,
    Methods,
}

impl Part {
    /// Whether a feature belongs to the part.
    pub(crate) fn has(self, feature: &Feature) -> bool
        ensures { result ≡ belongs self feature.now }
    {
        match self {
            Part::Attributes => matches!(feature, Feature::Attribute(_)),
            Part::Methods => matches!(feature, Feature::Method(_)),
        }
    }
}

impl<'a> Emission<'a> {
    /// The classes of the program.
    pub(crate) fn table(&self) -> &'a ClassTable
        ensures { result.now ≡ self.now.program.now }
    {
        self.program.table()
    }

    /// Adds the code of the features of a class that belong to a part. Returns `Err` only if memory runs out.
    pub(crate) fn add_features(
        &self,
        c: ClassId,
        part: Part,
        consts: &mut Consts,
        lines: &mut Vec<Line>,
    ) -> Result<(), AllocError>
        requires sound { IsSound self.now }
        requires class { c.0 < length self.now.program.now }
        requires few_integers { length consts.old.integers < 2 ^ 30 }
        requires few_strings { length consts.old.strings < 2 ^ 30 }
        ensures { OnOk result (Adds (files_of self.now) (part_of part self.now.program.now c) (λ g. flat_map (placed_code self.now.program.now (files_of self.now) g c) (part_of part self.now.program.now c)) consts.old consts.new (lines_of lines.old.items) (lines_of lines.new.items)) }
    {
        let features = self.table().features(c);
        for index in 0..features.len() {
            if part.has(&features[index]) {
                self.add_feature(c, index as u32, consts, lines)?;
            }
        }
        Ok(())
    }

    /// Adds the code of a feature. Returns `Err` only if memory runs out.
    pub(crate) fn add_feature(
        &self,
        c: ClassId,
        feature: u32,
        consts: &mut Consts,
        lines: &mut Vec<Line>,
    ) -> Result<(), AllocError>
        requires sound { IsSound self.now }
        requires class { c.0 < length self.now.program.now }
        requires feature { feature < length (features_of self.now.program.now c) }
        requires few_integers { length consts.old.integers < 2 ^ 31 }
        requires few_strings { length consts.old.strings < 2 ^ 31 }
        ensures { (x : syntax.Feature) → slice_get (features_of self.now.program.now c) feature ≡ Some x → OnOk result (Adds (files_of self.now) (record { place = feature; feature = x } ∷ []) (λ g. placed_code self.now.program.now (files_of self.now) g c (record { place = feature; feature = x })) consts.old consts.new (lines_of lines.old.items) (lines_of lines.new.items)) }
    {
        let own = feature_lines(
            self.alloc,
            self.program,
            self.layout,
            consts,
            self.names,
            c,
            feature,
        )?;
        add_lines(lines, own)
    }
}

/// Adds lines, in one move, or none where there were no lines. Returns `Err` only if memory runs out.
pub(crate) fn add_lines(lines: &mut Vec<Line>, mut more: Vec<Line>) -> Result<(), AllocError>
    ensures { OnOk result (lines_of lines.new.items ≡ lines_of lines.old.items ++ lines_of more.items) }
{
    if lines.is_empty() {
        *lines = more;
        return Ok(());
    }
    lines.append(&mut more)
}
