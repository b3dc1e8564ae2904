//! Builds the image of a whole program: generates its assembly lines in batches, and runs the two passes of the assembler over them.

ghost use Rattle.std.specs.Prelude.{◌≡◌, ◌<◌, ◌≤◌, ◌^◌, ◌+◌, ◌∷◌, [], Some, length, map, slice_get, string_bytes, IfOk, OnOk, None};
ghost use Rattle.mips_isa.specs.Assembly.{fault_of, image_of, directive_line, Assembles};
ghost use Rattle.mips_isa.specs.Lines.{lines_of, ToData};
ghost use Rattle.mips_asm.specs.FirstPasses.{HasTaken};
ghost use Rattle.mips_asm.specs.SecondPasses.{HasLeft};
ghost use Rattle.cool_rules.specs.Fits.{Fits};
ghost use Rattle.cool_emit.specs.FileNames.{AreShortNames};
ghost use Rattle.cool_emit.specs.Additions.{Adds, files_of, IsSound};
ghost use Rattle.cool_emit.specs.Batches.{batches_of, AreAsked, AreFirst};
ghost use Rattle.cool_emit.specs.Programs.{data_lines, program_constants, program_lines};
ghost use Rattle.cool_emit.specs.declared.kept.TheConstants.{MOST_KEPT_LINES};
ghost use Rattle.cool_emit.specs.Sections.{features_in, section_code, sections_in, IsSection};

use crate::emission::Emission;
use crate::kept::Kept;
use crate::program::add_data;
use crate::section::Section;
use cool_consts::Consts;
use cool_layout::Layout;
use cool_rules::TypedProgram;
use mips_asm::{FirstPass, SecondPass};
use mips_isa::{AsmError, Image, Line};
use std::alloc::{AllocError, Global};

/// The state after the first pass: the pass, the constants of the program, and the lines that need not be made again.
#[derive(Drop)]
struct Passed {
    pass: FirstPass,
    consts: Consts,
    kept: Kept,
}

/// The image of a program whose files have these names, of at most 4,096 bytes each. Its lines have no fault, so `Err` is returned only if memory runs out.
///
/// Its lines are made in batches, section by section. The first batches, up to `MOST_KEPT_LINES`, are made once, and the others twice. At most one batch of
/// the others is held at a time.
pub fn build(alloc: Global, p: &TypedProgram, names: &[String]) -> Result<Image, AllocError>
    requires fits { Fits p.now (length names.now) }
    requires names { AreShortNames (map string_bytes names.now) }
    ensures no_fault { fault_of (program_lines p.now (map string_bytes names.now)) ≡ None }
    ensures image { IfOk result (λ image. image ≡ image_of (program_lines p.now (map string_bytes names.now))) }
{
    let layout = Layout::new(alloc, p.table())?;
    let emission = Emission {
        alloc,
        program: p,
        layout: &layout,
        names,
    };
    match emission.assemble() {
        Ok(image) => Ok(image),
        Err(AsmError::Memory) => Err(AllocError),
        Err(AsmError::Fault(_)) => unreachable!(),
    }
}

impl<'a> Emission<'a> {
    /// The image of the lines of the program, in the two passes of the assembler.
    fn assemble(&self) -> Result<Image, AsmError>
        requires sound { IsSound self.now }
        ensures { Assembles (program_lines self.now.program.now (files_of self.now)) result }
    {
        let sections = self.sections()?;
        let Passed { pass, consts, kept } = self.first_pass(&sections)?;
        let second = pass.finish()?;
        self.second_pass(&sections, second, consts, kept)
    }

    /// The first pass over the lines of the program. Returns `Err` only if memory runs out.
    fn first_pass(&self, sections: &[Section]) -> Result<Passed, AllocError>
        requires sound { IsSound self.now }
        requires sections { sections.now ≡ sections_in self.now.program.now }
        ensures taken { IfOk result (λ passed. HasTaken passed.pass (program_lines self.now.program.now (files_of self.now))) }
        ensures constants { IfOk result (λ passed. passed.consts ≡ program_constants self.now.program.now (files_of self.now)) }
        ensures kept { IfOk result (λ passed. AreFirst (batches_of self.now.program.now (files_of self.now)) passed.kept) }
        ensures few { IfOk result (λ passed. length passed.kept.lines.items ≤ MOST_KEPT_LINES) }
    {
        let mut pass = FirstPass::new(self.alloc);
        let mut consts = Consts::new(self.alloc);
        let mut kept = Kept::new(self.alloc);
        for number in 0..sections.len() + 1 {
            let lines = self.batch(sections, number, &mut consts)?;
            pass.take(&lines)?;
            kept.keep(number, lines)?;
        }
        Ok(Passed { pass, consts, kept })
    }

    /// The image, by the second pass over the lines of the program, the first of which are kept. These go once they are taken.
    fn second_pass(
        &self,
        sections: &[Section],
        mut pass: SecondPass,
        mut consts: Consts,
        kept: Kept,
    ) -> Result<Image, AsmError>
        requires sound { IsSound self.now }
        requires sections { sections.now ≡ sections_in self.now.program.now }
        requires all { HasLeft pass (program_lines self.now.program.now (files_of self.now)) (program_lines self.now.program.now (files_of self.now)) }
        requires constants { consts ≡ program_constants self.now.program.now (files_of self.now) }
        requires kept { AreFirst (batches_of self.now.program.now (files_of self.now)) kept }
        ensures { Assembles (program_lines self.now.program.now (files_of self.now)) result }
    {
        let first = kept.batches;
        {
            let lines = kept.lines;
            pass.take(&lines)?;
        }
        for number in first..sections.len() + 1 {
            let lines = self.batch(sections, number, &mut consts)?;
            pass.take(&lines)?;
        }
        pass.finish()
    }

    /// The lines of the batch with this number: those of a section, or, after all sections, those of the data. The constants are those of the sections
    /// before it, with perhaps more. Returns `Err` only if memory runs out.
    fn batch(
        &self,
        sections: &[Section],
        number: usize,
        consts: &mut Consts,
    ) -> Result<Vec<Line>, AllocError>
        requires sound { IsSound self.now }
        requires sections { sections.now ≡ sections_in self.now.program.now }
        requires within { number ≤ length sections.now }
        requires constants { AreAsked self.now.program.now (files_of self.now) number consts.old }
        ensures lines { IfOk result (λ lines. slice_get (batches_of self.now.program.now (files_of self.now)) number ≡ Some (lines_of lines.items)) }
        ensures constants { OnOk result (AreAsked self.now.program.now (files_of self.now) (number + 1) consts.new) }
    {
        if number < sections.len() {
            self.section_lines(&sections[number], consts)
        } else {
            self.data(consts)
        }
    }

    /// The lines of a section. Returns `Err` only if memory runs out.
    fn section_lines(&self, section: &Section, consts: &mut Consts) -> Result<Vec<Line>, AllocError>
        requires sound { IsSound self.now }
        requires there { IsSection self.now.program.now section.now }
        requires few_integers { length consts.old.integers < 2 ^ 30 }
        requires few_strings { length consts.old.strings < 2 ^ 30 }
        ensures { IfOk result (λ lines. Adds (files_of self.now) (features_in self.now.program.now section.now) (λ g. section_code self.now.program.now (files_of self.now) g section.now) consts.old consts.new [] (lines_of lines.items)) }
    {
        let mut lines = Vec::new(self.alloc);
        self.add_section(section, consts, &mut lines)?;
        Ok(lines)
    }

    /// The lines of the data. Returns `Err` only if memory runs out.
    fn data(&self, consts: &Consts) -> Result<Vec<Line>, AllocError>
        requires sound { IsSound self.now }
        ensures { IfOk result (λ lines. lines_of lines.items ≡ directive_line ToData ∷ data_lines self.now.program.now consts.now) }
    {
        let mut lines = Vec::new(self.alloc);
        add_data(self, consts, &mut lines)?;
        Ok(lines)
    }
}
