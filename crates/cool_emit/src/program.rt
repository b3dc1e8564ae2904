//! Generates the assembly of a whole program: its text, and then its data.

ghost use Rattle.std.specs.Prelude.{◌≡◌, ◌++◌, ◌∷◌, [], length, map, string_bytes, IfOk, OnOk};
ghost use Rattle.mips_isa.specs.Assembly.{directive_line};
ghost use Rattle.mips_isa.specs.Lines.{lines_of, ToData};
ghost use Rattle.cool_rules.specs.Fits.{Fits};
ghost use Rattle.cool_runtime.specs.RoutineLines.{all_routine_lines};
ghost use Rattle.cool_emit.specs.FileNames.{AreShortNames};
ghost use Rattle.cool_emit.specs.Additions.{Adds, files_of, IsSound};
ghost use Rattle.cool_emit.specs.Programs.{all_features, classes_code, data_lines, heap_lines, program_data, program_lines, program_text};
ghost use Rattle.cool_emit.specs.Sections.{sections_in};
ghost use Rattle.cool_emit.specs.SoundLines.{AreSound};

use crate::emission::{Emission, add_lines};
use crate::section::Section;
use cool_classes::{BOOL, INT, STRING};
use cool_consts::Consts;
use cool_layout::Layout;
use cool_rules::TypedProgram;
use cool_runtime::{label_line, number, word_line};
use mips_isa::{AsmDirective, Line, LineLabels, Statement};
use std::alloc::{AllocError, Global};

/// The assembly of a program whose files have these names: the routines, and the initializer and the methods of each class; then the data. Returns `Err`
/// only if memory runs out.
pub fn lines(alloc: Global, p: &TypedProgram, names: &[String]) -> Result<Vec<Line>, AllocError>
    requires fits { Fits p.now (length names.now) }
    requires names { AreShortNames (map string_bytes names.now) }
    ensures lines { IfOk result (λ lines. lines_of lines.items ≡ program_lines p.now (map string_bytes names.now)) }
    ensures sound { AreSound (program_text p.now (map string_bytes names.now)) (program_data p.now (map string_bytes names.now)) }
{
    let layout = Layout::new(alloc, p.table())?;
    let emission = Emission {
        alloc,
        program: p,
        layout: &layout,
        names,
    };
    let sections = emission.sections()?;
    let mut consts = Consts::new(alloc);
    let mut lines = Vec::new(alloc);
    add_text(&emission, &sections, &mut consts, &mut lines)?;
    add_data(&emission, &consts, &mut lines)?;
    Ok(lines)
}

/// Adds the text: the routines, and the initializers and the methods of all classes. Returns `Err` only if memory runs out.
fn add_text(
    emission: &Emission<'_>,
    sections: &[Section],
    consts: &mut Consts,
    lines: &mut Vec<Line>,
) -> Result<(), AllocError>
    requires sound { IsSound emission.now }
    requires sections { sections.now ≡ sections_in emission.now.program.now }
    requires no_integers { consts.old.integers ≡ [] }
    requires no_strings { consts.old.strings ≡ [] }
    ensures { OnOk result (Adds (files_of emission.now) (all_features emission.now.program.now) (λ g. all_routine_lines ++ classes_code emission.now.program.now (files_of emission.now) g) consts.old consts.new (lines_of lines.old.items) (lines_of lines.new.items)) }
{
    for section in sections {
        emission.add_section(section, consts, lines)?;
    }
    Ok(())
}

/// Adds the data: the layout, the constants, and the begin of the heap. Returns `Err` only if memory runs out.
pub(crate) fn add_data(
    emission: &Emission<'_>,
    consts: &Consts,
    lines: &mut Vec<Line>,
) -> Result<(), AllocError>
    requires sound { IsSound emission.now }
    ensures { OnOk result (lines_of lines.new.items ≡ lines_of lines.old.items ++ directive_line ToData ∷ data_lines emission.now.program.now consts.now) }
{
    let alloc = emission.alloc;
    let layout = emission.layout;
    lines.push(Line {
        labels: LineLabels::none(),
        statement: Statement::Directive(AsmDirective::ToData),
    })?;
    add_lines(lines, layout.lines(alloc, emission.table())?)?;
    let constants = consts.lines(alloc, layout.tag(INT), layout.tag(BOOL), layout.tag(STRING))?;
    add_lines(lines, constants)?;
    add_heap(alloc, lines)
}

/// Adds the word at which the heap begins. Returns `Err` only if memory runs out.
fn add_heap(alloc: Global, lines: &mut Vec<Line>) -> Result<(), AllocError>
    ensures { OnOk result (lines_of lines.new.items ≡ lines_of lines.old.items ++ heap_lines) }
{
    lines.push(label_line(alloc, b"heap_start")?)?;
    lines.push(word_line(alloc, vec![in alloc; number(0)]?)?)?;
    Ok(())
}
