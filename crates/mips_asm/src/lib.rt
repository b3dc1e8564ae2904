//! The assembler: from lines of MIPS assembly to an image (an executable program: text, data and entry address).
//!
//! Input: lines of assembly. Output: an image, or the first error. This crate implements `Assembly.antt` of `mips_isa`.
#![tactic(auto)]

mod completing;
mod expansion;
mod first_pass;
mod items;
mod labels;
mod mark;
mod position;
mod second_pass;
mod table;
mod target;
mod text_labels;
mod text_words;

ghost use Rattle.std.specs.Prelude.{◌-◌, ◌^◌, ◌<◌, length};
ghost use Rattle.mips_isa.specs.Lines.{lines_of, AreInRange};
ghost use Rattle.mips_isa.specs.Assembly.{Assembles};

pub use first_pass::FirstPass;
use mips_isa::{AsmError, Image, Line};
pub use second_pass::SecondPass;
use std::alloc::Global;
pub use text_labels::{TextLabels, text_label};
pub use text_words::words_of_statement;

/// The image of lines of assembly, in two passes.
///
/// The first pass places the labels and finds, line by line, a statement in the wrong segment (A8), a label that was defined before (A5), and a segment
/// that is too large (A9). The second one assembles, and finds a name without a place (A6), a target that is too far or not in text (A7), and, after the
/// last line, that `__start` is no label of a word (A6). If only `main` is defined, a call of it and an exit are added. Returns `Memory` only if memory
/// runs out.
///
/// Lines that are not at hand at once are assembled in parts by `FirstPass` and `SecondPass`.
pub fn assemble(alloc: Global, lines: &[Line]) -> Result<Image, AsmError>
    requires few { length lines.now < 2 ^ 32 - 4 }
    requires ranges { AreInRange (lines_of lines.now) }
    ensures { Assembles (lines_of lines.now) result }
{
    let mut first = FirstPass::new(alloc);
    first.take(lines)?;
    let mut second = first.finish()?;
    second.take(lines)?;
    second.finish()
}
