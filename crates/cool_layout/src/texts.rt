//! Functions that write the lines of assembly of class names, and of the messages that run-time routines print.

ghost use Rattle.std.specs.Prelude.{◌≡◌, ◌<◌, ◌++◌, flat_map, length, OnOk};
ghost use Rattle.std.specs.List.{AllByRecursion};
ghost use Rattle.mips_isa.specs.Lines.{lines_of};
ghost use Rattle.cool_runtime.specs.LinesOfData.{text_lines};
ghost use Rattle.cool_layout.specs.LinesOfLayout as written;

use crate::labels::{name_label, name_length_label};
use cool_classes::{ClassId, ClassTable};
use cool_runtime::{StringTags, labelled_text, string_object};
use mips_isa::Line;
use std::alloc::{AllocError, Global};

/// Adds the String of the name of a class.
fn add_name(
    alloc: Global,
    lines: &mut Vec<Line>,
    t: &ClassTable,
    tags: StringTags,
    class: ClassId,
) -> Result<(), AllocError>
    requires within { class.0 < length t.now }
    requires int { tags.int ≡ written.int_tag t.now }
    requires string { tags.string ≡ written.string_tag t.now }
    ensures { OnOk result (lines_of lines.new.items ≡ lines_of lines.old.items ++ written.name_lines t.now class) }
{
    let name = name_label(alloc, class)?;
    let length_name = name_length_label(alloc, class)?;
    let mut string = string_object(
        alloc,
        name.as_slice(),
        length_name.as_slice(),
        tags,
        t.name(class).as_slice(),
    )?;
    lines.append(&mut string)
}

/// Adds the Strings of the names of classes. Returns `Err` only if memory runs out.
pub(crate) fn add_names(
    alloc: Global,
    lines: &mut Vec<Line>,
    t: &ClassTable,
    tags: StringTags,
    order: &[ClassId],
) -> Result<(), AllocError>
    requires within { AllByRecursion (λ c. c.0 < length t.now) order.now }
    requires int { tags.int ≡ written.int_tag t.now }
    requires string { tags.string ≡ written.string_tag t.now }
    ensures { OnOk result (lines_of lines.new.items ≡ lines_of lines.old.items ++ flat_map (written.name_lines t.now) order.now) }
{
    for class in order {
        add_name(alloc, lines, t, tags, *class)?;
    }
    Ok(())
}

/// A text under a label.
#[derive(Clone, Copy)]
struct Text<'a> {
    name: &'a [u8],
    bytes: &'a [u8],
}

/// Adds texts, each up to a zero.
fn add_all(alloc: Global, lines: &mut Vec<Line>, texts: &[Text<'_>]) -> Result<(), AllocError>
    ensures { OnOk result (lines_of lines.new.items ≡ lines_of lines.old.items ++ flat_map (λ text. text_lines text.name.now text.bytes.now) texts.now) }
{
    for text in texts {
        lines.append(&mut labelled_text(alloc, text.name, text.bytes)?)?;
    }
    Ok(())
}

/// Adds the texts that routines write. Returns `Err` only if memory runs out.
#[tactic(auto, unfolding(cool_runtime::specs::Labels::end_text, cool_runtime::specs::Labels::abort_text, cool_runtime::specs::Labels::newline_text, cool_runtime::specs::Labels::colon_text, cool_runtime::specs::Labels::no_branch_text, cool_runtime::specs::Labels::stop_text, cool_runtime::specs::RoutineLabels::dispatch_text, cool_runtime::specs::RoutineLabels::case_text, cool_runtime::specs::RoutineLabels::division_text, cool_runtime::specs::RoutineLabels::substring_text, cool_runtime::specs::RoutineLabels::overflow_text))]
pub(crate) fn add_texts(alloc: Global, lines: &mut Vec<Line>) -> Result<(), AllocError>
    ensures { OnOk result (lines_of lines.new.items ≡ lines_of lines.old.items ++ written.texts_lines) }
{
    add_all(
        alloc,
        lines,
        &[
            Text {
                name: b"__end",
                bytes: b"COOL program successfully executed\n",
            },
            Text {
                name: b"__abort",
                bytes: b"Abort called from class ",
            },
            Text {
                name: b"__newline",
                bytes: b"\n",
            },
            Text {
                name: b"__colon",
                bytes: b":",
            },
            Text {
                name: b"__no_branch",
                bytes: b": No matching branch for class ",
            },
            Text {
                name: b"__stop",
                bytes: b".\n",
            },
            Text {
                name: b"__dispatch_text",
                bytes: b": Dispatch to void.\n",
            },
            Text {
                name: b"__case_text",
                bytes: b": Case on void.\n",
            },
            Text {
                name: b"__division_text",
                bytes: b": Division by zero.\n",
            },
            Text {
                name: b"__substring_text",
                bytes: b": Substring out of range.\n",
            },
            Text {
                name: b"__overflow_text",
                bytes: b": Arithmetic overflow.\n",
            },
        ],
    )
}
