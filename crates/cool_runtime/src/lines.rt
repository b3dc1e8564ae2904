//! Puts together the assembly lines of each run-time routine from its parts.

ghost use Rattle.std.specs.Prelude.{◌≡◌, ◌++◌, ◌<◌, map, IfOk, OnOk};
ghost use Rattle.mips_isa.specs.Lines.{lines_of};
ghost use Rattle.cool_runtime.specs.Drafts.{drafted};
ghost use Rattle.cool_runtime.specs.Reaches.{World};
ghost use Rattle.cool_runtime.specs.Meanings.{Means};
ghost use Rattle.cool_runtime.specs.Routines.{copy_lines, in_int_lines, in_string_lines, concat_lines, substr_lines, equal_lines, string_end_lines};
ghost use Rattle.cool_runtime.specs.RoutineLines.{all_routine_lines, error_routines_lines, io_routines_lines, limit_routines_lines, object_routines_lines, routine_lines, value_routines_lines};

use crate::catalogue::Routine;
use crate::draft::{Draft, addiu, copied, jr, label, write};
use crate::piece::{bytes, error, int_head, new_int, string_head, string_return, string_zeros};
use crate::routine_part::{
    abort, concat_begin, concat_turn, copy_end, copy_first, copy_words, equal_begin, equal_bytes,
    equal_false, equal_strings, equal_true, equal_values, in_string_begin, in_string_bytes,
    in_string_end, length, limit, no_branch, out_int, out_string, read_number, return_call, start,
    substr_begin, substr_size, type_name,
};
use mips_isa::Line;
use mips_isa::register::{A0, GP, RA, SP, T1};
use std::alloc::{AllocError, Global};

/// The lines of a routine, which do what it is to do wherever they stand in a text. Returns `Err` only if memory runs out.
pub fn routine(alloc: Global, routine: Routine) -> Result<Vec<Line>, AllocError>
    ensures lines { IfOk result (λ lines. lines_of lines.items ≡ routine_lines routine) }
    ensures meaning { (w : World) → Means w routine }
{
    let mut lines = Vec::new(alloc);
    add_routine(alloc, &mut lines, routine)?;
    Ok(lines)
}

/// The lines of all routines. Returns `Err` only if memory runs out.
pub fn routines(alloc: Global) -> Result<Vec<Line>, AllocError>
    ensures { IfOk result (λ lines. lines_of lines.items ≡ all_routine_lines) }
{
    let mut lines = Vec::new(alloc);
    object_routines(alloc, &mut lines)?;
    io_routines(alloc, &mut lines)?;
    value_routines(alloc, &mut lines)?;
    error_routines(alloc, &mut lines)?;
    limit_routines(alloc, &mut lines)?;
    Ok(lines)
}

/// The begin, and the routines of Object.
fn object_routines(alloc: Global, lines: &mut Vec<Line>) -> Result<(), AllocError>
    ensures { OnOk result (lines_of lines.new.items ≡ lines_of lines.old.items ++ object_routines_lines) }
{
    add_routine(alloc, lines, Routine::Start)?;
    add_routine(alloc, lines, Routine::Copy)?;
    add_routine(alloc, lines, Routine::Abort)?;
    add_routine(alloc, lines, Routine::TypeName)
}

/// The routines of IO.
fn io_routines(alloc: Global, lines: &mut Vec<Line>) -> Result<(), AllocError>
    ensures { OnOk result (lines_of lines.new.items ≡ lines_of lines.old.items ++ io_routines_lines) }
{
    add_routine(alloc, lines, Routine::OutString)?;
    add_routine(alloc, lines, Routine::OutInt)?;
    add_routine(alloc, lines, Routine::InString)?;
    add_routine(alloc, lines, Routine::InInt)
}

/// The routines of values.
fn value_routines(alloc: Global, lines: &mut Vec<Line>) -> Result<(), AllocError>
    ensures { OnOk result (lines_of lines.new.items ≡ lines_of lines.old.items ++ value_routines_lines) }
{
    add_routine(alloc, lines, Routine::Length)?;
    add_routine(alloc, lines, Routine::Concat)?;
    add_routine(alloc, lines, Routine::Substr)?;
    add_routine(alloc, lines, Routine::Equal)
}

/// The ends by errors of dispatches, cases and divisions.
fn error_routines(alloc: Global, lines: &mut Vec<Line>) -> Result<(), AllocError>
    ensures { OnOk result (lines_of lines.new.items ≡ lines_of lines.old.items ++ error_routines_lines) }
{
    add_routine(alloc, lines, Routine::DispatchVoid)?;
    add_routine(alloc, lines, Routine::CaseVoid)?;
    add_routine(alloc, lines, Routine::NoBranch)?;
    add_routine(alloc, lines, Routine::DivZero)
}

/// The ends by other errors and by limits.
fn limit_routines(alloc: Global, lines: &mut Vec<Line>) -> Result<(), AllocError>
    ensures { OnOk result (lines_of lines.new.items ≡ lines_of lines.old.items ++ limit_routines_lines) }
{
    add_routine(alloc, lines, Routine::SubstrRange)?;
    add_routine(alloc, lines, Routine::Overflow)?;
    add_routine(alloc, lines, Routine::HeapLimit)?;
    add_routine(alloc, lines, Routine::StackLimit)
}

/// Adds the lines of a routine. Returns `Err` only if memory runs out.
fn add_routine(alloc: Global, lines: &mut Vec<Line>, routine: Routine) -> Result<(), AllocError>
    ensures { OnOk result (lines_of lines.new.items ≡ lines_of lines.old.items ++ routine_lines routine) }
{
    match routine {
        Routine::Start => write(alloc, lines, &start()),
        Routine::Copy => copy(alloc, lines),
        Routine::Abort => write(alloc, lines, &abort()),
        Routine::TypeName => write(alloc, lines, &type_name()),
        Routine::OutString => write(alloc, lines, &out_string()),
        Routine::OutInt => write(alloc, lines, &out_int()),
        Routine::InString => in_string(alloc, lines),
        Routine::InInt => in_int(alloc, lines),
        Routine::Length => write(alloc, lines, &length()),
        Routine::Concat => concat(alloc, lines),
        Routine::Substr => substr(alloc, lines),
        Routine::Equal => equal(alloc, lines),
        Routine::DispatchVoid => write(alloc, lines, &error(b"dispatch_abort", b"__dispatch_text")),
        Routine::CaseVoid => write(alloc, lines, &error(b"case_abort2", b"__case_text")),
        Routine::NoBranch => write(alloc, lines, &no_branch()),
        Routine::DivZero => write(alloc, lines, &error(b"div_abort", b"__division_text")),
        Routine::SubstrRange => write(alloc, lines, &error(b"substr_abort", b"__substring_text")),
        Routine::Overflow => write(alloc, lines, &error(b"overflow_abort", b"__overflow_text")),
        Routine::HeapLimit => write(alloc, lines, &limit(b"heap_limit", 4)),
        Routine::StackLimit => write(alloc, lines, &limit(b"stack_limit", 5)),
    }
}

/// Copies an object to the heap.
fn copy(alloc: Global, lines: &mut Vec<Line>) -> Result<(), AllocError>
    ensures { OnOk result (lines_of lines.new.items ≡ lines_of lines.old.items ++ copy_lines) }
{
    write(alloc, lines, &copy_first())?;
    write(alloc, lines, &copy_words())?;
    write(alloc, lines, &copy_end())
}

/// Reads a line.
fn in_string(alloc: Global, lines: &mut Vec<Line>) -> Result<(), AllocError>
    ensures { OnOk result (lines_of lines.new.items ≡ lines_of lines.old.items ++ in_string_lines) }
{
    write(alloc, lines, &in_string_begin())?;
    write(alloc, lines, &in_string_bytes())?;
    write(alloc, lines, &in_string_end())?;
    write(alloc, lines, &int_head())?;
    write(alloc, lines, &string_head())?;
    write(alloc, lines, &string_return())
}

/// Reads an Int.
fn in_int(alloc: Global, lines: &mut Vec<Line>) -> Result<(), AllocError>
    ensures { OnOk result (lines_of lines.new.items ≡ lines_of lines.old.items ++ in_int_lines) }
{
    write(alloc, lines, &read_number())?;
    write(alloc, lines, &new_int())?;
    write(alloc, lines, &return_call())
}

/// Joins two Strings.
#[tactic(auto, unfolding(crate::specs::Labels::concat_first, crate::specs::Labels::concat_second, crate::specs::Labels::concat_third, crate::specs::Labels::concat_end))]
fn concat(alloc: Global, lines: &mut Vec<Line>) -> Result<(), AllocError>
    ensures { OnOk result (lines_of lines.new.items ≡ lines_of lines.old.items ++ concat_lines) }
{
    write(alloc, lines, &concat_begin())?;
    write(alloc, lines, &int_head())?;
    write(alloc, lines, &string_head())?;
    write(alloc, lines, &string_zeros())?;
    write(alloc, lines, &bytes(b"concat_first", b"concat_second"))?;
    write(alloc, lines, &concat_turn())?;
    write(alloc, lines, &bytes(b"concat_third", b"concat_end"))?;
    write(alloc, lines, &string_end(b"concat_end", 4))
}

/// A part of a String.
#[tactic(auto, unfolding(crate::specs::Labels::substr_bytes, crate::specs::Labels::substr_end))]
fn substr(alloc: Global, lines: &mut Vec<Line>) -> Result<(), AllocError>
    ensures { OnOk result (lines_of lines.new.items ≡ lines_of lines.old.items ++ substr_lines) }
{
    write(alloc, lines, &substr_begin())?;
    write(alloc, lines, &substr_size())?;
    write(alloc, lines, &int_head())?;
    write(alloc, lines, &string_head())?;
    write(alloc, lines, &string_zeros())?;
    write(alloc, lines, &bytes(b"substr_bytes", b"substr_end"))?;
    write(alloc, lines, &string_end(b"substr_end", 8))
}

/// Returns a String, and takes so many bytes of arguments.
fn string_end(name: &[u8], arguments: u32) -> [Draft<'_>; 5]
    requires { arguments < 16 }
    ensures { map drafted result ≡ string_end_lines name.now arguments }
{
    [
        label(name),
        addiu(A0, GP, 24),
        copied(GP, T1),
        addiu(SP, SP, arguments as i32),
        jr(RA),
    ]
}

/// Compares two objects.
fn equal(alloc: Global, lines: &mut Vec<Line>) -> Result<(), AllocError>
    ensures { OnOk result (lines_of lines.new.items ≡ lines_of lines.old.items ++ equal_lines) }
{
    write(alloc, lines, &equal_begin())?;
    write(alloc, lines, &equal_values())?;
    write(alloc, lines, &equal_strings())?;
    write(alloc, lines, &equal_bytes())?;
    write(alloc, lines, &equal_true())?;
    write(alloc, lines, &equal_false())
}
