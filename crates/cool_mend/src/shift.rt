//! `origin_of` finds the byte of the given files from which the place of a compile-time error comes, if the error was found in the files after several edits.

ghost use Rattle.std.specs.Prelude.{◌≡◌, IfSome};
ghost use Rattle.cool_mend.specs.AfterFixes.{byte_before, first_byte, origin_of, shift_of};

use crate::edit::Edit;
use crate::explanation::Origin;
use cool_faults::Fault;

/// How an edit moves the bytes of a file: so many bytes stand in the place of those from `start` up to `end`.
#[derive(Clone, Copy)]
pub struct Shift {
    pub file: u32,
    pub start: usize,
    pub end: usize,
    pub size: usize,
}

/// The shift by an edit.
pub(crate) fn shift_of(edit: &Edit) -> Shift
    ensures { result ≡ shift_of edit.now }
{
    Shift {
        file: edit.file,
        start: edit.start,
        end: edit.end,
        size: edit.text.len(),
    }
}

/// Where a fault of the files after these shifts comes from in the given files; `None` if no number says that.
pub(crate) fn origin_of(shifts: &[Shift], fault: &Fault) -> Option<Origin>
    ensures { IfSome result (λ it. it ≡ origin_of shifts.now fault.now) }
{
    let at = fault.place();
    let byte = first_byte(shifts, at.file, at.byte as usize)?;
    Some(Origin {
        file: at.file,
        byte,
    })
}

/// The byte of a file from which one comes that stands there after these shifts; `None` if no number says that.
fn first_byte(shifts: &[Shift], file: u32, byte: usize) -> Option<usize>
    ensures { IfSome result (λ it. it ≡ first_byte shifts.now file byte) }
{
    let mut found = byte;
    for index in (0..shifts.len()).rev() {
        found = byte_before(shifts[index], file, found)?;
    }
    Some(found)
}

/// The same before one shift.
fn byte_before(shift: Shift, file: u32, byte: usize) -> Option<usize>
    ensures { IfSome result (λ it. it ≡ byte_before shift file byte) }
{
    if file != shift.file || byte < shift.start {
        return Some(byte);
    }
    let end = shift.start.checked_add(shift.size)?;
    if end <= byte {
        shift.end.checked_add(byte - end)
    } else {
        Some(shift.start)
    }
}
