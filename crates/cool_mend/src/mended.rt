//! `is_mended` tests whether an edit fixes a compile-time error, by the error lists of the files before and after the edit.

ghost use Rattle.std.specs.Prelude.{◌≡◌, ◌≤◌, ◌+◌, ◌++◌, ◌∷◌, [], List, IfSome, map, length, take, drop, true};
ghost use Rattle.cool_faults.specs.Files.{bytes_of};
ghost use Rattle.cool_faults.specs.Verdicts.{rank, standing_of};
ghost use Rattle.cool_syntax.specs.FaultOrder.{Standing};
ghost use Rattle.cool_mend.specs.Edits.{IsEdit, edited};
ghost use Rattle.cool_mend.specs.Mends.{Advances, IsMended, IsNext, IsPart, bytes_behind, class_phase, line_ends, moved, moved_standing, phase_of, reached, taken};

use crate::edit::Edit;
use crate::range::file_of;
use cool_classes::ClassKind;
use cool_faults::Fault;
use cool_syntax::Place;

/// Whether the second fault list, which the edited files have, mends the fault of this number of the first.
pub(crate) fn is_mended(
    files: &[Vec<u8>],
    new: &[Vec<u8>],
    edit: &Edit,
    before: &[Fault],
    number: usize,
    after: &[Fault],
) -> bool
    requires edit { IsEdit (bytes_of files.now) edit.now }
    requires new { bytes_of new.now ≡ edited edit.now (bytes_of files.now) }
    requires stands { number + 1 ≤ length before.now }
    ensures { result ≡ true → IsMended (bytes_of files.now) edit.now before.now number after.now }
{
    if reached(before) < reached(after) {
        return true;
    }
    let lines = Lines {
        more: line_ends(&edit.text),
        less: line_ends(&files[edit.file as usize].as_slice()[edit.start..edit.end]),
    };
    are_others(edit, lines, before, number, after)
        || advances(files, new, edit, lines, before, number, after)
}

/// Whether the faults after an edit are among the faults but the one of this number.
fn are_others(edit: &Edit, lines: Lines, before: &[Fault], number: usize, after: &[Fault]) -> bool
    requires stands { number + 1 ≤ length before.now }
    ensures { result ≡ true → IsPart (map standing_of after.now)
        (map (moved_standing edit.now lines.more lines.less) (take number before.now ++ drop (number + 1) before.now)) }
{
    let front = passed(edit, lines, &before[..number], after, 0);
    passed(edit, lines, &before[number + 1..], after, front) == after.len()
}

/// Whether the faults after an edit are the next one behind the fault of this number, and no fault but the other ones.
fn advances(
    files: &[Vec<u8>],
    new: &[Vec<u8>],
    edit: &Edit,
    lines: Lines,
    before: &[Fault],
    number: usize,
    after: &[Fault],
) -> bool
    requires new { bytes_of new.now ≡ edited edit.now (bytes_of files.now) }
    requires stands { number + 1 ≤ length before.now }
    requires more { lines.more ≡ line_ends edit.now.text.items }
    requires less { lines.less ≡ line_ends (taken edit.now (bytes_of files.now)) }
    ensures { result ≡ true → Advances (bytes_of files.now) edit.now before.now number after.now }
{
    let front = passed(edit, lines, &before[..number], after, 0);
    if front >= after.len() {
        return false;
    }
    let back = &after[front + 1..];
    is_next(files, new, edit, &before[number], &after[front])
        && passed(edit, lines, &before[number + 1..], back, 0) == back.len()
}

/// Whether a fault of the edited files is the next one behind this fault of the files.
fn is_next(files: &[Vec<u8>], new: &[Vec<u8>], edit: &Edit, before: &Fault, after: &Fault) -> bool
    requires new { bytes_of new.now ≡ edited edit.now (bytes_of files.now) }
    ensures { result ≡ true → IsNext (bytes_of files.now) edit.now before.now after.now }
{
    let at = after.place();
    phase_of(after) == phase_of(before)
        && at.file == before.place().file
        && (at.file != edit.file || is_behind(edit, at.byte as usize))
        && bytes_behind(new, after) < bytes_behind(files, before)
}

/// Whether a byte of the edited file stands behind the bytes that the edit adds.
fn is_behind(edit: &Edit, byte: usize) -> bool
    ensures { result ≡ true → edit.now.start + length edit.now.text.items ≤ byte }
{
    edit.start <= byte && edit.text.len() <= byte - edit.start
}

/// The number of bytes of its file that stand behind the place of a fault of files.
fn bytes_behind(files: &[Vec<u8>], fault: &Fault) -> usize
    ensures { result ≡ bytes_behind (bytes_of files.now) fault.now }
{
    let at = fault.place();
    file_of(files, at.file)
        .len()
        .saturating_sub(at.byte as usize)
}

/// The phase of the first fault of a fault list; one more than all phases if it is empty.
pub(crate) fn reached(faults: &[Fault]) -> u32
    ensures { result ≡ reached faults.now }
{
    match faults {
        [] => 5,
        [first, ..] => phase_of(first),
    }
}

/// The number of the phase that finds a fault.
fn phase_of(fault: &Fault) -> u32
    ensures { result ≡ phase_of fault.now }
{
    match fault {
        Fault::Lex(_) => 0,
        Fault::Syntax(_) => 1,
        Fault::Class(fault) => class_phase(fault.kind),
        Fault::Typing(_) => 4,
    }
}

fn class_phase(kind: ClassKind) -> u32
    ensures { result ≡ class_phase kind }
{
    match kind {
        ClassKind::C1
        | ClassKind::C2
        | ClassKind::C3
        | ClassKind::C4
        | ClassKind::C5
        | ClassKind::C6
        | ClassKind::C7 => 2,
        _ => 3,
    }
}

/// The numbers of ends of lines that an edit adds and takes.
#[derive(Clone, Copy)]
struct Lines {
    more: usize,
    less: usize,
}

/// The number of lines that end in some bytes.
fn line_ends(bytes: &[u8]) -> usize
    ensures { result ≡ line_ends bytes.now }
{
    let mut count = 0;
    for index in 0..bytes.len() {
        if bytes[index] == b'\n' {
            count += 1;
        }
    }
    count
}

/// The number of faults after an edit that are passed, from one of this number on: each of these faults before it passes at most one, itself.
fn passed(edit: &Edit, lines: Lines, faults: &[Fault], after: &[Fault], start: usize) -> usize
    requires start { start ≤ length after.now }
    ensures bound { result ≤ length after.now }
    ensures part { (earlier : List Standing) → IsPart (map standing_of (take start after.now)) earlier
        → IsPart (map standing_of (take result after.now)) (earlier ++ map (moved_standing edit.now lines.more lines.less) faults.now) }
{
    let mut found = start;
    for index in 0..faults.len() {
        found = next(edit, lines, &faults[index], after, found);
    }
    found
}

/// The number of faults after an edit that are passed if so many were, and this fault passes the next one if that is itself.
fn next(edit: &Edit, lines: Lines, fault: &Fault, after: &[Fault], found: usize) -> usize
    requires bound { found ≤ length after.now }
    ensures bound { result ≤ length after.now }
    ensures part { (earlier : List Standing) → IsPart (map standing_of (take found after.now)) earlier
        → IsPart (map standing_of (take result after.now)) (earlier ++ moved_standing edit.now lines.more lines.less fault.now ∷ []) }
{
    if found < after.len() && becomes(edit, lines, fault, &after[found]) {
        found + 1
    } else {
        found
    }
}

/// Whether a fault is this one after an edit: of its kind, and where it stands then.
fn becomes(edit: &Edit, lines: Lines, fault: &Fault, after: &Fault) -> bool
    ensures { result ≡ true → standing_of after.now ≡ moved_standing edit.now lines.more lines.less fault.now }
{
    match moved(edit, lines, fault.place()) {
        Some(at) => at == after.place() && are_alike(fault, after),
        None => false,
    }
}

/// Whether two faults are of one kind.
fn are_alike(a: &Fault, b: &Fault) -> bool
    ensures { result ≡ true → rank b.now ≡ rank a.now }
{
    match (a, b) {
        (Fault::Lex(a), Fault::Lex(b)) => a.kind == b.kind,
        (Fault::Syntax(_), Fault::Syntax(_)) => true,
        (Fault::Class(a), Fault::Class(b)) => a.kind == b.kind,
        (Fault::Typing(a), Fault::Typing(b)) => a.kind == b.kind,
        _ => false,
    }
}

/// A place where it is after an edit, or none where no number of 32 bits says where that is.
fn moved(edit: &Edit, lines: Lines, at: Place) -> Option<Place>
    ensures { IfSome result (λ it. it ≡ moved edit.now lines.more lines.less at) }
{
    if at.file != edit.file || (at.byte as usize) < edit.end {
        return Some(at);
    }
    let line = (at.line as usize)
        .checked_add(lines.more)?
        .saturating_sub(lines.less);
    let front = edit.start.checked_add(edit.text.len())?;
    let byte = front.checked_add(at.byte as usize - edit.end)?;
    Some(Place {
        file: at.file,
        line: u32::try_from(line).ok()?,
        byte: u32::try_from(byte).ok()?,
    })
}
