//! `notices` collects the warnings about expressions of a program that are legal, but likely a mistake.

ghost use Rattle.std.specs.Prelude.{◌≡◌, List, map, take, IfOk, OnOk};
ghost use Rattle.std.specs.List.{AllByRecursion};
ghost use Rattle.cool_faults.specs.Files.{bytes_of};
ghost use Rattle.cool_notices.specs.declared.kind.Notice.{Notice as Due};
ghost use Rattle.cool_notices.specs.Notices.{up_to};
ghost use Rattle.cool_mend.specs.Noticed.{due_in_feature, due_in_program, due_saying, saying};
ghost use Rattle.cool_mend.specs.Ranges.{HasRange};

use crate::explanation::Notice;
use crate::range::range_at;
use crate::values::body_of;
use cool_classes::{ClassId, ClassTable};
use cool_notices::{Notice as Found, body_notices};
use cool_syntax::Feature;
use std::alloc::{AllocError, Global};

/// The most notices of a program that are told.
pub const MOST_NOTICES: usize = 20;

/// The first notices that are due in a program, feature by feature in the order of the text. Returns `Err` only if memory runs out.
pub(crate) fn notices(
    alloc: Global,
    files: &[Vec<u8>],
    classes: &ClassTable,
) -> Result<Vec<Notice>, AllocError>
    ensures first { IfOk result (λ all. map saying all.items ≡ map due_saying (take MOST_NOTICES (due_in_program classes.now))) }
    ensures ranges { IfOk result (λ all. AllByRecursion (HasRange (bytes_of files.now)) all.items) }
{
    let mut all = Vec::new(alloc);
    for number in 0..classes.count() {
        let features = classes.features(ClassId(number));
        for index in 0..features.len() {
            add_of_feature(alloc, files, &features[index], &mut all)?;
        }
    }
    Ok(all)
}

/// Adds the notices that are due in a feature, until there are so many. Returns `Err` only if memory runs out.
fn add_of_feature(
    alloc: Global,
    files: &[Vec<u8>],
    feature: &Feature,
    all: &mut Vec<Notice>,
) -> Result<(), AllocError>
    ensures ranges { AllByRecursion (HasRange (bytes_of files.now)) all.old.items → OnOk result (AllByRecursion (HasRange (bytes_of files.now)) all.new.items) }
    ensures adds { (before : List Due) → map saying all.old.items ≡ map due_saying before
        → OnOk result (map saying all.new.items ≡ map due_saying (up_to MOST_NOTICES before (due_in_feature feature.now))) }
{
    let Some(body) = body_of(feature) else {
        return Ok(());
    };
    let found = body_notices(alloc, body, MOST_NOTICES.saturating_sub(all.len()))?;
    for number in 0..found.len() {
        all.push(told(alloc, files, found[number])?)?;
    }
    Ok(())
}

/// A notice with its range and its words. Returns `Err` only if memory runs out.
fn told(alloc: Global, files: &[Vec<u8>], found: Found) -> Result<Notice, AllocError>
    ensures saying { IfOk result (λ notice. saying notice ≡ due_saying found) }
    ensures range { IfOk result (HasRange (bytes_of files.now)) }
{
    Ok(Notice {
        at: found.at,
        end: range_at(alloc, files, found.at)?.end,
        words: Vec::from_slice(alloc, found.kind.words().as_bytes())?,
    })
}
