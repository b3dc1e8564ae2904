//! `after_fixes` explains the compile-time errors that are found once the suggested fixes are made, step by step.

ghost use Rattle.std.specs.Prelude.{◌≡◌, ◌++◌, [], ◌<◌, ◌≤◌, List, IfOk, IfSome, OnOk, length, map};
ghost use Rattle.std.specs.List.{AllByRecursion, list_any};
ghost use Rattle.cool_syntax.specs.declared.TheConstants.{MOST_FILES, MOST_SOURCE_BYTES};
ghost use Rattle.cool_syntax.specs.TokenFacts.{IsPlaced};
ghost use Rattle.cool_faults.specs.Files.{bytes_of, total};
ghost use Rattle.cool_faults.specs.Verdicts.{IsFaultList, place_of};
ghost use Rattle.cool_mend.specs.Explanations.{HaveTable};
ghost use Rattle.cool_mend.specs.AfterFixes.{AreAfterFixes, AreExplainedNew, AreMade, ArePlaced, HasProgress, IsAfterFixes, Progress, after, begun, is_same, origin_of, shift_of};

use crate::edit::Edit;
use crate::explained::{explanation, sources};
use crate::explanation::{AfterFixes, Explanation, Origin};
use crate::fixes::{Budget, fixes, size_of};
use crate::fixing::{Fixed, make_fixes};
use crate::search::Search;
use crate::shift::{Shift, origin_of, shift_of};
use crate::trial::fault_list;
use crate::types::class_table;
use cool_classes::ClassTable;
use cool_faults::Fault;
use std::alloc::{AllocError, Global};

/// The most steps after which errors are explained.
const MOST_STEPS: usize = 40;

/// The state of the steps so far.
#[derive(Drop)]
struct Steps {
    /// The shifts by all edits that were made.
    shifts: Vec<Shift>,
    /// The places in the given files of the errors that were told.
    told: Vec<Origin>,
    budget: Budget,
}

/// The errors of the files after the fixes in these explanations of all of their errors, and so on, within this budget. Returns `Err` only if memory runs
/// out.
pub(crate) fn after_fixes(
    alloc: Global,
    files: &[Vec<u8>],
    explained: &[Explanation],
    budget: Budget,
) -> Result<Vec<AfterFixes>, AllocError>
    requires few { length files.now ≤ MOST_FILES }
    requires small { total (bytes_of files.now) ≤ MOST_SOURCE_BYTES }
    ensures steps { IfOk result (λ all. AreAfterFixes (begun (bytes_of files.now) explained.now) all.items) }
    ensures placed { 0 < length (bytes_of files.now)
        → IfOk result (λ all. AllByRecursion (ArePlaced (length (bytes_of files.now))) all.items) }
{
    let mut all = Vec::new(alloc);
    let Some(told) = origins(alloc, explained)? else {
        return Ok(all);
    };
    let mut steps = Steps {
        shifts: Vec::new(alloc),
        told,
        budget,
    };
    let mut made = make_fixes(alloc, files, explained)?;
    for _ in 0..MOST_STEPS {
        let Some(step) = next(alloc, made, &mut steps)? else {
            return Ok(all);
        };
        made = make_fixes(alloc, &step.files, &step.explanations)?;
        all.push(step)?;
    }
    Ok(all)
}

/// The places of the faults that are explained; `None` if no number says one. Returns `Err` only if memory runs out.
fn origins(alloc: Global, explained: &[Explanation]) -> Result<Option<Vec<Origin>>, AllocError>
    ensures { IfOk result (λ answer. IfSome answer (λ all. all.items ≡ map (λ x. origin_of [] x.fault) explained.now)) }
{
    let mut all = Vec::new(alloc);
    for index in 0..explained.len() {
        let Some(origin) = origin_of(&[], &explained[index].fault) else {
            return Ok(None);
        };
        all.push(origin)?;
    }
    Ok(Some(all))
}

/// The new errors of the files after these fixes; `None` if there is no fix, no new error, or not enough bytes are left. Returns `Err` only if memory runs
/// out.
fn next(alloc: Global, made: Fixed, steps: &mut Steps) -> Result<Option<AfterFixes>, AllocError>
    requires few { length made.files.items ≤ MOST_FILES }
    requires small { total (bytes_of made.files.items) ≤ MOST_SOURCE_BYTES }
    ensures step { (p : Progress) → HasProgress p steps.old.shifts.items steps.old.told.items → AreMade p.files p.explained made.edits.items (bytes_of made.files.items)
        → IfOk result (λ answer. IfSome answer (λ a. IsAfterFixes p a)) }
    ensures progress { (p : Progress) → HasProgress p steps.old.shifts.items steps.old.told.items → AreMade p.files p.explained made.edits.items (bytes_of made.files.items)
        → IfOk result (λ answer. IfSome answer (λ a. HasProgress (after p a) steps.new.shifts.items steps.new.told.items)) }
    ensures files { IfOk result (λ answer. IfSome answer (λ a. a.files ≡ made.files)) }
    ensures placed { 0 < length (bytes_of made.files.items)
        → IfOk result (λ answer. IfSome answer (λ a. ArePlaced (length (bytes_of made.files.items)) a)) }
{
    let Fixed { edits, files } = made;
    let size = size_of(&files);
    if edits.is_empty() || size > steps.budget.files {
        return Ok(None);
    }
    steps.budget.files -= size;
    append_shifts(&mut steps.shifts, &edits)?;
    let faults = fault_list(alloc, &files)?;
    let classes = class_table(alloc, &files)?;
    let Some(new) = explained_new(alloc, &files, &classes, &faults, steps)? else {
        return Ok(None);
    };
    let New {
        explanations,
        origins,
    } = new;
    append_origins(&mut steps.told, &origins)?;
    Ok(Some(AfterFixes {
        edits,
        files,
        explanations,
        origins,
    }))
}

/// Adds the shifts by edits. Returns `Err` only if memory runs out.
fn append_shifts(shifts: &mut Vec<Shift>, edits: &[Edit]) -> Result<(), AllocError>
    ensures { OnOk result (shifts.new.items ≡ shifts.old.items ++ map shift_of edits.now) }
{
    for index in 0..edits.len() {
        shifts.push(shift_of(&edits[index]))?;
    }
    Ok(())
}

/// Adds places. Returns `Err` only if memory runs out.
fn append_origins(told: &mut Vec<Origin>, origins: &[Origin]) -> Result<(), AllocError>
    ensures { OnOk result (told.new.items ≡ told.old.items ++ origins.now) }
{
    for index in 0..origins.len() {
        told.push(origins[index])?;
    }
    Ok(())
}

/// Explanations of faults, and where the faults come from.
#[derive(Drop)]
struct New {
    explanations: Vec<Explanation>,
    origins: Vec<Origin>,
}

/// The explanations of those of the files' faults that come from a place where none was told before; `None` if there are none. Returns `Err` only if memory
/// runs out.
fn explained_new(
    alloc: Global,
    files: &[Vec<u8>],
    classes: &Option<ClassTable>,
    faults: &[Fault],
    steps: &mut Steps,
) -> Result<Option<New>, AllocError>
    requires few { length files.now ≤ MOST_FILES }
    requires small { total (bytes_of files.now) ≤ MOST_SOURCE_BYTES }
    requires classes { HaveTable (bytes_of files.now) classes.now }
    ensures new { IfOk result (λ answer. IfSome answer (λ new.
        AreExplainedNew (bytes_of files.now) faults.now steps.old.shifts.items steps.old.told.items new.explanations.items new.origins.items)) }
    ensures shifts { steps.new.shifts.items ≡ steps.old.shifts.items }
    ensures told { steps.new.told.items ≡ steps.old.told.items }
{
    let sources = sources(alloc, files)?;
    let mut search = Search::new(alloc, &sources, faults, steps.budget.excerpts);
    let mut explanations = Vec::new(alloc);
    let mut origins = Vec::new(alloc);
    for number in 0..faults.len() {
        let fault = &faults[number];
        let Some(origin) = origin_of(&steps.shifts, fault) else {
            return Ok(None);
        };
        if is_told(&steps.told, origin) {
            continue;
        }
        let mends = fixes(
            alloc,
            files,
            faults,
            number,
            &mut search,
            &mut steps.budget.files,
        )?;
        explanations.push(explanation(alloc, files, &sources, classes, fault, mends)?)?;
        origins.push(origin)?;
    }
    steps.budget.excerpts = search.left();
    if explanations.is_empty() {
        return Ok(None);
    }
    Ok(Some(New {
        explanations,
        origins,
    }))
}

/// Whether an error was told of a place.
fn is_told(told: &[Origin], origin: Origin) -> bool
    ensures { result ≡ list_any (is_same origin) told.now }
{
    for index in 0..told.len() {
        if told[index].file == origin.file && told[index].byte == origin.byte {
            return true;
        }
    }
    false
}
