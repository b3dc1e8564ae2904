//! `explain` explains each compile-time error of source files, with an edit that was tried and fixes the error, if one was found.

ghost use Rattle.std.specs.Prelude.{◌≡◌, ◌≢◌, ◌<◌, ◌≤◌, [], IfOk, length, map};
ghost use Rattle.std.specs.List.{AllByRecursion};
ghost use Rattle.cool_syntax.specs.declared.TheConstants.{MOST_FILES, MOST_SOURCE_BYTES};
ghost use Rattle.cool_syntax.specs.TokenFacts.{IsPlaced};
ghost use Rattle.cool_faults.specs.Files.{bytes_of, total};
ghost use Rattle.cool_faults.specs.Verdicts.{IsAccepted, place_of};
ghost use Rattle.cool_mend.specs.Noticed.{AreNoticed};
ghost use Rattle.cool_mend.specs.AfterFixes.{AreAfterFixes, ArePlaced, begun};
ghost use Rattle.cool_mend.specs.Explanations.{AreExplained, AreMends, HaveTable, IsTold};

use crate::after_fixes::after_fixes;
use crate::explained::{explanation, sources};
use crate::explanation::{Explained, Explanation};
use crate::fixes::{Budget, fixes};
use crate::noticing::notices;
use crate::search::Search;
use crate::types::class_table;
use cool_classes::ClassTable;
use cool_faults::{Fault, Verdict, accept};
use std::alloc::{AllocError, Global};

/// An explanation of each fault of the files, in the order of the fault list, with an edit that was tried and mends it, if one was found. There are at
/// most 64 files, and they have at most 1,048,576 bytes together. Returns `Err` only if memory runs out.
pub fn explain(alloc: Global, files: &[Vec<u8>]) -> Result<Explained, AllocError>
    requires few { length files.now ≤ MOST_FILES }
    requires small { total (bytes_of files.now) ≤ MOST_SOURCE_BYTES }
    ensures explained { IfOk result (λ told. AreExplained (bytes_of files.now) told.explanations.items) }
    // Each fault stands in one of the files, where there are any.
    ensures placed { 0 < length (bytes_of files.now)
        → IfOk result (λ told. AllByRecursion (λ x. IsPlaced (length (bytes_of files.now)) (place_of x.fault)) told.explanations.items) }
    // The first notices that are due are told of a program, and none of other files.
    ensures noticed { IfOk result (λ told. told.explanations.items ≡ [] → AreNoticed (bytes_of files.now) told.notices.items) }
    ensures quiet { IfOk result (λ told. told.notices.items ≢ [] → told.explanations.items ≡ []) }
    // The faults that files have after fixes are explained, too, step by step.
    ensures after { IfOk result (λ told. AreAfterFixes (begun (bytes_of files.now) told.explanations.items) told.after_fixes.items) }
    ensures after_placed { 0 < length (bytes_of files.now)
        → IfOk result (λ told. AllByRecursion (ArePlaced (length (bytes_of files.now))) told.after_fixes.items) }
{
    match accept(alloc, files)? {
        Verdict::Accepted(program) => of_program(alloc, files, program.table()),
        Verdict::Refused(faults) => of_faults(alloc, files, faults.as_slice()),
    }
}

/// The notices of files that are this program, and no explanation. Returns `Err` only if memory runs out.
fn of_program(alloc: Global, files: &[Vec<u8>], table: &ClassTable) -> Result<Explained, AllocError>
    requires accepted { IsAccepted (bytes_of files.now) table.now }
    ensures none { IfOk result (λ told. told.explanations.items ≡ []) }
    ensures explained { IfOk result (λ told. AreExplained (bytes_of files.now) told.explanations.items) }
    ensures noticed { IfOk result (λ told. AreNoticed (bytes_of files.now) told.notices.items) }
    ensures after { IfOk result (λ told. told.after_fixes.items ≡ []) }
{
    let notices = notices(alloc, files, table)?;
    Ok(Explained {
        explanations: Vec::new(alloc),
        after_fixes: Vec::new(alloc),
        notices,
    })
}

/// The explanations of files with these faults, and no notice. Returns `Err` only if memory runs out.
fn of_faults(alloc: Global, files: &[Vec<u8>], faults: &[Fault]) -> Result<Explained, AllocError>
    requires few { length files.now ≤ MOST_FILES }
    requires small { total (bytes_of files.now) ≤ MOST_SOURCE_BYTES }
    requires placed { 0 < length (bytes_of files.now) → AllByRecursion (λ f. IsPlaced (length (bytes_of files.now)) (place_of f)) faults.now }
    ensures each { IfOk result (λ all. map (λ x. x.fault) all.explanations.items ≡ faults.now) }
    ensures placed { 0 < length (bytes_of files.now)
        → IfOk result (λ all. AllByRecursion (λ x. IsPlaced (length (bytes_of files.now)) (place_of x.fault)) all.explanations.items) }
    ensures told { IfOk result (λ all. AllByRecursion (IsTold (bytes_of files.now)) all.explanations.items) }
    ensures mends { IfOk result (λ all. AreMends (bytes_of files.now) faults.now 0 all.explanations.items) }
    ensures none { IfOk result (λ all. all.notices.items ≡ []) }
    ensures after { IfOk result (λ all. AreAfterFixes (begun (bytes_of files.now) all.explanations.items) all.after_fixes.items) }
    ensures after_placed { 0 < length (bytes_of files.now)
        → IfOk result (λ all. AllByRecursion (ArePlaced (length (bytes_of files.now))) all.after_fixes.items) }
{
    let classes = class_table(alloc, files)?;
    let mut budget = Budget::new(files);
    let explanations = explanations(alloc, files, &classes, faults, &mut budget)?;
    let after_fixes = after_fixes(alloc, files, &explanations, budget)?;
    Ok(Explained {
        explanations,
        after_fixes,
        notices: Vec::new(alloc),
    })
}

/// The explanations of these faults of files. Returns `Err` only if memory runs out.
fn explanations(
    alloc: Global,
    files: &[Vec<u8>],
    classes: &Option<ClassTable>,
    faults: &[Fault],
    budget: &mut Budget,
) -> Result<Vec<Explanation>, AllocError>
    requires few { length files.now ≤ MOST_FILES }
    requires small { total (bytes_of files.now) ≤ MOST_SOURCE_BYTES }
    requires classes { HaveTable (bytes_of files.now) classes.now }
    ensures each { IfOk result (λ all. map (λ x. x.fault) all.items ≡ faults.now) }
    ensures told { IfOk result (λ all. AllByRecursion (IsTold (bytes_of files.now)) all.items) }
    ensures mends { IfOk result (λ all. AreMends (bytes_of files.now) faults.now 0 all.items) }
{
    let sources = sources(alloc, files)?;
    let mut search = Search::new(alloc, &sources, faults, budget.excerpts);
    let mut all = Vec::new(alloc);
    for number in 0..faults.len() {
        let mends = fixes(alloc, files, faults, number, &mut search, &mut budget.files)?;
        all.push(explanation(alloc, files, &sources, classes, &faults[number], mends)?)?;
    }
    budget.excerpts = search.left();
    Ok(all)
}
