//! Checks edited files by the stored results if they differ from those before only in source locations, or in one feature that declares the same as before.

ghost use Rattle.std.specs.Prelude.{◌≡◌, ◌≤◌, ◌<◌, ◌^◌, ℕ, List, [], Option, Some, length, slice_set, IfOk, IfSome, IfNone, OnOk, OnErr};
ghost use Rattle.std.specs.List.{AllByRecursion, slice_get};
ghost use Rattle.cool_syntax.specs.declared.file_tree.Feature as syntax;
ghost use Rattle.cool_syntax.specs.declared.TheConstants.{MOST_FILES, MOST_SOURCE_BYTES};
ghost use Rattle.cool_check.specs.Calls.{called};
ghost use Rattle.cool_check.specs.TypingFaults.{feature_checked};
ghost use Rattle.cool_classes.specs.Bodies.{with_feature_at};
ghost use Rattle.cool_classes.specs.Chains.{features_of};
ghost use Rattle.cool_classes.specs.Declarations.{IsDeclaredBy};
ghost use Rattle.cool_faults.specs.Files.{bytes_of, total};
ghost use Rattle.cool_faults.specs.Phases.{AreFound, IsLexed, IsLexical};
ghost use Rattle.cool_session.specs.Bases.{seen, tokens_of};
ghost use Rattle.cool_session.specs.Edits.{DifferInFeature, SameTokens};
ghost use Rattle.cool_session.specs.FeatureTokens.{IsFeature, runs_of};
ghost use Rattle.cool_session.specs.Fresh.{IsFresh};
ghost use Rattle.cool_session.specs.KeptChecks.{AreKeptAmong, HasFewTokens, IsBaseOf, IsLexing};
ghost use Rattle.cool_session.specs.KeptFaults.{AreFaultsOf, IsKeptOf, faults_kept};
ghost use Rattle.cool_session.specs.NewFeatures.{calls_after, runs_seen, IsAskedWithin};
ghost use Rattle.cool_session.specs.Runs.{IsWithin, run_tokens};

use crate::base::{Base, KeptFault};
use crate::difference::{Difference, find_difference};
use crate::fault_list::fault_list;
use crate::ids::{FeatureId, feature_ids};
use crate::one_feature::one_feature;
use crate::reply::Reply;
use crate::runs::{Run, tokens_in};
use crate::same_declarations::declare_same;
use crate::typed::typed;
use cool_check::Typer;
use cool_classes::ClassTable;
use cool_faults::{Fault, Refusal, lex_files};
use cool_lexer::Lexed;
use cool_syntax::Feature;
use std::alloc::{AllocError, Global};

/// Checks files over a base, if their tokens, except for places, are those of its files except those of one feature, which declares the same as before.
/// Else returns `None`. If `None` or `Err` is returned, the base is as it was. Returns `Err` only if memory runs out.
pub(crate) fn check_edited<K: Typer>(
    alloc: Global,
    typer: &mut K,
    base: &mut Base,
    files: &[Vec<u8>],
) -> Result<Option<Reply>, AllocError>
    requires few { length files.now ≤ MOST_FILES }
    requires small { total (bytes_of files.now) ≤ MOST_SOURCE_BYTES }
    ensures failed { OnErr result (base.new ≡ base.old) }
    ensures other { IfOk result (λ reply. IfNone reply (base.new ≡ base.old)) }
    ensures base { IfOk result (λ reply. IfSome reply (λ r. ∥ IsBaseOf (bytes_of files.now) base.new.untyped base.new.faults.items ∥₁)) }
    ensures faults { IfOk result (λ reply. IfSome reply (λ r. AreFaultsOf (faults_kept (runs_seen base.new.untyped) base.new.faults.items) r.faults.items)) }
    ensures fresh { IfOk result (λ reply. IfSome reply (λ r. IsFresh (seen base.new.untyped) (Some (seen base.old.untyped)) r.typed)) }
    ensures asked { IfOk result (λ reply. IfSome reply (λ r. K.calls typer.new ≡ calls_after r.typed (K.calls typer.old))) }
    ensures unasked { IfOk result (λ reply. IfNone reply (K.calls typer.new ≡ K.calls typer.old)) }
    ensures most { OnErr result (IsAskedWithin (bytes_of files.now) (Some (seen base.old.untyped)) (K.calls typer.old) (K.calls typer.new)) }
{
    let lexed = match lex_files(alloc, files) {
        Ok(lexed) => lexed,
        Err(Refusal::Faults(_)) => return Ok(None),
        Err(Refusal::Memory) => return Err(AllocError),
    };
    match find_difference(alloc, base.untyped.lexed.as_slice(), lexed.as_slice())? {
        Difference::Nothing => Ok(Some(check_moved(alloc, base, lexed)?)),
        Difference::Feature(number, run) => check_one_feature(
            alloc, typer, base, lexed, number, run,
        ),
        Difference::More => Ok(None),
    }
}

/// Checks files with these tokens, which are those of the files of a base, places aside. Returns `Err` only if memory runs out, and then leaves the base as
/// it was.
fn check_moved(alloc: Global, base: &mut Base, lexed: Vec<Lexed>) -> Result<Reply, AllocError>
    requires lexed { IsLexing lexed.items }
    requires same { SameTokens base.old.untyped.lexed.items lexed.items }
    ensures failed { OnErr result (base.new ≡ base.old) }
    ensures base { OnOk result ((files : List (List ℕ)) → AreFound IsLexed IsLexical 0 files lexed.items [] → ∥ IsBaseOf files base.new.untyped base.new.faults.items ∥₁) }
    ensures faults { IfOk result (λ r. AreFaultsOf (faults_kept (runs_seen base.new.untyped) base.new.faults.items) r.faults.items) }
    ensures fresh { IfOk result (λ r. IsFresh (seen base.new.untyped) (Some (seen base.old.untyped)) r.typed) }
    ensures typed { IfOk result (λ r. r.typed ≡ 0) }
{
    let faults = fault_list(alloc, lexed.as_slice(), base.faults.as_slice())?;
    base.untyped.lexed = lexed;
    Ok(Reply { faults, typed: 0 })
}

/// The feature of files that is typed anew.
#[derive(Clone, Copy)]
struct Edit {
    /// Its number among the features of all files, counted from 0.
    number: usize,
    /// Its tokens.
    run: Run,
    /// Its position in the table.
    id: FeatureId,
}

/// The results to store for files of which one feature was typed again, and their fault list.
#[derive(Drop)]
struct Retyped {
    kept: Vec<Option<KeptFault>>,
    faults: Vec<Fault>,
}

/// Checks files with these tokens, which differ from those of a base in the feature of this number, whose tokens are this run. Returns `None` if the run is
/// no feature or declares something else. If `None` or `Err` is returned, the base is as it was. Returns `Err` only if memory runs out.
fn check_one_feature<K: Typer>(
    alloc: Global,
    typer: &mut K,
    base: &mut Base,
    lexed: Vec<Lexed>,
    number: usize,
    run: Run,
) -> Result<Option<Reply>, AllocError>
    requires lexed { IsLexing lexed.items }
    requires differ { DifferInFeature base.old.untyped.lexed.items lexed.items number run }
    ensures failed { OnErr result (base.new ≡ base.old) }
    ensures other { IfOk result (λ reply. IfNone reply (base.new ≡ base.old)) }
    ensures base { IfOk result (λ reply. IfSome reply (λ r. (files : List (List ℕ)) → AreFound IsLexed IsLexical 0 files lexed.items [] → ∥ IsBaseOf files base.new.untyped base.new.faults.items ∥₁)) }
    ensures faults { IfOk result (λ reply. IfSome reply (λ r. AreFaultsOf (faults_kept (runs_seen base.new.untyped) base.new.faults.items) r.faults.items)) }
    ensures fresh { IfOk result (λ reply. IfSome reply (λ r. IsFresh (seen base.new.untyped) (Some (seen base.old.untyped)) r.typed)) }
    ensures asked { IfOk result (λ reply. IfSome reply (λ r. K.calls typer.new ≡ calls_after r.typed (K.calls typer.old))) }
    ensures unasked { IfOk result (λ reply. IfNone reply (K.calls typer.new ≡ K.calls typer.old)) }
    ensures most { OnErr result ((files : List (List ℕ)) → AreFound IsLexed IsLexical 0 files lexed.items [] → IsAskedWithin files (Some (seen base.old.untyped)) (K.calls typer.old) (K.calls typer.new)) }
{
    let Some(feature) = one_feature(alloc, tokens_in(lexed.as_slice(), run))? else {
        return Ok(None);
    };
    let ids = feature_ids(alloc, &base.untyped.classes)?;
    let id = ids[number];
    let before = &base.untyped.classes.features(id.class)[id.index as usize];
    if !declare_same(before, &feature) {
        return Ok(None);
    }
    let edit = Edit { number, run, id };
    let retyped = retype(
        alloc,
        typer,
        &mut base.untyped.classes,
        base.faults.as_slice(),
        lexed.as_slice(),
        edit,
        feature,
    )?;
    base.untyped.lexed = lexed;
    base.faults = retyped.kept;
    Ok(Some(Reply {
        faults: retyped.faults,
        typed: 1,
    }))
}

/// Puts a feature that declares the same in the place of one of a table, and types it. Returns `Err` only if memory runs out, and then leaves the table as
/// it was.
fn retype<K: Typer>(
    alloc: Global,
    typer: &mut K,
    classes: &mut ClassTable,
    kept: &[Option<KeptFault>],
    lexed: &[Lexed],
    edit: Edit,
    feature: Feature,
) -> Result<Retyped, AllocError>
    requires class { edit.id.class.0 < length classes.old }
    requires same { IsDeclaredBy feature (slice_get (features_of classes.old edit.id.class) edit.id.index) }
    requires run { IsWithin lexed.now edit.run }
    requires number { edit.number < length kept.now }
    requires few { length lexed.now < 2 ^ 32 }
    requires short { AllByRecursion HasFewTokens lexed.now }
    requires kept { (found : Option KeptFault) → IsKeptOf (run_tokens lexed.now edit.run) (feature_checked (with_feature_at classes.old edit.id.class edit.id.index feature) edit.id.class feature) found → AreKeptAmong lexed.now (slice_set kept.now edit.number found) }
    requires feature { ∥ IsFeature (run_tokens lexed.now edit.run) feature ∥₁ }
    ensures now { OnOk result (classes.new ≡ with_feature_at classes.old edit.id.class edit.id.index feature) }
    ensures failed { OnErr result (classes.new ≡ classes.old) }
    ensures kept { IfOk result (λ retyped. (found : Option KeptFault) × IsKeptOf (run_tokens lexed.now edit.run) (feature_checked (with_feature_at classes.old edit.id.class edit.id.index feature) edit.id.class feature) found × (retyped.kept.items ≡ slice_set kept.now edit.number found)) }
    ensures faults { IfOk result (λ retyped. AreFaultsOf (faults_kept (runs_of (tokens_of lexed.now)) retyped.kept.items) retyped.faults.items) }
    ensures counted { K.calls typer.new ≡ called 1 (K.calls typer.old) }
{
    let before = classes.swap_feature(edit.id.class, edit.id.index, feature);
    let retyped = type_feature(alloc, typer, classes, kept, lexed, edit);
    if retyped.is_err() {
        classes.swap_feature(edit.id.class, edit.id.index, before);
    }
    retyped
}

/// Types a feature of a table. Returns `Err` only if memory runs out.
fn type_feature<K: Typer>(
    alloc: Global,
    typer: &mut K,
    classes: &ClassTable,
    kept: &[Option<KeptFault>],
    lexed: &[Lexed],
    edit: Edit,
) -> Result<Retyped, AllocError>
    requires class { edit.id.class.0 < length classes.now }
    requires index { edit.id.index < length (features_of classes.now edit.id.class) }
    requires run { IsWithin lexed.now edit.run }
    requires number { edit.number < length kept.now }
    requires few { length lexed.now < 2 ^ 32 }
    requires short { AllByRecursion HasFewTokens lexed.now }
    requires kept { (x : syntax.Feature) → slice_get (features_of classes.now edit.id.class) edit.id.index ≡ Some x → (found : Option KeptFault) → IsKeptOf (run_tokens lexed.now edit.run) (feature_checked classes.now edit.id.class x) found → AreKeptAmong lexed.now (slice_set kept.now edit.number found) }
    requires feature { (x : syntax.Feature) → slice_get (features_of classes.now edit.id.class) edit.id.index ≡ Some x → ∥ IsFeature (run_tokens lexed.now edit.run) x ∥₁ }
    ensures kept { IfOk result (λ retyped. (x : syntax.Feature) → slice_get (features_of classes.now edit.id.class) edit.id.index ≡ Some x → (found : Option KeptFault) × IsKeptOf (run_tokens lexed.now edit.run) (feature_checked classes.now edit.id.class x) found × (retyped.kept.items ≡ slice_set kept.now edit.number found)) }
    ensures faults { IfOk result (λ retyped. AreFaultsOf (faults_kept (runs_of (tokens_of lexed.now)) retyped.kept.items) retyped.faults.items) }
    ensures counted { K.calls typer.new ≡ called 1 (K.calls typer.old) }
{
    let found = typed(alloc, typer, classes, edit.id, tokens_in(lexed, edit.run))?;
    let mut kept = Vec::from_slice(alloc, kept)?;
    kept[edit.number] = found;
    let faults = fault_list(alloc, lexed, kept.as_slice())?;
    Ok(Retyped { kept, faults })
}
