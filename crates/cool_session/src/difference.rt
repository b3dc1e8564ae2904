//! Finds the difference between the tokens of files and those before an edit.

ghost use Rattle.std.specs.Prelude.{◌≡◌, ◌<◌, ◌≤◌, ◌^◌, ◌-◌, length, take, drop, IfOk, IfSome, MatchOption};
ghost use Rattle.std.specs.List.{AllByRecursion};
ghost use Rattle.cool_session.specs.Differing.{AreSameFrom, IsAround, IsFirstOther};
ghost use Rattle.cool_session.specs.Edits.{IsDifference};
ghost use Rattle.cool_session.specs.FeatureTokens.{kinds};
ghost use Rattle.cool_session.specs.KeptChecks.{HasFewTokens};

use crate::runs::{Run, runs};
use crate::same_tokens::{same_kind, same_tokens};
use cool_lexer::Lexed;
use cool_syntax::Token;
use std::alloc::{AllocError, Global};

/// The difference between files, except for places.
#[derive(Clone, Copy)]
pub(crate) enum Difference {
    /// In nothing.
    Nothing,
    /// In the feature of this number among those of all files, counted from 0, whose tokens are this run now.
    Feature(usize, Run),
    /// In more than one feature, or beside features.
    More,
}

/// The difference between files and those before, except for places. Returns `Err` only if memory runs out.
pub(crate) fn find_difference(
    alloc: Global,
    before: &[Lexed],
    now: &[Lexed],
) -> Result<Difference, AllocError>
    requires few_before { length before.now < 2 ^ 32 }
    requires short_before { AllByRecursion HasFewTokens before.now }
    requires few { length now.now < 2 ^ 32 }
    requires short { AllByRecursion HasFewTokens now.now }
    ensures { IfOk result (IsDifference before.now now.now) }
{
    if before.len() != now.len() {
        return Ok(Difference::More);
    }
    let Some(file) = first_other(before, now, 0) else {
        return Ok(Difference::Nothing);
    };
    if first_other(before, now, file + 1).is_some() {
        return Ok(Difference::More);
    }
    let runs = runs(alloc, before)?;
    let old = before[file].tokens.as_slice();
    let new = now[file].tokens.as_slice();
    let around = run_around(
        runs.as_slice(),
        file,
        front_of(old, new),
        back_of(old, new),
        old.len(),
        new.len(),
    );
    let Some(number) = around else {
        return Ok(Difference::More);
    };
    let mut run = runs[number];
    run.end = (new.len() + run.end as usize - old.len()) as u32;
    Ok(Difference::Feature(number, run))
}

/// The first file from a number on whose tokens differ, places aside.
fn first_other(before: &[Lexed], now: &[Lexed], from: usize) -> Option<usize>
    requires { length before.now ≡ length now.now }
    ensures { MatchOption result (AreSameFrom before.now now.now from) (IsFirstOther before.now now.now from) }
{
    for file in from..before.len() {
        if !same_tokens(now[file].tokens.as_slice(), before[file].tokens.as_slice()) {
            return Some(file);
        }
    }
    None
}

/// The number of tokens at the front that are the same, except for places.
fn front_of(a: &[Token], b: &[Token]) -> usize
    ensures within_first { result ≤ length a.now }
    ensures within_second { result ≤ length b.now }
    ensures same { kinds (take result a.now) ≡ kinds (take result b.now) }
{
    for i in 0..a.len() {
        if i == b.len() || !same_kind(&a[i].kind, &b[i].kind) {
            return i;
        }
    }
    a.len()
}

/// The number of tokens at the end that are the same, except for places.
fn back_of(a: &[Token], b: &[Token]) -> usize
    ensures within_first { result ≤ length a.now }
    ensures within_second { result ≤ length b.now }
    ensures same { kinds (drop (length a.now - result) a.now) ≡ kinds (drop (length b.now - result) b.now) }
{
    for i in 0..a.len() {
        if i == b.len() || !same_kind(&a[a.len() - 1 - i].kind, &b[b.len() - 1 - i].kind) {
            return i;
        }
    }
    a.len()
}

/// The number of a run of a file around what differs in it, by how many tokens are the same in front and at the end, and how many there
/// were and are.
fn run_around(
    runs: &[Run],
    file: usize,
    front: usize,
    back: usize,
    before: usize,
    now: usize,
) -> Option<usize>
    requires back { back < 2 ^ 32 }
    requires before { before < 2 ^ 32 }
    requires now { now < 2 ^ 32 }
    ensures { IfSome result (IsAround runs.now file front back before now) }
{
    for number in 0..runs.len() {
        let run = runs[number];
        let (start, end) = (run.start as usize, run.end as usize);
        if run.file as usize == file
            && start <= front
            && before <= end + back
            && start + before <= now + end
        {
            return Some(number);
        }
    }
    None
}
