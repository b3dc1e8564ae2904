//! Finds the features of files, each as a sequence of tokens.

ghost use Rattle.std.specs.Prelude.{◌≡◌, ◌+◌, ◌<◌, ◌^◌, ◌++◌, length, IfOk, OnOk};
ghost use Rattle.std.specs.List.{AllByRecursion};
ghost use Rattle.cool_syntax.specs.LexicalStructure.{depth_after, ends_run};
ghost use Rattle.cool_session.specs.KeptChecks.{HasFewTokens};
ghost use Rattle.cool_session.specs.Runs.{bounds_ended, bounds_in, bounds_of, IsWithin, run_tokens};

use cool_lexer::{Lexed, depth_after, ends_run};
use cool_syntax::{Sign, Token, TokenKind};
use std::alloc::{AllocError, Global};

/// The tokens of a feature: those of a file from one position up to another.
#[derive(Clone, Copy)]
pub(crate) struct Run {
    pub(crate) file: u32,
    pub(crate) start: u32,
    pub(crate) end: u32,
}

/// The features of files, in order. Returns `Err` only if memory runs out.
pub(crate) fn runs(alloc: Global, lexed: &[Lexed]) -> Result<Vec<Run>, AllocError>
    requires files { length lexed.now < 2 ^ 32 }
    requires tokens { AllByRecursion HasFewTokens lexed.now }
    ensures { IfOk result (λ runs. runs.items ≡ bounds_of 0 lexed.now) }
{
    let mut runs = Vec::new(alloc);
    for file in 0..lexed.len() {
        add_runs(file as u32, lexed[file].tokens.as_slice(), &mut runs)?;
    }
    Ok(runs)
}

/// Adds the features of a file. Returns `Err` only if memory runs out.
fn add_runs(file: u32, tokens: &[Token], runs: &mut Vec<Run>) -> Result<(), AllocError>
    requires { length tokens.now < 2 ^ 32 }
    ensures { OnOk result (runs.new.items ≡ runs.old.items ++ bounds_in file tokens.now) }
{
    let mut depth = 0;
    let mut start = 0;
    for at in 0..tokens.len() {
        let kind = &tokens[at].kind;
        let end = at as u32 + 1;
        if ends_run(kind, depth) {
            add_ended(kind, Run { file, start, end }, runs)?;
            start = end;
        }
        depth = depth_after(kind, depth);
    }
    Ok(())
}

/// Adds a run that ends with this token, where that is a semicolon. Returns `Err` only if memory runs out.
fn add_ended(kind: &TokenKind, run: Run, runs: &mut Vec<Run>) -> Result<(), AllocError>
    ensures { OnOk result (runs.new.items ≡ runs.old.items ++ bounds_ended kind.now run) }
{
    if let TokenKind::Sign(Sign::Semi) = kind {
        runs.push(run)?;
    }
    Ok(())
}

/// The tokens of a feature.
pub(crate) fn tokens_in(lexed: &[Lexed], run: Run) -> &[Token]
    requires { IsWithin lexed.now run }
    ensures { result.now ≡ run_tokens lexed.now run }
{
    &lexed[run.file as usize].tokens.as_slice()[run.start as usize..run.end as usize]
}
