//! Parsing the arguments of a command line into a plan: a command with its files and limits.

ghost use Rattle.std.specs.Prelude.{◌≡◌, IfOk, IfSome, Err, Some, None, codes, string_bytes, true};
ghost use Rattle.clap.specs.Words.{found_of, matches_of, rows_of, fault_of};
ghost use Rattle.cool_words.specs.Numbers.{IsWithin, number_in};
ghost use Rattle.cool_words.specs.Plans.{Answers, HasFileNames, IsBounded, IsWithinBounds, asked_by, asked_of, file_in, files_in, is_file_name, is_set, limits_in, most_steps, plan_by, plan_of, steps_in, value_in, words_of};

use crate::command_word::{CommandWord, command_of};
use crate::names::{are_file_names, copy_names, is_file_name};
use crate::numbers::read_number;
use crate::{Plan, RunLimits, RunPlan, USUAL_LIMITS, WordsError};
use clap::ArgMatches;
use clap::error::ErrorKind;
use std::alloc::Global;

/// The least KiB of a heap or a stack.
const LEAST_KIB: u64 = 4;

/// The most KiB of a heap.
const MOST_HEAP_KIB: u64 = 262_144;

/// The most KiB of a stack.
const MOST_STACK_KIB: u64 = 65_536;

/// The most steps of a run, 2 to the 62.
const MOST_STEPS: u64 = 4_611_686_018_427_387_904;

/// The most that the size of a big program may be.
const MOST_SIZE: u64 = 300;

/// The plan that the words after the program's name ask for.
///
/// Returns `Usage` only if they are no command line: the first word is no command, clap refuses the words, a number is out of its bounds, or a file's
/// name is longer than 4,096 bytes or holds a byte 0. Returns `Memory` only if memory runs out.
pub fn read_words(alloc: Global, words: &[String]) -> Result<Plan, WordsError>
    // A plan is the one that the words ask for, and Usage comes only if they ask for none.
    ensures plan { IfOk result (λ p. plan_of (words_of words.now) ≡ Some (asked_by p)) }
    ensures usage { result ≡ Err WordsError.Usage → plan_of (words_of words.now) ≡ None }

    // The plan's names and numbers are in their bounds.
    ensures bounds { IfOk result IsWithinBounds }
{
    let command = match words.first() {
        Some(word) => command_of(word.as_str()),
        None => None,
    };
    match command {
        Some(command) => read_command(alloc, command, words),
        None => Err(WordsError::Usage),
    }
}

/// The plan that the words ask for. The first word is the command's.
fn read_command(alloc: Global, command: CommandWord, words: &[String]) -> Result<Plan, WordsError>
    ensures value { Answers asked_by (plan_by (words_of words.now) command) result }
    ensures bounds { IfOk result IsWithinBounds }
{
    let parser = command.parser(alloc)?;
    match parser.try_get_matches_from(words) {
        Ok(matches) => read_matches(alloc, command, &matches),
        Err(error) => match error.kind() {
            ErrorKind::OutOfMemory => Err(WordsError::Memory),
            _ => Err(WordsError::Usage),
        },
    }
}

/// The plan of the command, by what clap found.
fn read_matches(
    alloc: Global,
    command: CommandWord,
    matches: &ArgMatches<'_>,
) -> Result<Plan, WordsError>
    ensures value { Answers asked_by (asked_of command (rows_of (found_of matches.now))) result }
    ensures bounds { IfOk result IsWithinBounds }
{
    match command {
        CommandWord::Check => Ok(Plan::Check {
            files: files_of(alloc, matches)?,
        }),
        CommandWord::Asm => Ok(Plan::Asm {
            files: files_of(alloc, matches)?,
        }),
        CommandWord::Build => Ok(Plan::Build {
            files: files_of(alloc, matches)?,
        }),
        CommandWord::Run => Ok(Plan::Run(RunPlan {
            files: files_of(alloc, matches)?,
            limits: limits_of(matches)?,
            fold: is_set(matches, "fold"),
        })),
        CommandWord::Eval => Ok(Plan::Eval {
            files: files_of(alloc, matches)?,
            steps: steps_of(matches)?,
        }),
        CommandWord::Exec => Ok(Plan::Exec {
            file: file_of(alloc, matches, "FILE")?,
            limits: limits_of(matches)?,
        }),
        CommandWord::Debug => Ok(Plan::Debug {
            script: file_of(alloc, matches, "SCRIPT")?,
            files: files_of(alloc, matches)?,
            limits: limits_of(matches)?,
        }),
        CommandWord::Big => Ok(Plan::Big {
            n: size_of(matches)?,
        }),
        CommandWord::Session => Ok(Plan::Session),
    }
}

/// The names of the files.
fn files_of(alloc: Global, matches: &ArgMatches<'_>) -> Result<Vec<String>, WordsError>
    ensures value { Answers (λ files. words_of files.items) (files_in (rows_of (found_of matches.now))) result }
    ensures bounds { IfOk result (λ files. HasFileNames (words_of files.items)) }
{
    match matches.get_strs("FILES") {
        Some(names) if are_file_names(names) => Ok(copy_names(alloc, names)?),
        _ => Err(WordsError::Usage),
    }
}

/// The name of the one file that is the value of an argument.
fn file_of(alloc: Global, matches: &ArgMatches<'_>, argument: &str) -> Result<String, WordsError>
    ensures value { Answers string_bytes (file_in argument.now (rows_of (found_of matches.now))) result }
    ensures bounds { IfOk result (λ file. is_file_name (string_bytes file) ≡ true) }
{
    match matches.get_str(argument) {
        Some(name) if is_file_name(name) => Ok(String::from_str(alloc, name)?),
        _ => Err(WordsError::Usage),
    }
}

/// The limits that the options set.
fn limits_of(matches: &ArgMatches<'_>) -> Result<RunLimits, WordsError>
    ensures value { Answers (λ limits. limits) (limits_in (rows_of (found_of matches.now))) result }
    ensures bounds { IfOk result IsBounded }
{
    let heap = value_of(
        matches,
        "heap",
        LEAST_KIB,
        MOST_HEAP_KIB,
        Some(USUAL_LIMITS.heap_kib as u64),
    )?;
    let stack = value_of(
        matches,
        "stack",
        LEAST_KIB,
        MOST_STACK_KIB,
        Some(USUAL_LIMITS.stack_kib as u64),
    )?;
    Ok(RunLimits {
        heap_kib: heap as u32,
        stack_kib: stack as u32,
        steps: steps_of(matches)?,
    })
}

/// The steps that the option sets.
fn steps_of(matches: &ArgMatches<'_>) -> Result<u64, WordsError>
    ensures value { Answers (λ n. n) (steps_in (rows_of (found_of matches.now))) result }
    ensures bounds { IfOk result (IsWithin 1 most_steps) }
{
    value_of(matches, "steps", 1, MOST_STEPS, Some(USUAL_LIMITS.steps))
}

/// Whether the flag is set. clap gives it the value `true` if the words have it, and otherwise `false`.
fn is_set(matches: &ArgMatches<'_>, flag: &str) -> bool
    ensures { result ≡ is_set flag.now (rows_of (found_of matches.now)) }
{
    match matches.get_str(flag) {
        Some(text) => text == "true",
        None => false,
    }
}

/// The size of the program to write.
fn size_of(matches: &ArgMatches<'_>) -> Result<u32, WordsError>
    ensures value { Answers (λ n. n) (value_in (codes "N") 1 300 None (rows_of (found_of matches.now))) result }
    ensures bounds { IfOk result (IsWithin 1 300) }
{
    Ok(value_of(matches, "N", 1, MOST_SIZE, None)? as u32)
}

/// The value of an argument from `low` to `high`, and the default if it is not used.
fn value_of(
    matches: &ArgMatches<'_>,
    name: &str,
    low: u64,
    high: u64,
    default: Option<u64>,
) -> Result<u64, WordsError>
    requires { IfSome default (IsWithin low high) }
    ensures value { Answers (λ n. n) (value_in name.now low high default (rows_of (found_of matches.now))) result }
    ensures bounds { IfOk result (IsWithin low high) }
{
    match matches.get_str(name) {
        Some(text) => number_or_usage(text, low, high),
        None => match default {
            Some(number) => Ok(number),
            None => Err(WordsError::Usage),
        },
    }
}

/// The number that the text is, from `low` to `high`.
fn number_or_usage(text: &str, low: u64, high: u64) -> Result<u64, WordsError>
    ensures value { Answers (λ n. n) (number_in low high text.now) result }
    ensures bounds { IfOk result (IsWithin low high) }
{
    match read_number(text, low, high) {
        Some(number) => Ok(number),
        None => Err(WordsError::Usage),
    }
}
