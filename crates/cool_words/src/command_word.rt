//! The commands of the command line, and the options and arguments that each takes.

ghost use Rattle.std.specs.Prelude.{◌≡◌, IfOk, false};
ghost use Rattle.clap.specs.Words.{app_of, rule_of};
ghost use Rattle.cool_words.specs.Commands.{FILES, app_for, command_of, flag_rule, name_of, option_rule, positional_rule, with_limits, with_steps};

use clap::{Arg, ArgAction, Command};
use std::alloc::{AllocError, Global};

/// The word that names a command.
#[derive(Clone, Copy)]
pub enum CommandWord {
    Check,
    Asm,
    Build,
    Run,
    Eval,
    Exec,
    Debug,
    Big,
    Session,
}

/// The command of this name.
pub(crate) fn command_of(word: &str) -> Option<CommandWord>
    ensures { result ≡ command_of word.now }
{
    match word {
        "check" => Some(CommandWord::Check),
        "asm" => Some(CommandWord::Asm),
        "build" => Some(CommandWord::Build),
        "run" => Some(CommandWord::Run),
        "eval" => Some(CommandWord::Eval),
        "exec" => Some(CommandWord::Exec),
        "debug" => Some(CommandWord::Debug),
        "big" => Some(CommandWord::Big),
        "session" => Some(CommandWord::Session),
        _ => None,
    }
}

impl CommandWord {
    /// The word itself.
    fn name<'a>(self) -> &'a str
        ensures { result.now ≡ name_of self }
    {
        match self {
            CommandWord::Check => "check",
            CommandWord::Asm => "asm",
            CommandWord::Build => "build",
            CommandWord::Run => "run",
            CommandWord::Eval => "eval",
            CommandWord::Exec => "exec",
            CommandWord::Debug => "debug",
            CommandWord::Big => "big",
            CommandWord::Session => "session",
        }
    }

    /// The command as clap has it.
    pub(crate) fn parser<'a>(self, alloc: Global) -> Result<Command<'a>, AllocError>
        ensures { IfOk result (λ r. app_of r ≡ app_for self) }
    {
        let parser = Command::new(alloc, self.name()).disable_help_flag(true);
        match self {
            CommandWord::Check | CommandWord::Asm | CommandWord::Build => parser.arg(files(alloc)),
            CommandWord::Run => with_limits(alloc, parser)?
                .arg(flag(alloc, "fold"))?
                .arg(files(alloc)),
            CommandWord::Eval => with_steps(alloc, parser)?.arg(files(alloc)),
            CommandWord::Exec => with_limits(alloc, parser)?.arg(positional(
                alloc,
                "FILE",
                ArgAction::Set,
            )),
            CommandWord::Debug => {
                with_limits(alloc, parser)?
                    .arg(positional(alloc, "SCRIPT", ArgAction::Set))?
                    .arg(files(alloc))
            }
            CommandWord::Big => parser.arg(positional(alloc, "N", ArgAction::Set)),
            CommandWord::Session => Ok(parser),
        }
    }
}

/// The command with the options of a run.
fn with_limits<'a>(alloc: Global, parser: Command<'a>) -> Result<Command<'a>, AllocError>
    ensures { IfOk result (λ r. app_of r ≡ with_limits (app_of parser.entry)) }
{
    let parser = parser
        .arg(option(alloc, "heap"))?
        .arg(option(alloc, "stack"))?;
    with_steps(alloc, parser)
}

/// The command with the option of steps.
fn with_steps<'a>(alloc: Global, parser: Command<'a>) -> Result<Command<'a>, AllocError>
    ensures { IfOk result (λ r. app_of r ≡ with_steps (app_of parser.entry)) }
{
    parser.arg(option(alloc, "steps"))
}

/// An option of one value.
fn option<'a>(alloc: Global, name: &'a str) -> Arg<'a>
    ensures rule { rule_of result ≡ option_rule name.entry.now }
    ensures local { result.global ≡ false }
{
    Arg::new(alloc, name).long(name).action(ArgAction::Set)
}

/// An option without a value.
fn flag<'a>(alloc: Global, name: &'a str) -> Arg<'a>
    ensures rule { rule_of result ≡ flag_rule name.entry.now }
    ensures local { result.global ≡ false }
{
    Arg::new(alloc, name).long(name).action(ArgAction::SetTrue)
}

/// The names of files, one or more.
fn files<'a>(alloc: Global) -> Arg<'a>
    ensures rule { rule_of result ≡ FILES }
    ensures local { result.global ≡ false }
{
    positional(alloc, "FILES", ArgAction::Append)
}

/// A positional that must be there.
fn positional<'a>(alloc: Global, name: &'a str, action: ArgAction) -> Arg<'a>
    ensures rule { rule_of result ≡ positional_rule name.entry.now action }
    ensures local { result.global ≡ false }
{
    Arg::new(alloc, name).action(action).required(true)
}
