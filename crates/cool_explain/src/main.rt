//! The program `cool_explain` explains compile-time errors. `cool_explain FILES` writes for each error of the files its message, the source line with its
//! range marked, what is known of the error, and lines that fix it. `cool_explain --lines FILES` writes the same for other programs.
//!
//! `perform` of `cool_explanations` is all that it does if the arguments are text.
#![tactic(auto)]

use cool_explanations::{BAD_COMMAND_LINE, perform};
use cool_ports::StdSink;
use cool_sources::{Status, tell};
use std::alloc::Global;
use std::io::ErrorKind;
use std::process::ExitCode;
use std::{env, io};

fn main(rt: HostRuntime) -> ExitCode {
    let status = match words(&rt) {
        Ok(words) => perform(rt.alloc(), &words, &rt, rt.stdout(), rt.stderr()).status,
        Err(error) if error.kind() == ErrorKind::OutOfMemory => Status::Memory,
        Err(_) => bad_command_line(&rt),
    };
    ExitCode::from(status.code())
}

/// Notes that the words are no text, and so no command line, and answers how that ended.
fn bad_command_line(rt: &HostRuntime) -> Status {
    tell(
        &mut StdSink::new(rt.stderr()),
        Status::Usage,
        BAD_COMMAND_LINE,
    )
}

/// The words of the command line after the program's own name.
fn words(rt: &HostRuntime) -> io::Result<Vec<String>> {
    let mut words = Vec::new(rt.alloc());
    for word in env::args(rt)?.skip(1) {
        words.push(word)?;
    }
    Ok(words)
}
