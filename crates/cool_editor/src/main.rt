//! The program `cool_editor` lists names, code, tokens or syntax trees of Cool files for editors. `cool_editor FILES` writes where each name of the files
//! stands, what it is, and which definition it means. `cool_editor --code FILES` writes where the code of each expression of the program stands, and which
//! names are in scope there. `cool_editor --tokens FILES` writes their tokens, and `cool_editor --trees FILES` their trees with the types of all
//! expressions.
//!
//! `perform` of `cool_listings` is all that it does if the arguments are text.
#![tactic(auto)]

use cool_listings::{BAD_COMMAND_LINE, perform};
use cool_ports::StdSink;
use cool_sources::{Status, tell};
use std::alloc::Global;
use std::io::ErrorKind;
use std::process::ExitCode;
use std::{env, io};

fn main(rt: HostRuntime) -> ExitCode {
    let status = match words(&rt) {
        Ok(words) => perform(rt.alloc(), &words, &rt, rt.stdout(), rt.stderr()).status,
        Err(error) if error.kind() == ErrorKind::OutOfMemory => Status::Memory,
        Err(_) => bad_command_line(&rt),
    };
    ExitCode::from(status.code())
}

/// Notes that the words are no text, and so no command line, and answers how that ended.
fn bad_command_line(rt: &HostRuntime) -> Status {
    tell(
        &mut StdSink::new(rt.stderr()),
        Status::Usage,
        BAD_COMMAND_LINE,
    )
}

/// The words of the command line after the program's own name.
fn words(rt: &HostRuntime) -> io::Result<Vec<String>> {
    let mut words = Vec::new(rt.alloc());
    for word in env::args(rt)?.skip(1) {
        words.push(word)?;
    }
    Ok(words)
}
