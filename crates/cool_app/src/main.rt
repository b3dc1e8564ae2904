//! The `main` function: calls `cool` with the arguments of the command line, the system's files and the standard streams, and exits with its status.
//!
//! `perform` is all that it does where the words are text; its clauses are the promise over the process itself.
#![tactic(auto)]

mod process;

use cool_driver::{Status, refuse_words};
use cool_ports::StdSink;
use process::perform;
use std::alloc::Global;
use std::io::{BufReader, ErrorKind};
use std::process::ExitCode;
use std::{env, io};

/// The number of bytes of standard input that a session reads at once, if there are so many. All other commands read byte by byte, since the input that
/// they leave is there for the next command of a script.
const BYTES_AHEAD_IN_SESSION: usize = 8_192;

fn main(rt: HostRuntime) -> ExitCode {
    let status = match words(&rt) {
        Ok(words) => status_of(&rt, &words),
        Err(error) if error.kind() == ErrorKind::OutOfMemory => Status::Memory.code(),
        Err(_) => refuse_words(&mut StdSink::new(rt.stderr())).code(),
    };
    ExitCode::from(status)
}

/// The exit status of what the words ask.
fn status_of(rt: &HostRuntime, words: &[String]) -> u8 {
    let ahead = match words {
        [command, ..] if command.as_str() == "session" => BYTES_AHEAD_IN_SESSION,
        _ => 0,
    };
    match BufReader::with_capacity(rt.alloc(), ahead, rt.stdin()) {
        Ok(input) => perform(rt.alloc(), words, rt, input, rt.stdout(), rt.stderr()).status,
        Err(_) => Status::Memory.code(),
    }
}

/// The words of the command line after the program's own name.
fn words(rt: &HostRuntime) -> io::Result<Vec<String>> {
    let mut words = Vec::new(rt.alloc());
    for word in env::args(rt)?.skip(1) {
        words.push(word)?;
    }
    Ok(words)
}
