//! The commands of a session, and their parsing from the lines of its input.

ghost use Rattle.std.specs.Prelude.{◌≡◌, ◌≤◌, ◌<◌, ◌&&◌, ◌==◌, nat_le, true, length, map, IfOk, IfSome, option_map};
ghost use Rattle.std.specs.List.{list_all, slice_split};
ghost use Rattle.cool_syntax.specs.Lexemes.{is_digit, value};
ghost use Rattle.cool_session.specs.Commands.{alone, asked, command, is_length, is_name, with_length, with_name};
ghost use Rattle.cool_session.specs.Obeying.{command_of};

use std::alloc::{AllocError, Global};

/// The largest number of bytes in a name.
const MOST_NAME: usize = 255;

/// The largest number of digits in a length.
const MOST_DIGITS: usize = 7;

/// A command.
#[derive(Clone, Copy)]
pub(crate) enum Command<'a> {
    /// To set the file of this name to the next so many bytes.
    File(&'a str, u64),
    /// To take the file of this name away.
    Drop(&'a str),
    Check,
    Quit,
}

/// The command of a line without its newline. `None` if it has no valid form. Returns `Err` only if memory runs out.
pub(crate) fn read_command<'a>(
    alloc: Global,
    line: &'a [u8],
) -> Result<Option<Command<'a>>, AllocError>
    ensures { IfOk result (λ read. option_map command_of read ≡ command line.now) }
{
    let words = words(alloc, line)?;
    Ok(asked(words.as_slice()))
}

/// The words of a line. Returns `Err` only if memory runs out.
fn words<'a>(alloc: Global, line: &'a [u8]) -> Result<Vec<&'a [u8]>, AllocError>
    ensures { IfOk result (λ words. map (λ word. word.now) words.items ≡ slice_split (λ byte. byte == 32) line.now) }
{
    line.split(|byte| *byte == b' ').collect(alloc)
}

/// The command of the words of a line.
#[tactic(auto, using(crate::proofs::WordsOfCommands::more_words))]
fn asked<'a>(words: &[&'a [u8]]) -> Option<Command<'a>>
    ensures { option_map command_of result ≡ asked (map (λ word. word.now) words.now) }
{
    match words {
        [word] => alone(word),
        [word, name] => with_name(word, name),
        [word, name, digits] => with_length(word, name, digits),
        _ => None,
    }
}

/// The command of a single word.
fn alone<'a>(word: &[u8]) -> Option<Command<'a>>
    ensures { option_map command_of result ≡ alone word.now }
{
    if word == b"check".as_slice() {
        Some(Command::Check)
    } else if word == b"quit".as_slice() {
        Some(Command::Quit)
    } else {
        None
    }
}

/// The command of a word with a name.
fn with_name<'a>(word: &[u8], name: &'a [u8]) -> Option<Command<'a>>
    ensures { option_map command_of result ≡ with_name word.now name.now }
{
    if word == b"drop".as_slice() && is_name(name) {
        Some(Command::Drop(text_of(name)))
    } else {
        None
    }
}

/// The command of a word with a name and a length.
fn with_length<'a>(word: &[u8], name: &'a [u8], digits: &[u8]) -> Option<Command<'a>>
    ensures { option_map command_of result ≡ with_length word.now name.now digits.now }
{
    if word == b"file".as_slice() && is_name(name) && is_length(digits) {
        Some(Command::File(text_of(name), value(digits)))
    } else {
        None
    }
}

/// Whether a word is a name.
fn is_name(word: &[u8]) -> bool
    ensures { result ≡ is_name word.now }
{
    1 <= word.len() && word.len() <= MOST_NAME && are_of_name(word)
}

/// Whether a word is a length.
fn is_length(word: &[u8]) -> bool
    ensures { result ≡ is_length word.now }
{
    1 <= word.len() && word.len() <= MOST_DIGITS && are_digits(word)
}

/// Whether all bytes may stand in a name.
fn are_of_name(bytes: &[u8]) -> bool
    ensures { result ≡ list_all (λ b. nat_le 33 b && nat_le b 126) bytes.now }
{
    bytes.iter().all(|byte| matches!(byte, 33..=126))
}

/// Whether all bytes are digits.
fn are_digits(bytes: &[u8]) -> bool
    ensures { result ≡ list_all is_digit bytes.now }
{
    bytes.iter().all(|byte| matches!(byte, b'0'..=b'9'))
}

/// The text of a name.
fn text_of<'a>(name: &'a [u8]) -> &'a str
    requires { is_name name.now ≡ true }
    ensures { result.now ≡ name.now }
{
    match str::from_utf8(name) {
        Ok(text) => text,
        Err(_) => unreachable!(),
    }
}

/// The number of the digits of a length.
fn value(digits: &[u8]) -> u64
    requires { is_length digits.now ≡ true }
    ensures { result ≡ value digits.now }
{
    let mut number = 0;
    for digit in digits {
        number = 10 * number + u64::from(digit.saturating_sub(b'0'));
    }
    number
}
