//! Reads lines and files from the input of a session.

ghost use Rattle.std.specs.Prelude.{◌≡◌, ◌≤◌, ℕ, List, false, IfOk};
ghost use Rattle.cool_ports.specs.Answers.{Leaves};
ghost use Rattle.cool_ports.specs.Taking.{Took};
ghost use Rattle.cool_session.specs.Conversations.{Counted};
ghost use Rattle.cool_session.specs.Obeying.{SpentLine, TookFile, TookLine, file_ended, line_ended};

use crate::ending::Interruption;
use cool_ports::Source;
use std::alloc::Global;

/// The largest number of bytes in a line without its newline.
const MOST_LINE: usize = 300;

/// The result of reading a line.
#[derive(Drop)]
pub(crate) enum TakenLine {
    /// A line, without its newline.
    Whole(Vec<u8>),
    /// The first bytes of a line that is too long.
    TooLong,
    /// A line that the end of the input ended.
    Unended,
    /// Nothing: the input ended before a line's first byte.
    Nothing,
}

/// Takes a line with its newline, or a byte more than a line may have.
///
/// Returns `ReadFault` at the first take that fails.
pub(crate) fn take_line<S: Source>(alloc: Global, source: &mut S) -> Result<TakenLine, Interruption>
    ensures took { Took false (line_ended result) (S.past source.old) (S.past source.new) (S.left source.old) (S.left source.new) }
    ensures line { (input left : List ℕ) → Leaves (S.past source.old) (S.past source.new) input left → TookLine result input left }
    ensures spent { SpentLine result (S.room source.old) (S.room source.new) }
    ensures counts { Counted result (S.faults source.old) (S.faults source.new) 0 0 }
{
    let mut line = Vec::new(alloc);
    loop {
        match source.take() {
            Err(_) => return Err(Interruption::ReadFault),
            Ok(None) => {
                return Ok(if line.is_empty() {
                    TakenLine::Nothing
                } else {
                    TakenLine::Unended
                });
            }
            Ok(Some(byte)) => {
                if byte == b'\n' {
                    return Ok(TakenLine::Whole(line));
                }
                if line.len() == MOST_LINE {
                    return Ok(TakenLine::TooLong);
                }
                line.push(byte)?;
            }
        }
    }
}

/// Takes so many bytes. Returns `None` if the input ends before.
///
/// Returns `ReadFault` at the first take that fails.
pub(crate) fn take_file<S: Source>(
    alloc: Global,
    size: u64,
    source: &mut S,
) -> Result<Option<Vec<u8>>, Interruption>
    ensures took { Took false (file_ended result) (S.past source.old) (S.past source.new) (S.left source.old) (S.left source.new) }
    ensures file { (input left : List ℕ) → Leaves (S.past source.old) (S.past source.new) input left → TookFile size result input left }
    ensures room { IfOk result (λ _. S.room source.new ≤ S.room source.old) }
    ensures counts { Counted result (S.faults source.old) (S.faults source.new) 0 0 }
{
    let mut bytes = Vec::new(alloc);
    while (bytes.len() as u64) < size {
        match source.take() {
            Err(_) => return Err(Interruption::ReadFault),
            Ok(None) => return Ok(None),
            Ok(Some(byte)) => bytes.push(byte)?,
        }
    }
    Ok(Some(bytes))
}
