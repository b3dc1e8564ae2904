//! Writes output to the sink and reads lines from the source, for the methods of IO.

ghost use Rattle.std.specs.Prelude.{◌≡◌, ◌++◌, ℕ, List, [], true, IfErr, OnOk, OnErr};
ghost use Rattle.cool_ports.specs.Answers.{Leaves};
ghost use Rattle.cool_ports.specs.Counts.{Rose};
ghost use Rattle.cool_ports.specs.SinkBytes.{appended, GotPrefix};
ghost use Rattle.cool_ports.specs.SinkPuts.{pieces_of, PutFront};
ghost use Rattle.cool_ports.specs.Taking.{Took};
ghost use Rattle.cool_eval.specs.Counts.{Counted};
ghost use Rattle.cool_eval.specs.Methods.{TookLine};

use crate::ending::Ending;
use cool_ports::{Sink, Source, next_byte, put_pieces};
use std::alloc::Global;

/// The largest number of bytes in a piece of output.
const PIECE: usize = 64;

/// Puts bytes in pieces. Returns `Err` only if a put fails; then a prefix of the bytes was put.
pub(crate) fn print<K: Sink>(sink: &mut K, bytes: &[u8]) -> Result<(), Ending>
    ensures put { OnOk result (K.held sink.new ≡ appended (K.held sink.old) bytes.now) }
    ensures pieces { OnOk result (K.puts sink.new ≡ K.puts sink.old ++ pieces_of 64 bytes.now) }
    ensures prefix { OnErr result (GotPrefix (K.held sink.old) bytes.now (K.held sink.new)) }
    ensures pieces_up_to { OnErr result (PutFront (K.puts sink.old) (pieces_of 64 bytes.now) (K.puts sink.new)) }
    ensures no_fault { OnOk result (K.faults sink.new ≡ K.faults sink.old) }
    ensures failed { OnErr result (Rose (K.faults sink.old) (K.faults sink.new)) }
    ensures fault { IfErr result (λ e. e ≡ Ending.WriteFault) }
{
    match put_pieces(sink, bytes, PIECE) {
        Ok(()) => Ok(()),
        Err(_) => Err(Ending::WriteFault),
    }
}

/// Takes a line without its newline and without bytes 0.
///
/// `ended` says whether the source answered its end; it is not asked again. `ReadFault` comes at the first take that fails.
pub(crate) fn take_line<S: Source>(
    alloc: Global,
    ended: &mut bool,
    source: &mut S,
) -> Result<Vec<u8>, Ending>
    ensures took { Took ended.old ended.new (S.past source.old) (S.past source.new) (S.left source.old) (S.left source.new) }
    ensures line { (input rest : List ℕ) → Leaves (S.past source.old) (S.past source.new) input rest → (ended.old ≡ true → input ≡ []) → TookLine result input rest }
    ensures counts { Counted result (S.faults source.old) (S.faults source.new) 0 0 }
{
    let mut line = Vec::new(alloc);
    loop {
        match next_byte(ended, source) {
            Err(_) => return Err(Ending::ReadFault),
            Ok(None) => return Ok(line),
            Ok(Some(byte)) => {
                if byte == b'\n' {
                    return Ok(line);
                }
                match line.push(byte) {
                    Ok(()) => {}
                    Err(_) => return Err(Ending::Memory),
                }
            }
        }
    }
}
