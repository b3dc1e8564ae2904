//! `put_pieces` writes bytes to a sink (output stream) in pieces of a given size.

ghost use Rattle.std.specs.Prelude.{◌≡◌, ◌<◌, ◌≤◌, ◌++◌, OnOk, OnErr};
ghost use Rattle.cool_ports.specs.Counts.{Rose};
ghost use Rattle.cool_ports.specs.SinkBytes.{appended, GotPrefix};
ghost use Rattle.cool_ports.specs.SinkPuts.{pieces_of, PutFront};

use crate::{Failed, Sink};

/// Puts the bytes in pieces of `most` bytes, the last one perhaps shorter, each at once. No bytes are no piece.
///
/// `Failed` comes only where the count of faults rose, at the first put that fails; then a prefix of the bytes was put.
pub fn put_pieces<K: Sink>(sink: &mut K, bytes: &[u8], most: usize) -> Result<(), Failed>
    requires { 0 < most }
    ensures put { OnOk result (K.held sink.new ≡ appended (K.held sink.old) bytes.now) }
    ensures pieces { OnOk result (K.puts sink.new ≡ K.puts sink.old ++ pieces_of most bytes.now) }
    ensures no_fault { OnOk result (K.faults sink.new ≡ K.faults sink.old) }
    ensures failed { OnErr result (Rose (K.faults sink.old) (K.faults sink.new)) }
    ensures prefix { OnErr result (GotPrefix (K.held sink.old) bytes.now (K.held sink.new)) }
    ensures pieces_up_to { OnErr result (PutFront (K.puts sink.old) (pieces_of most bytes.now) (K.puts sink.new)) }
    ensures no_less { K.faults sink.old ≤ K.faults sink.new }
{
    let mut rest = bytes;
    while !rest.is_empty() {
        let (piece, later) = rest.split_at(rest.len().min(most));
        sink.put(piece)?;
        rest = later;
    }
    Ok(())
}
