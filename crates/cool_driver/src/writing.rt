//! Writes the bytes of an image or of a text to the output, in pieces of at most 4,096 bytes.

ghost use Rattle.std.specs.Prelude.{◌≢◌};
ghost use Rattle.cool_ports.specs.SinkPuts.{pieces_of};
ghost use Rattle.cool_driver.specs.Calls.{sink_use};
ghost use Rattle.cool_driver.specs.Comes.{PutAsDue};
ghost use Rattle.cool_driver.specs.Statuses.{REFUSED, code_of};
ghost use Rattle.cool_driver.specs.Telling.{Noted};

use crate::status::Status;
use cool_ports::{Failed, Sink, put_pieces};

/// The most bytes of a piece of the output.
const MOST_PIECE_BYTES: usize = 4_096;

/// Writes the bytes in pieces of 4,096, the last one shorter, and answers `Done`, or that a write failed. No bytes are no write.
pub fn write_pieces<O: Sink>(out: &mut O, bytes: &[u8]) -> Status
    ensures noted { Noted (sink_use O.Sink out.old out.new) bytes.now Status.Done result }
    ensures put { PutAsDue (pieces_of MOST_PIECE_BYTES bytes.now) (sink_use O.Sink out.old out.new) (code_of result) }
    ensures other { code_of result ≢ REFUSED }
{
    match put_pieces(out, bytes, MOST_PIECE_BYTES) {
        Ok(()) => Status::Done,
        Err(Failed) => Status::WriteFault,
    }
}
