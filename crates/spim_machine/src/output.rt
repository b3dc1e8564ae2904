//! The system calls that print: they write bytes to the output stream, strings in pieces of 64 bytes.

ghost use Rattle.std.specs.Prelude.{◌≡◌, ◌+◌, ◌<◌, ◌++◌, length, OnOk, OnErr};
ghost use Rattle.cool_ports.specs.Counts.{Rose};
ghost use Rattle.cool_ports.specs.SinkBytes.{appended, GotPrefix};
ghost use Rattle.cool_ports.specs.SinkPuts.{pieces_of, PutFront};
ghost use Rattle.mips_isa.specs.declared.address_map.TheConstants.{STACK_END};
ghost use Rattle.spim_memory.specs.Memory.{segments, bytes_of};
ghost use Rattle.spim_memory.specs.Strings.{bytes_from, MayLoad};

use cool_ports::{Failed, Sink};
use spim_memory::Memory;

/// The most bytes that are put at once.
const PIECE: usize = 64;

/// Puts so many bytes from an address on, in pieces of 64 bytes, the last one shorter. No bytes are no piece.
///
/// `Failed` comes at the first `put` that fails; then a prefix of the bytes was put.
pub fn put_string<K: Sink>(
    memory: &Memory,
    address: u32,
    count: u32,
    sink: &mut K,
) -> Result<(), Failed>
    requires loads { MayLoad (segments memory.now) address count }
    requires below { address + count < STACK_END }
    ensures put { OnOk result (K.held sink.new ≡ appended (K.held sink.old) (bytes_from (bytes_of memory.now) address count)) }
    ensures prefix { OnErr result (GotPrefix (K.held sink.old) (bytes_from (bytes_of memory.now) address count) (K.held sink.new)) }
    ensures pieces { OnOk result (K.puts sink.new ≡ K.puts sink.old ++ pieces_of 64 (bytes_from (bytes_of memory.now) address count)) }
    ensures pieces_up_to { OnErr result (PutFront (K.puts sink.old) (pieces_of 64 (bytes_from (bytes_of memory.now) address count)) (K.puts sink.new)) }
    ensures no_fault { OnOk result (K.faults sink.new ≡ K.faults sink.old) }
    ensures failed { OnErr result (Rose (K.faults sink.old) (K.faults sink.new)) }
{
    let mut bytes = [0; PIECE];
    let mut done = 0;
    while done < count {
        let size = (count - done).min(PIECE as u32);
        let piece = &mut bytes[..size as usize];
        load_bytes(memory, address + done, piece);
        sink.put(piece)?;
        done += size;
    }
    Ok(())
}

/// Loads the bytes from an address on.
fn load_bytes(memory: &Memory, address: u32, bytes: &mut [u8])
    requires loads { MayLoad (segments memory.now) address (length bytes.old) }
    requires below { address + length bytes.old < STACK_END }
    ensures { bytes.new ≡ bytes_from (bytes_of memory.now) address (length bytes.old) }
{
    for (k, byte) in bytes.iter_mut().enumerate() {
        match memory.load_byte(address + k as u32) {
            Ok(loaded) => *byte = loaded,
            Err(_) => unreachable!(),
        }
    }
}
