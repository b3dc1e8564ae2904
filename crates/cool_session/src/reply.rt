//! The reply of a session to a check: the list of errors, and how many features were typed.

ghost use Rattle.std.specs.Prelude.{◌≡◌, ◌<◌, [], ◌∷◌, length, map, IfOk, string_bytes};
ghost use Rattle.std.specs.List.{AllByRecursion};
ghost use Rattle.cool_ports.specs.SinkPuts.{seen};
ghost use Rattle.cool_syntax.specs.TokenFacts.{IsPlaced};
ghost use Rattle.cool_faults.specs.Texts.{fault_line};
ghost use Rattle.cool_faults.specs.Verdicts.{place_of};
ghost use Rattle.cool_session.specs.Conversations.{Counted};
ghost use Rattle.cool_session.specs.Files.{names_of};
ghost use Rattle.cool_session.specs.Obeying.{PutLines};
ghost use Rattle.cool_session.specs.Replies.{first_line, reply_lines};

use crate::ending::Interruption;
use cool_faults::{Fault, fault_text};
use cool_ports::Sink;
use std::alloc::{AllocError, Global};

/// The fault list of files, and how many of their features were typed for it.
#[derive(Drop)]
pub struct Reply {
    /// The faults of the first phase that finds any, in the order of files, bytes and kinds.
    pub faults: Vec<Fault>,
    /// The number of features that were typed again.
    pub typed: u64,
}

/// Puts the lines of a reply, each at once. The names are those of the files.
///
/// Returns `WriteFault` at the first put that fails, and `Memory` only if memory runs out; then a prefix of the lines was put.
pub(crate) fn put_reply<K: Sink>(
    alloc: Global,
    names: &[String],
    reply: &Reply,
    sink: &mut K,
) -> Result<(), Interruption>
    requires placed { AllByRecursion (λ f. IsPlaced (length names.now) (place_of f)) reply.now.faults.items }
    ensures put { PutLines (reply_lines (names_of names.now) reply.now.faults.items reply.now.typed) result (seen (K.held sink.old) (K.puts sink.old)) (seen (K.held sink.new) (K.puts sink.new)) }
    ensures counts { Counted result 0 0 (K.faults sink.old) (K.faults sink.new) }
{
    put_first(alloc, reply.faults.len(), reply.typed, sink)?;
    put_faults(alloc, names, reply.faults.as_slice(), sink)
}

/// Puts the first line of a reply.
fn put_first<K: Sink>(
    alloc: Global,
    faults: usize,
    typed: u64,
    sink: &mut K,
) -> Result<(), Interruption>
    ensures put { PutLines (first_line faults typed ∷ []) result (seen (K.held sink.old) (K.puts sink.old)) (seen (K.held sink.new) (K.puts sink.new)) }
    ensures counts { Counted result 0 0 (K.faults sink.old) (K.faults sink.new) }
{
    let line = first_line(alloc, faults, typed)?;
    put_line(line.as_str().as_bytes(), sink)
}

/// The first line of a reply, by the numbers of its faults and of the features that were typed. Returns `Err` only if memory runs out.
fn first_line(alloc: Global, faults: usize, typed: u64) -> Result<String, AllocError>
    ensures { IfOk result (λ line. string_bytes line ≡ first_line faults typed) }
{
    format!(in alloc; "faults {faults}, typed {typed}\n")
}

/// Puts the lines of faults, each at once.
fn put_faults<K: Sink>(
    alloc: Global,
    names: &[String],
    faults: &[Fault],
    sink: &mut K,
) -> Result<(), Interruption>
    requires placed { AllByRecursion (λ f. IsPlaced (length names.now) (place_of f)) faults.now }
    ensures put { PutLines (map (fault_line (names_of names.now)) faults.now) result (seen (K.held sink.old) (K.puts sink.old)) (seen (K.held sink.new) (K.puts sink.new)) }
    ensures counts { Counted result 0 0 (K.faults sink.old) (K.faults sink.new) }
{
    for fault in faults {
        let line = fault_text(alloc, names, fault)?;
        put_line(&line, sink)?;
    }
    Ok(())
}

/// Puts a line at once.
fn put_line<K: Sink>(line: &[u8], sink: &mut K) -> Result<(), Interruption>
    requires { 0 < length line.now }
    ensures put { PutLines (line.now ∷ []) result (seen (K.held sink.old) (K.puts sink.old)) (seen (K.held sink.new) (K.puts sink.new)) }
    ensures counts { Counted result 0 0 (K.faults sink.old) (K.faults sink.new) }
{
    match sink.put(line) {
        Ok(()) => Ok(()),
        Err(_) => Err(Interruption::WriteFault),
    }
}
