//! `StdSource` implements the trait `Source` (an input stream) with a reader of the standard library, such as standard input.

ghost use Rattle.std.specs.Prelude.{◌≡◌, ◌-◌, None, IfOk, OnOk, OnErr};
ghost use Rattle.std.specs.Io.Iter.{bytes_remaining};
ghost use Rattle.cool_ports.specs.Answers.{nothing_yet, after_answer};
ghost use Rattle.cool_ports.specs.Counts.{last_count, GoesOn, Rose};
ghost use Rattle.cool_ports.specs.SourceBytes.{Takes, Spends, Reads};

use crate::history::{Answer, History};
use crate::{Failed, Source};
use std::io::{Bytes, Read};

/// A source over a reader, as standard input. It tells nothing of what is left, and counts each `Err` as a fault. It
/// gives at most 18446744073709551615 bytes; past them `take` fails.
#[derive(Drop)]
pub struct StdSource<R> {
    bytes: Bytes<R>,
    given: u64,
    history: History,
    faults: u64,
}

impl<R: Read + Drop> StdSource<R> {
    /// A source of the bytes that this reader gives.
    pub fn new(reader: R) -> StdSource<R>
        ensures reader { bytes_remaining R.remaining result.bytes ≡ R.remaining reader }
        ensures past { ⟦<StdSource<R> as Source>⟧.past result ≡ nothing_yet }
        ensures room { ⟦<StdSource<R> as Source>⟧.room result ≡ last_count }
        ensures faults { ⟦<StdSource<R> as Source>⟧.faults result ≡ 0 }
    {
        StdSource {
            bytes: reader.bytes(),
            given: 0,
            history: History::new(),
            faults: 0,
        }
    }
}

impl<R: Read + Drop> Source for StdSource<R> {
    ghost faults = { λ source. source.faults };

    ghost past = { λ source. source.history.past };

    ghost left = { λ _. None };

    ghost room = { λ source. last_count - source.given };

    /// If the reader tells what it has left, this is its first byte, or nothing is left.
    #[tactic(auto, unfolding(crate::specs::SourceBytes::put_back))]
    fn take(&mut self) -> Result<Option<u8>, Failed>
        ensures reads { IfOk result (λ first. Reads (bytes_remaining R.remaining self.old.bytes) first (bytes_remaining R.remaining self.new.bytes)) }
        ensures answered { IfOk result (λ first. self.new.history.past ≡ after_answer self.old.history.past first) }
        ensures taken { IfOk result (λ first. Takes None first None) }
        ensures no_fault { OnOk result (self.new.faults ≡ self.old.faults) }
        ensures failed { OnErr result (Rose self.old.faults self.new.faults) }
        ensures nothing_given { OnErr result (self.new.history.past ≡ self.old.history.past) }
        ensures count { GoesOn self.old.faults self.new.faults }
        ensures room { Spends (last_count - self.old.given) result (last_count - self.new.given) }
    {
        if self.given < u64::MAX {
            match self.bytes.next() {
                None => {
                    self.history = self.history.with(&Answer { first: None });
                    return Ok(None);
                }
                Some(Ok(byte)) => {
                    self.given += 1;
                    self.history = self.history.with(&Answer { first: Some(byte) });
                    return Ok(Some(byte));
                }
                Some(Err(_)) => {}
            }
        }
        self.faults = self.faults.saturating_add(1);
        Err(Failed)
    }

    ghost told_room = { λ _. tt };
}
