//! `next_byte` reads the next byte other than 0 from a source (input stream).

ghost use Rattle.std.specs.Prelude.{◌≡◌, ◌<◌, IfOk, IfSome, OnOk, OnErr};
ghost use Rattle.cool_ports.specs.Counts.{Rose};
ghost use Rattle.cool_ports.specs.Taking.{Took, OfAnyInput, GaveByte};

use crate::{Failed, Source};

/// The next byte other than 0. `None` comes at the end of the input; a source that answered it is not asked again.
///
/// `ended` says whether the end was answered. `Failed` comes at the first `take` that fails.
pub fn next_byte<S: Source>(ended: &mut bool, source: &mut S) -> Result<Option<u8>, Failed>
    ensures took { Took ended.old ended.new (S.past source.old) (S.past source.new) (S.left source.old) (S.left source.new) }
    ensures gave { OfAnyInput (S.past source.old) (S.past source.new) (λ before after. GaveByte ended.old before result ended.new after) }
    ensures room { IfOk result (λ byte. IfSome byte (λ _. S.room source.new < S.room source.old)) }
    ensures no_fault { OnOk result (S.faults source.new ≡ S.faults source.old) }
    ensures failed { OnErr result (Rose (S.faults source.old) (S.faults source.new)) }
{
    if *ended {
        return Ok(None);
    }
    loop {
        match source.take()? {
            Some(0) => {}
            Some(byte) => return Ok(Some(byte)),
            None => {
                *ended = true;
                return Ok(None);
            }
        }
    }
}
