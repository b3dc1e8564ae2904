//! The system calls that read, and the bytes that they take from the input stream.

ghost use Rattle.std.specs.Prelude.{◌≡◌, List, [], ℕ, IfOk, OnOk, OnErr, false};
ghost use Rattle.cool_ports.specs.Counts.{Rose};
ghost use Rattle.mips_isa.specs.Calls.{asked, char_of};
ghost use Rattle.cool_ports.specs.Taking.{Took, OfAnyInput};
ghost use Rattle.spim_machine.specs.Input.{TookAll, TookSome};

use cool_ports::{Failed, Source, next_byte};

/// The result of `read_char` at the end of the input: -1.
const END_OF_INPUT: u32 = 0xffff_ffff;

/// The next byte other than 0 as a number, or -1 at the end of the input.
pub fn read_char<S: Source>(ended: &mut bool, source: &mut S) -> Result<u32, Failed>
    ensures took { Took ended.old ended.new (S.past source.old) (S.past source.new) (S.left source.old) (S.left source.new) }
    ensures all { IfOk result (λ n. OfAnyInput (S.past source.old) (S.past source.new) (λ before after. (got : List ℕ) × TookAll (asked ended.old 1) got before ended.new after × (n ≡ char_of got))) }
    ensures some { OnErr result (OfAnyInput (S.past source.old) (S.past source.new) (λ before after. (ended.old ≡ false) × (ended.new ≡ ended.old) × TookSome (asked ended.old 1) [] before after)) }
    ensures no_fault { OnOk result (S.faults source.new ≡ S.faults source.old) }
    ensures failed { OnErr result (Rose (S.faults source.old) (S.faults source.new)) }
{
    match next_byte(ended, source)? {
        Some(byte) => Ok(u32::from(byte)),
        None => Ok(END_OF_INPUT),
    }
}
