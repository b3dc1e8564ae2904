//! The number at the front of a line of the input, as the system call `read_int` takes it.

ghost use Rattle.std.specs.Prelude.{◌≡◌, List, ℕ, OnOk, OnErr, IfOk, false, [], ◌∷◌};
ghost use Rattle.cool_ports.specs.Counts.{Rose};
ghost use Rattle.mips_isa.specs.Calls.{asked_line, number_of};
ghost use Rattle.cool_ports.specs.Taking.{Took, OfAnyInput};
ghost use Rattle.spim_machine.specs.Input.{TookAll, TookSome};
ghost use Rattle.spim_machine.specs.Numbers.{number_from};

use cool_ports::{Failed, Source, next_byte};

/// The state of reading a number: blanks, an optional minus sign and digits.
#[derive(Clone, Copy)]
enum Number {
    /// Only blanks came.
    Blanks,
    /// A sign or a digit came: the digits so far are the low 32 bits of a number.
    Digits { negative: bool, value: u32 },
    /// The number is whole, whatever follows.
    Whole(u32),
}

impl Number {
    /// With one more byte.
    fn with(self, byte: u8) -> Number
        ensures { (rest : List ℕ) → number_from result rest ≡ number_from self (byte ∷ rest) }
    {
        match (self, byte) {
            (Number::Blanks, b' ' | b'\t') => Number::Blanks,
            (Number::Blanks, b'-') => Number::Digits {
                negative: true,
                value: 0,
            },
            (Number::Blanks, b'0'..=b'9') => Number::Digits {
                negative: false,
                value: u32::from(byte - b'0'),
            },
            (Number::Digits { negative, value }, b'0'..=b'9') => Number::Digits {
                negative,
                value: value.wrapping_mul(10).wrapping_add(u32::from(byte - b'0')),
            },
            (Number::Blanks | Number::Digits { .. } | Number::Whole(_), _) => Number::Whole(
                self.value(),
            ),
        }
    }

    /// The number, if no more comes.
    fn value(self) -> u32
        ensures { result ≡ number_from self [] }
    {
        match self {
            Number::Blanks => 0,
            Number::Digits {
                negative: false,
                value,
            }
            | Number::Whole(value) => value,
            Number::Digits {
                negative: true,
                value,
            } => value.wrapping_neg(),
        }
    }
}

/// Takes a line, its newline included, and returns the number at its front: after blanks and tabs an optional minus sign and digits, of which the low 32
/// bits count. It is 0 if there is none.
pub fn read_number<S: Source>(ended: &mut bool, source: &mut S) -> Result<u32, Failed>
    ensures took { Took ended.old ended.new (S.past source.old) (S.past source.new) (S.left source.old) (S.left source.new) }
    ensures all { IfOk result (λ n. OfAnyInput (S.past source.old) (S.past source.new) (λ before after. (got : List ℕ) × TookAll (asked_line ended.old) got before ended.new after × (n ≡ number_of got))) }
    ensures some { OnErr result (OfAnyInput (S.past source.old) (S.past source.new) (λ before after. (got : List ℕ) × (ended.old ≡ false) × (ended.new ≡ ended.old) × TookSome (asked_line ended.old) got before after)) }
    ensures no_fault { OnOk result (S.faults source.new ≡ S.faults source.old) }
    ensures failed { OnErr result (Rose (S.faults source.old) (S.faults source.new)) }
{
    let mut number = Number::Blanks;
    while let Some(byte) = next_byte(ended, source)? {
        number = number.with(byte);
        if byte == b'\n' {
            return Ok(number.value());
        }
    }
    Ok(number.value())
}
