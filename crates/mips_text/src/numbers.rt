//! The value of digits in a base; a value beyond the range of every operand is returned as `LARGEST`.

ghost use Rattle.std.specs.Prelude.{◌≡◌, ◌≤◌, min};
ghost use Rattle.mips_text.specs.Words.{digit_value, value};

/// A value that is past the range of every operand. Larger numbers are read as this one.
pub const LARGEST: u64 = 0x100_0000_0000;

/// The number of these digits, in a base up to 16; `LARGEST` in place of a larger one. Other bytes are not told from digits.
pub fn value_of_digits(base: u64, digits: &[u8]) -> u64
    requires least { 1 ≤ base }
    requires most { base ≤ 16 }
    ensures { result ≡ min (value base digits.now) LARGEST }
{
    let mut number = 0;
    for digit in digits {
        number = (number * base + digit_value(*digit)).min(LARGEST);
    }
    number
}

/// The value of a digit.
fn digit_value(digit: u8) -> u64
    ensures value { result ≡ digit_value digit }
    ensures small { result ≤ 255 }
{
    match digit {
        ..=b'9' => u64::from(digit.saturating_sub(b'0')),
        ..=b'F' => u64::from(digit - 55),
        _ => u64::from(digit.saturating_sub(87)),
    }
}
