//! Appending given bytes and a number in four decimal digits to the generated text.

ghost use Rattle.std.specs.Prelude.{◌≡◌, ◌+◌, ◌<◌, ◌++◌, OnOk};
ghost use Rattle.cool_big.specs.BigPrograms.{four_digits, numbered};

use std::alloc::AllocError;

/// Adds words, and after them a number below 10000 in four digits. Returns `Err` only if memory runs out.
pub(crate) fn push_numbered(text: &mut Vec<u8>, words: &[u8], number: u32) -> Result<(), AllocError>
    requires { number < 10000 }
    ensures { OnOk result (text.new.items ≡ text.old.items ++ numbered words.now number) }
{
    text.extend_from_slice(words)?;
    push_four_digits(text, number)
}

/// Adds a number below 10000 in four digits. Returns `Err` only if memory runs out.
fn push_four_digits(text: &mut Vec<u8>, number: u32) -> Result<(), AllocError>
    requires { number < 10000 }
    ensures { OnOk result (text.new.items ≡ text.old.items ++ four_digits number) }
{
    let digits = [
        digit(number / 1000),
        digit(number / 100 % 10),
        digit(number / 10 % 10),
        digit(number % 10),
    ];
    text.extend_from_slice(&digits)
}

/// The character of a digit.
fn digit(value: u32) -> u8
    requires { value < 10 }
    ensures { result ≡ 48 + value }
{
    b'0' + value as u8
}
