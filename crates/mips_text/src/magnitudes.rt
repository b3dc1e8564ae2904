//! Scanning a decimal or hexadecimal number without its sign, at the front of a text.

ghost use Rattle.std.specs.Prelude.{◌≡◌, ◌≤◌, ◌<◌, IfSome, length, option_map};
ghost use Rattle.mips_text.specs.Fronts.{capped_magnitude, decimal_found, hexadecimal_found, magnitude_found};
ghost use Rattle.mips_text.specs.Views.{magnitude_seen};

use crate::numbers::{LARGEST, value_of_digits};
use crate::span::{Span, span_len};

/// A number without its sign, or one past every range in place of a larger one, and the number of its bytes.
#[derive(Clone, Copy)]
pub(crate) struct Magnitude {
    pub(crate) value: u64,
    pub(crate) size: usize,
}

/// The number without a sign that the bytes begin with. A `0x` without a hexadecimal digit is a 0 before a name.
pub(crate) fn magnitude_at(bytes: &[u8]) -> Option<Magnitude>
    ensures exact { option_map magnitude_seen result ≡ option_map capped_magnitude (magnitude_found bytes.now) }
    ensures small { IfSome result (λ m. m.value ≤ LARGEST) }
    ensures within { IfSome result (λ m. m.size ≤ length bytes.now) }
    ensures some { IfSome result (λ m. 0 < m.size) }
{
    match hexadecimal(bytes) {
        Some(number) => Some(number),
        None => decimal(bytes),
    }
}

/// The hexadecimal number that the bytes begin with.
fn hexadecimal(bytes: &[u8]) -> Option<Magnitude>
    ensures exact { option_map magnitude_seen result ≡ option_map capped_magnitude (hexadecimal_found bytes.now) }
    ensures small { IfSome result (λ m. m.value ≤ LARGEST) }
    ensures within { IfSome result (λ m. m.size ≤ length bytes.now) }
    ensures some { IfSome result (λ m. 0 < m.size) }
{
    let [b'0', b'x', tail @ ..] = bytes else {
        return None;
    };
    let size = span_len(Span::HexDigits, tail);
    if size == 0 {
        return None;
    }
    Some(Magnitude {
        value: value_of_digits(16, &tail[..size]),
        size: size + 2,
    })
}

/// The decimal number that the bytes begin with.
fn decimal(bytes: &[u8]) -> Option<Magnitude>
    ensures exact { option_map magnitude_seen result ≡ option_map capped_magnitude (decimal_found bytes.now) }
    ensures small { IfSome result (λ m. m.value ≤ LARGEST) }
    ensures within { IfSome result (λ m. m.size ≤ length bytes.now) }
    ensures some { IfSome result (λ m. 0 < m.size) }
{
    let size = span_len(Span::Digits, bytes);
    if size == 0 {
        return None;
    }
    Some(Magnitude {
        value: value_of_digits(10, &bytes[..size]),
        size,
    })
}
