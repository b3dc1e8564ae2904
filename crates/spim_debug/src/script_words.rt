//! Splitting the lines of a debugger script into words, and reading its numbers and addresses.

ghost use Rattle.std.specs.Prelude.{◌≡◌, ◌≤◌, ◌<◌, ◌+◌, ◌==◌, true, length, map, IfOk, IfSome};
ghost use Rattle.std.specs.Char.{is_ascii_digit};
ghost use Rattle.std.specs.List.{list_all, slice_split};
ghost use Rattle.mips_text.specs.Letters.{hex_digit};
ghost use Rattle.mips_text.specs.Words.{value};
ghost use Rattle.mips_text.specs.declared.numbers.TheConstants.{LARGEST};
ghost use Rattle.spim_debug.specs.Scripts.{address_in, number_in};

use mips_text::value_of_digits;
use std::alloc::{AllocError, Global};

/// The digits of an address.
const ADDRESS_DIGITS: usize = 8;

/// The parts of a text that stand before, between and behind all bytes of this kind. Returns `Err` only if memory runs out.
pub(crate) fn parts(alloc: Global, text: &[u8], mark: u8) -> Result<Vec<&[u8]>, AllocError>
    ensures exact { IfOk result (λ parts. map (λ part. part.now) parts.items ≡ slice_split (λ byte. byte == mark) text.now) }
    ensures few { IfOk result (λ parts. length parts.items ≤ length text.now + 1) }
{
    text.split(|byte| *byte == mark).collect(alloc)
}

/// The number that a word is, in at most so many decimal digits and from 1 to `most`. `None` if it is no such number.
pub(crate) fn read_number(word: &[u8], digits: usize, most: u64) -> Option<u64>
    requires { most < LARGEST }
    ensures exact { result ≡ number_in digits most word.now }
    ensures small { IfSome result (λ number. number ≤ most) }
{
    if word.is_empty() || digits < word.len() || !are_decimal(word) {
        return None;
    }
    let number = value_of_digits(10, word);
    (1 <= number && number <= most).then_some(number)
}

/// The address that a word is: `0x` and eight hexadecimal digits of either case. `None` if it is none.
pub(crate) fn read_address(word: &[u8]) -> Option<u32>
    ensures { result ≡ address_in word.now }
{
    let [b'0', b'x', digits @ ..] = word else {
        return None;
    };
    if digits.len() != ADDRESS_DIGITS || !are_hexadecimal(digits) {
        return None;
    }
    Some(address_of(digits))
}

/// The number of these hexadecimal digits.
#[tactic(auto, using(crate::proofs::ScriptNumbers::address_fits))]
fn address_of(digits: &[u8]) -> u32
    requires eight { length digits.now ≡ 8 }
    requires hexadecimal { list_all hex_digit digits.now ≡ true }
    ensures { result ≡ value 16 digits.now }
{
    value_of_digits(16, digits) as u32
}

fn are_decimal(bytes: &[u8]) -> bool
    ensures { result ≡ list_all is_ascii_digit bytes.now }
{
    bytes.iter().all(|byte| byte.is_ascii_digit())
}

fn are_hexadecimal(bytes: &[u8]) -> bool
    ensures { result ≡ list_all hex_digit bytes.now }
{
    bytes.iter().all(|byte| matches!(byte, b'0'..=b'9' | b'A'..=b'F' | b'a'..=b'f'))
}
