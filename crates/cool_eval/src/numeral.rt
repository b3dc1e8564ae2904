//! Parses the number at the front of a line of text.

ghost use Rattle.std.specs.Prelude.{◌≡◌, ◌%◌, ◌^◌};
ghost use Rattle.cool_meaning.specs.Numbers as numbers;

/// The number at the front of a line, of which the low 32 bits count: after blanks and tabs an optional minus sign and digits. It is 0
/// where there is none.
pub(crate) fn number_of(line: &[u8]) -> i32
    ensures { result ≡ numbers.number_of line.now }
{
    after_blanks(skip_blanks(line))
}

/// The rest of a line after the blanks and tabs at the front.
fn skip_blanks(line: &[u8]) -> &[u8]
    ensures { result.now ≡ numbers.skip_blanks line.now }
{
    let mut rest = line;
    while let [b' ' | b'\t', later @ ..] = rest {
        rest = later;
    }
    rest
}

/// The number at the front, with no blanks before it.
fn after_blanks(text: &[u8]) -> i32
    ensures { result ≡ numbers.number_after_blanks text.now }
{
    match text {
        [b'-', digits @ ..] => digits_of(digits).wrapping_neg().cast_signed(),
        digits => digits_of(digits).cast_signed(),
    }
}

/// The low 32 bits of the number that the digits at the front make.
fn digits_of(text: &[u8]) -> u32
    ensures { result ≡ numbers.digits_from 0 text.now % 2 ^ 32 }
{
    let mut number: u32 = 0;
    for byte in text {
        let byte = *byte;
        if byte < b'0' || b'9' < byte {
            return number;
        }
        number = number.wrapping_mul(10).wrapping_add(u32::from(byte - b'0'));
    }
    number
}
