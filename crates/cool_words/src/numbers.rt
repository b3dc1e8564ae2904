//! Reading a decimal number in an argument, and checking that it is within its bounds.

ghost use Rattle.std.specs.Prelude.{◌≡◌, IfSome};
ghost use Rattle.std.specs.List.{list_all};
ghost use Rattle.std.specs.Char.{is_ascii_digit};
ghost use Rattle.cool_words.specs.Numbers.{IsWithin, number_in};

/// The most digits of a number.
const MOST_DIGITS: usize = 19;

/// The number that the text is: 1 to 19 decimal digits, from `low` to `high`. `None` if it is no such number.
pub(crate) fn read_number(text: &str, low: u64, high: u64) -> Option<u64>
    ensures value { result ≡ number_in low high text.now }
    ensures bounds { IfSome result (IsWithin low high) }
{
    if MOST_DIGITS < text.len() || !are_digits(text.as_bytes()) {
        return None;
    }
    match text.parse::<u64>() {
        Ok(number) if low <= number && number <= high => Some(number),
        _ => None,
    }
}

fn are_digits(bytes: &[u8]) -> bool
    ensures { result ≡ list_all is_ascii_digit bytes.now }
{
    bytes.iter().all(|byte| byte.is_ascii_digit())
}
