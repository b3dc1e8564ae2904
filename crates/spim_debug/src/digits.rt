//! The eight hexadecimal digits of a machine word.

ghost use Rattle.std.specs.Prelude.{◌≡◌};
ghost use Rattle.arrayvec.specs.ArrayString.{array_string_len};
ghost use Rattle.spim_debug.specs.Notes.{digits};

use arrayvec::ArrayString;

/// The eight hexadecimal digits of a word, in lower case. It takes no memory.
pub fn hexadecimal_digits(word: u32) -> ArrayString<8>
    ensures bytes { result.bytes ≡ digits word }
    ensures len { array_string_len result ≡ 8 }
{
    let mut bytes = [0; 8];
    if hex::encode_to_slice(word.to_be_bytes(), &mut bytes).is_err() {
        unreachable!();
    }
    match ArrayString::from_byte_string(&bytes) {
        Ok(digits) => digits,
        Err(_) => unreachable!(),
    }
}
