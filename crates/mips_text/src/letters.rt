//! The kinds of bytes in assembly: those that separate tokens, and those of which names and registers consist.

ghost use Rattle.std.specs.Prelude.{◌≡◌};
ghost use Rattle.std.specs.Char.{is_ascii_alphanumeric};
ghost use Rattle.mips_text.specs.Letters.{blank, name_rest, name_start};

/// Whether a byte only parts words.
pub(crate) fn is_blank(byte: u8) -> bool
    ensures { result ≡ blank byte }
{
    matches!(byte, b' ' | b'\t' | b'\r' | b',')
}

/// Whether a byte begins a name.
pub(crate) fn begins_name(byte: u8) -> bool
    ensures { result ≡ name_start byte }
{
    matches!(byte, b'A'..=b'Z' | b'a'..=b'z' | b'_' | b'.')
}

/// Whether a byte stands after the first one of a name.
pub(crate) fn continues_name(byte: u8) -> bool
    ensures { result ≡ name_rest byte }
{
    begins_name(byte) || byte.is_ascii_digit()
}

/// Whether a byte stands after the `$` of a register.
pub(crate) fn continues_register(byte: u8) -> bool
    ensures { result ≡ is_ascii_alphanumeric byte }
{
    byte.is_ascii_alphanumeric()
}
