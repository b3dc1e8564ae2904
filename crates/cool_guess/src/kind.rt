//! `kind_of` says whether a lexeme is a keyword or sign, the name of a variable or a class, a number, or a string.

/// The keywords, which are no names.
pub(crate) static KEYWORDS: [&str; 19] = [
    "class", "else", "false", "fi", "if", "in", "inherits", "isvoid", "let", "loop", "pool",
    "then", "while", "case", "esac", "new", "of", "not", "true",
];

/// The kind of a lexeme.
#[derive(Clone, Copy)]
pub(crate) enum Kind {
    /// A keyword, a sign, or nothing.
    Fixed,
    /// The name of a variable, an attribute or a method.
    Object,
    /// The name of a class.
    Type,
    Number,
    String,
}

/// The kind of a lexeme.
pub(crate) fn kind_of(word: &[u8]) -> Kind {
    match word {
        [b'a'..=b'z' | b'_', ..] if !is_keyword(word) => Kind::Object,
        [b'A'..=b'Z', ..] => Kind::Type,
        [b'0'..=b'9', ..] => Kind::Number,
        [b'"', ..] => Kind::String,
        _ => Kind::Fixed,
    }
}

/// Whether a word is a keyword.
pub(crate) fn is_keyword(word: &[u8]) -> bool {
    is_one_of(&KEYWORDS, word)
}

/// Whether a word is one of a table.
pub(crate) fn is_one_of(words: &[&str], word: &[u8]) -> bool {
    for known in words {
        if known.as_bytes() == word {
            return true;
        }
    }
    false
}

/// Whether a word is the name of something.
pub(crate) fn is_name(word: &[u8]) -> bool {
    matches!(kind_of(word), Kind::Object | Kind::Type)
}

/// Whether a word is a number or a string.
pub(crate) fn is_constant(word: &[u8]) -> bool {
    matches!(kind_of(word), Kind::Number | Kind::String)
}

/// Whether a word is the name of a class.
pub(crate) fn is_type_name(word: &[u8]) -> bool {
    matches!(word, [b'A'..=b'Z', ..])
}

/// Whether all bytes of a word are digits, and there are some.
pub(crate) fn is_number(word: &[u8]) -> bool {
    for byte in word {
        if !matches!(*byte, b'0'..=b'9') {
            return false;
        }
    }
    !word.is_empty()
}
