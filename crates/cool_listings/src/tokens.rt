//! `token_lines` writes a line for each token of the files, up to the first lexical error of each file.

ghost use Rattle.std.specs.Prelude.{◌≡◌, ◌≤◌, IfOk, length, flat_map};
ghost use Rattle.cool_syntax.specs.declared.TheConstants.{MOST_FILES, MOST_SOURCE_BYTES};
ghost use Rattle.cool_faults.specs.Files.{bytes_of, total};
ghost use Rattle.cool_listings.specs.EachFile.{IsOfEach};
ghost use Rattle.cool_listings.specs.TokenLines.{AreTokensOf, byte_text, end_line, fault_line, key_word, kind_word, last_line, lex_word, octal, sign_word, string_text, token_line, tokens_text, value_text};

use cool_emit::place_text;
use cool_lexer::{Beginning, LexFault, lex_to_fault};
use cool_syntax::{Key, LexKind, Place, Sign, Token, TokenKind};
use std::alloc::{AllocError, Global};

/// The lines of the tokens of files: for each file those up to its first fault, and then one for its end or for the fault. Returns `Err` only if memory
/// runs out.
pub fn token_lines(alloc: Global, files: &[Vec<u8>]) -> Result<Vec<u8>, AllocError>
    requires few { length files.now ≤ MOST_FILES }
    requires small { total (bytes_of files.now) ≤ MOST_SOURCE_BYTES }
    ensures { IfOk result (λ text. IsOfEach AreTokensOf 0 (bytes_of files.now) text.items) }
{
    let mut text = Vec::new(alloc);
    for (index, file) in files.iter().enumerate() {
        text.extend_from_slice(&file_text(alloc, index as u32, file.as_slice())?)?;
    }
    Ok(text)
}

/// The lines of the tokens of the file of this number. Returns `Err` only if memory runs out.
fn file_text(alloc: Global, file: u32, bytes: &[u8]) -> Result<Vec<u8>, AllocError>
    requires { length bytes.now ≤ MOST_SOURCE_BYTES }
    ensures { IfOk result (λ text. AreTokensOf file bytes.now text.items) }
{
    let Beginning { tokens, end, fault } = lex_to_fault(alloc, file, bytes)?;
    let mut text = tokens_text(alloc, &tokens)?;
    text.extend_from_slice(&last_line(alloc, end, fault)?)?;
    Ok(text)
}

/// The lines of tokens. Returns `Err` only if memory runs out.
fn tokens_text(alloc: Global, tokens: &[Token]) -> Result<Vec<u8>, AllocError>
    ensures { IfOk result (λ text. text.items ≡ flat_map token_line tokens.now) }
{
    let mut text = Vec::new(alloc);
    for token in tokens {
        text.extend_from_slice(&token_line(alloc, token)?)?;
    }
    Ok(text)
}

/// The line of a token. Returns `Err` only if memory runs out.
fn token_line(alloc: Global, token: &Token) -> Result<Vec<u8>, AllocError>
    ensures { IfOk result (λ line. line.items ≡ token_line token.now) }
{
    let mut line = Vec::from_slice(alloc, kind_word(&token.kind))?;
    line.extend_from_slice(b" ")?;
    line.extend_from_slice(&place_text(alloc, token.at)?)?;
    line.extend_from_slice(b" ")?;
    line.extend_from_slice(&value_text(alloc, &token.kind)?)?;
    line.extend_from_slice(b"\n")?;
    Ok(line)
}

/// The line of the end of a file, or of its first fault. Returns `Err` only if memory runs out.
fn last_line(alloc: Global, end: Place, fault: Option<LexFault>) -> Result<Vec<u8>, AllocError>
    ensures { IfOk result (λ line. line.items ≡ last_line end fault) }
{
    match fault {
        None => end_line(alloc, end),
        Some(fault) => fault_line(alloc, fault.at, lex_word(fault.kind)),
    }
}

/// The line of the end of a file. Returns `Err` only if memory runs out.
fn end_line(alloc: Global, at: Place) -> Result<Vec<u8>, AllocError>
    ensures { IfOk result (λ line. line.items ≡ end_line at) }
{
    let mut line = Vec::from_slice(alloc, b"end ")?;
    line.extend_from_slice(&place_text(alloc, at)?)?;
    line.extend_from_slice(b"\n")?;
    Ok(line)
}

/// The line of a fault of this kind. Returns `Err` only if memory runs out.
pub(crate) fn fault_line(alloc: Global, at: Place, word: &[u8]) -> Result<Vec<u8>, AllocError>
    ensures { IfOk result (λ line. line.items ≡ fault_line at word.now) }
{
    let mut line = Vec::from_slice(alloc, b"fault ")?;
    line.extend_from_slice(&place_text(alloc, at)?)?;
    line.extend_from_slice(b" ")?;
    line.extend_from_slice(word)?;
    line.extend_from_slice(b"\n")?;
    Ok(line)
}

/// The first word of a token's line.
fn kind_word(kind: &TokenKind) -> &'static [u8]
    ensures { result.now ≡ kind_word kind.now }
{
    match kind {
        TokenKind::Key(_) => b"keyword",
        TokenKind::TypeId(_) => b"type",
        TokenKind::ObjectId(_) => b"object",
        TokenKind::Int(_) => b"integer",
        TokenKind::Str(_) => b"string",
        TokenKind::Sign(_) => b"sign",
    }
}

/// The value of a token. Returns `Err` only if memory runs out.
fn value_text(alloc: Global, kind: &TokenKind) -> Result<Vec<u8>, AllocError>
    ensures { IfOk result (λ text. text.items ≡ value_text kind.now) }
{
    match kind {
        TokenKind::Key(key) => Vec::from_slice(alloc, key_word(*key)),
        TokenKind::TypeId(name) => Vec::from_slice(alloc, name.as_slice()),
        TokenKind::ObjectId(name) => Vec::from_slice(alloc, name.as_slice()),
        TokenKind::Int(value) => Ok(format!(in alloc; "{value}")?.into_bytes()),
        TokenKind::Str(bytes) => string_text(alloc, bytes.as_slice()),
        TokenKind::Sign(sign) => Vec::from_slice(alloc, sign_word(*sign)),
    }
}

/// The bytes of a string as Cool writes them, in quotes. Returns `Err` only if memory runs out.
pub(crate) fn string_text(alloc: Global, bytes: &[u8]) -> Result<Vec<u8>, AllocError>
    ensures { IfOk result (λ text. text.items ≡ string_text bytes.now) }
{
    let mut text = Vec::from_slice(alloc, b"\"")?;
    text.extend_from_slice(&bytes_text(alloc, bytes)?)?;
    text.extend_from_slice(b"\"")?;
    Ok(text)
}

/// The bytes of a string, each as Cool writes it. Returns `Err` only if memory runs out.
fn bytes_text(alloc: Global, bytes: &[u8]) -> Result<Vec<u8>, AllocError>
    ensures { IfOk result (λ text. text.items ≡ flat_map byte_text bytes.now) }
{
    let mut text = Vec::new(alloc);
    for byte in bytes {
        text.extend_from_slice(&byte_text(alloc, *byte)?)?;
    }
    Ok(text)
}

/// A byte of a string. Returns `Err` only if memory runs out.
fn byte_text(alloc: Global, byte: u8) -> Result<Vec<u8>, AllocError>
    ensures { IfOk result (λ text. text.items ≡ byte_text byte) }
{
    match byte {
        b'\\' => Vec::from_slice(alloc, b"\\\\"),
        b'"' => Vec::from_slice(alloc, b"\\\""),
        b'\n' => Vec::from_slice(alloc, b"\\n"),
        b'\t' => Vec::from_slice(alloc, b"\\t"),
        8 => Vec::from_slice(alloc, b"\\b"),
        12 => Vec::from_slice(alloc, b"\\f"),
        32..=126 => Vec::from_slice(alloc, &[byte]),
        _ => Vec::from_slice(alloc, &octal(byte)),
    }
}

/// A backslash, and three octal digits.
fn octal(byte: u8) -> [u8; 4]
    ensures { result ≡ octal byte }
{
    [
        b'\\',
        b'0' + byte / 64,
        b'0' + byte / 8 % 8,
        b'0' + byte % 8,
    ]
}

fn key_word(key: Key) -> &'static [u8]
    ensures { result.now ≡ key_word key }
{
    match key {
        Key::Class => b"class",
        Key::Else => b"else",
        Key::False => b"false",
        Key::Fi => b"fi",
        Key::If => b"if",
        Key::In => b"in",
        Key::Inherits => b"inherits",
        Key::IsVoid => b"isvoid",
        Key::Let => b"let",
        Key::Loop => b"loop",
        Key::Pool => b"pool",
        Key::Then => b"then",
        Key::While => b"while",
        Key::Case => b"case",
        Key::Esac => b"esac",
        Key::New => b"new",
        Key::Of => b"of",
        Key::Not => b"not",
        Key::True => b"true",
    }
}

fn sign_word(sign: Sign) -> &'static [u8]
    ensures { result.now ≡ sign_word sign }
{
    match sign {
        Sign::LBrace => b"{",
        Sign::RBrace => b"}",
        Sign::LParen => b"(",
        Sign::RParen => b")",
        Sign::Colon => b":",
        Sign::Semi => b";",
        Sign::Comma => b",",
        Sign::Dot => b".",
        Sign::At => b"@",
        Sign::Tilde => b"~",
        Sign::Star => b"*",
        Sign::Slash => b"/",
        Sign::Plus => b"+",
        Sign::Minus => b"-",
        Sign::LessEqual => b"<=",
        Sign::Less => b"<",
        Sign::Equal => b"=",
        Sign::Arrow => b"<-",
        Sign::FatArrow => b"=>",
    }
}

pub(crate) fn lex_word(kind: LexKind) -> &'static [u8]
    ensures { result.now ≡ lex_word kind }
{
    match kind {
        LexKind::L1 => b"L1",
        LexKind::L2 => b"L2",
        LexKind::L3 => b"L3",
        LexKind::L4 => b"L4",
        LexKind::L5 => b"L5",
        LexKind::L6 => b"L6",
        LexKind::L7 => b"L7",
        LexKind::L8 => b"L8",
    }
}
