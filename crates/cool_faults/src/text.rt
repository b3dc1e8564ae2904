//! `fault_text` writes the message line of a compile-time error: `NAME:LINE: KIND: WORDS`.

ghost use Rattle.std.specs.Prelude.{◌≡◌, ◌<◌, IfOk, length, map, string_bytes};
ghost use Rattle.cool_faults.specs.Verdicts.{place_of};
ghost use Rattle.cool_faults.specs.Texts.{class_words, fault_line, fault_words, lex_words, type_words};

use crate::fault::Fault;
use crate::shown_bytes::shown;
use cool_check::TypeKind;
use cool_classes::ClassKind;
use cool_lexer::LexKind;
use std::alloc::{AllocError, Global};

/// The line of a fault with its newline: `NAME:LINE: KIND: WORDS`. The names are those of the files, in the order of their numbers; `shown` replaces the bytes
/// of NAME that a terminal obeys. Returns `Err` only if memory runs out.
pub fn fault_text(alloc: Global, names: &[String], fault: &Fault) -> Result<Vec<u8>, AllocError>
    requires named { (place_of fault.now).file < length names.now }
    ensures line { IfOk result (λ line. line.items ≡ fault_line (map string_bytes names.now) fault.now) }
{
    let mut text = shown(alloc, names[fault.place().file as usize].as_bytes())?;
    let line = fault.place().line;
    let words = fault_words(fault);
    text.extend_from_slice(format!(in alloc; ":{line}: {words}\n")?.as_bytes())?;
    Ok(text)
}

/// The kind of a fault, and its message.
pub fn fault_words(fault: &Fault) -> &'static str
    ensures { result.now ≡ fault_words fault.now }
{
    match fault {
        Fault::Lex(fault) => lex_words(fault.kind),
        Fault::Syntax(_) => "S1: unexpected token",
        Fault::Class(fault) => class_words(fault.kind),
        Fault::Typing(fault) => type_words(fault.kind),
    }
}

fn lex_words(kind: LexKind) -> &'static str
    ensures { result.now ≡ lex_words kind }
{
    match kind {
        LexKind::L1 => "L1: unknown character",
        LexKind::L2 => "L2: string not closed",
        LexKind::L3 => "L3: null byte in string",
        LexKind::L4 => "L4: string too long",
        LexKind::L5 => "L5: comment not closed",
        LexKind::L6 => "L6: comment not opened",
        LexKind::L7 => "L7: integer too large",
        LexKind::L8 => "L8: feature too long",
    }
}

fn class_words(kind: ClassKind) -> &'static str
    ensures { result.now ≡ class_words kind }
{
    match kind {
        ClassKind::C1 => "C1: class defined twice",
        ClassKind::C2 => "C2: SELF_TYPE names no class",
        ClassKind::C3 => "C3: unknown parent",
        ClassKind::C4 => "C4: parent cannot be inherited",
        ClassKind::C5 => "C5: inheritance cycle",
        ClassKind::C6 => "C6: no class Main",
        ClassKind::C7 => "C7: too many classes",
        ClassKind::F1 => "F1: method defined twice",
        ClassKind::F2 => "F2: attribute defined twice",
        ClassKind::F3 => "F3: self cannot be declared",
        ClassKind::F4 => "F4: formal defined twice",
        ClassKind::F5 => "F5: formal of type SELF_TYPE",
        ClassKind::F6 => "F6: unknown type",
        ClassKind::F7 => "F7: signature differs",
        ClassKind::F8 => "F8: no method main",
        ClassKind::F9 => "F9: too many features",
    }
}

fn type_words(kind: TypeKind) -> &'static str
    ensures { result.now ≡ type_words kind }
{
    match kind {
        TypeKind::E1 => "E1: unknown name",
        TypeKind::E2 => "E2: self cannot be assigned",
        TypeKind::E3 => "E3: assigned value does not conform",
        TypeKind::E4 => "E4: unknown method",
        TypeKind::E5 => "E5: wrong number of arguments",
        TypeKind::E6 => "E6: argument does not conform",
        TypeKind::E7 => "E7: SELF_TYPE after @",
        TypeKind::E8 => "E8: receiver does not conform",
        TypeKind::E9 => "E9: predicate is not Bool",
        TypeKind::E10 => "E10: self cannot be bound",
        TypeKind::E11 => "E11: unknown type",
        TypeKind::E12 => "E12: SELF_TYPE in a branch",
        TypeKind::E13 => "E13: branch type twice",
        TypeKind::E14 => "E14: operand is not Int",
        TypeKind::E15 => "E15: unequal types",
        TypeKind::E16 => "E16: operand is not Bool",
        TypeKind::E17 => "E17: initial value does not conform",
        TypeKind::E18 => "E18: body does not conform",
    }
}
