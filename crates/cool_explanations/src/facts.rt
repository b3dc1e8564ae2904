//! `facts` says in words what is known of a compile-time error, such as the types that do not fit.

ghost use Rattle.std.specs.Prelude.{◌≡◌, ◌++◌, IfOk, ℕ, List, [], codes, map};
ghost use Rattle.std.specs.Global.{Vec};
ghost use Rattle.cool_faults.specs.Files.{bytes_of};
ghost use Rattle.cool_explanations.specs.Facts.{facts, found_facts, found_words, further, listed, lexeme_text, method_facts, method_words, type_facts, type_words, are_compared};

use crate::shown::{part, quoted};
use cool_check::TypeKind;
use cool_faults::Fault;
use cool_mend::{Explanation, Methods, Types};
use std::alloc::{AllocError, Global};

/// The facts on a fault of this file. Returns `Err` only if memory runs out.
pub(crate) fn facts(
    alloc: Global,
    file: &[u8],
    told: &Explanation,
) -> Result<Vec<Vec<u8>>, AllocError>
    ensures { IfOk result (λ all. bytes_of all.items ≡ facts file.now told.now) }
{
    let mut all = Vec::new(alloc);
    if let Fault::Syntax(_) = told.fault {
        all.push(found_words(alloc, file, told)?)?;
    }
    if let Some(types) = &told.types {
        all.push(type_words(alloc, &told.fault, types)?)?;
    }
    if let Some(methods) = &told.methods {
        all.push(method_words(alloc, methods)?)?;
    }
    for words in &told.said {
        all.push(Vec::from_slice(alloc, words)?)?;
    }
    Ok(all)
}

/// The token at a fault, and the one before it. Returns `Err` only if memory runs out.
fn found_words(alloc: Global, file: &[u8], told: &Explanation) -> Result<Vec<u8>, AllocError>
    ensures { IfOk result (λ words. words.items ≡ found_words file.now told.now) }
{
    let here = part(file, told.here.start, told.here.end);
    let before = part(file, told.before.start, told.before.end);
    let mut words = Vec::from_slice(alloc, b"found ")?;
    words.extend_from_slice(&lexeme_text(alloc, b"the end of the file", here)?)?;
    words.extend_from_slice(b", after ")?;
    words.extend_from_slice(&lexeme_text(alloc, b"nothing", before)?)?;
    Ok(words)
}

/// A lexeme between backquotes, or these words where there is none. Returns `Err` only if memory runs out.
fn lexeme_text(alloc: Global, none: &[u8], lexeme: &[u8]) -> Result<Vec<u8>, AllocError>
    ensures { IfOk result (λ text. text.items ≡ lexeme_text none.now lexeme.now) }
{
    if lexeme.is_empty() {
        Vec::from_slice(alloc, none)
    } else {
        quoted(alloc, lexeme)
    }
}

/// Two types that do not fit. Returns `Err` only if memory runs out.
fn type_words(alloc: Global, fault: &Fault, types: &Types) -> Result<Vec<u8>, AllocError>
    ensures { IfOk result (λ words. words.items ≡ type_words fault.now types.now) }
{
    if are_compared(fault) {
        compared_words(alloc, types)
    } else {
        expected_words(alloc, types)
    }
}

/// Two types that cannot be compared. Returns `Err` only if memory runs out.
fn compared_words(alloc: Global, types: &Types) -> Result<Vec<u8>, AllocError>
    ensures { IfOk result (λ words. words.items ≡ types.now.due.items ++ (codes " is compared with " ++ types.now.found.items)) }
{
    let mut words = Vec::from_slice(alloc, &types.due)?;
    words.extend_from_slice(b" is compared with ")?;
    words.extend_from_slice(&types.found)?;
    Ok(words)
}

/// The type that is due, and the one that is found. Returns `Err` only if memory runs out.
fn expected_words(alloc: Global, types: &Types) -> Result<Vec<u8>, AllocError>
    ensures { IfOk result (λ words. words.items ≡ codes "expected " ++ (types.now.due.items ++ (codes ", found " ++ types.now.found.items))) }
{
    let mut words = Vec::from_slice(alloc, b"expected ")?;
    words.extend_from_slice(&types.due)?;
    words.extend_from_slice(b", found ")?;
    words.extend_from_slice(&types.found)?;
    Ok(words)
}

/// Whether the types of a fault are those of the two sides of `=`.
fn are_compared(fault: &Fault) -> bool
    ensures { result ≡ are_compared fault.now }
{
    match fault {
        Fault::Typing(fault) => fault.kind == TypeKind::E15,
        _ => false,
    }
}

/// The methods of a class. Returns `Err` only if memory runs out.
fn method_words(alloc: Global, methods: &Methods) -> Result<Vec<u8>, AllocError>
    ensures { IfOk result (λ words. words.items ≡ method_words methods.now) }
{
    let mut words = Vec::from_slice(alloc, b"class ")?;
    words.extend_from_slice(&methods.class)?;
    words.extend_from_slice(b" has")?;
    if let [first, rest @ ..] = methods.all.as_slice() {
        words.extend_from_slice(b" ")?;
        words.extend_from_slice(first)?;
        words.extend_from_slice(&further(alloc, rest)?)?;
    }
    Ok(words)
}

/// Methods, each behind a comma. Returns `Err` only if memory runs out.
fn further(alloc: Global, methods: &[Vec<u8>]) -> Result<Vec<u8>, AllocError>
    ensures { IfOk result (λ words. words.items ≡ further (bytes_of methods.now)) }
{
    let mut words = Vec::new(alloc);
    for method in methods {
        words.extend_from_slice(b", ")?;
        words.extend_from_slice(method)?;
    }
    Ok(words)
}
