//! `form_text` writes a syntax-tree node as text: its kind of expression, its names and the numbers of its parts.

ghost use Rattle.std.specs.Prelude.{◌≡◌, ◌++◌, IfOk, codes, flat_map};
ghost use Rattle.cool_listings.specs.TokenLines.{string_text};
ghost use Rattle.cool_listings.specs.NodeTexts.{branch_text, form_text, head_line, maybe_text, part_text, parts_text};

use crate::tokens::string_text;
use cool_emit::{arith_word, compare_word, place_text};
use cool_syntax::{Name, Node, NodeBranch, NodeId, Place, TypeRef};
use std::alloc::{AllocError, Global};

/// The form of a node, with its names and the numbers of its parts. Returns `Err` only if memory runs out.
pub(crate) fn form_text(alloc: Global, node: &Node) -> Result<Vec<u8>, AllocError>
    ensures { IfOk result (λ text. text.items ≡ form_text node.now) }
{
    match node {
        Node::Assign { name, value, .. } => named_text(alloc, b"assign ", name, &[*value]),
        Node::Dispatch {
            receiver,
            name,
            args,
            ..
        } => call_text(alloc, b"call ", name, *receiver, args.as_slice()),
        Node::StaticDispatch {
            receiver,
            class,
            name,
            args,
            ..
        } => static_text(alloc, class, name, *receiver, args.as_slice()),
        Node::If { test, yes, no, .. } => of_parts(alloc, b"if", &[*test, *yes, *no]),
        Node::While { test, body, .. } => of_parts(alloc, b"while", &[*test, *body]),
        Node::Block { items, .. } => of_parts(alloc, b"block", items.as_slice()),
        Node::Let {
            name,
            declared,
            init,
            body,
            ..
        } => let_text(alloc, name, declared, *init, *body),
        Node::Case {
            value,
            branches,
            ..
        } => case_text(alloc, *value, branches.as_slice()),
        Node::New { class, .. } => named_text(alloc, b"new ", &class.name, &[]),
        Node::IsVoid { value, .. } => of_parts(alloc, b"isvoid", &[*value]),
        Node::Arith {
            op,
            left,
            right,
            ..
        } => of_parts(alloc, arith_word(*op), &[*left, *right]),
        Node::Neg { value, .. } => of_parts(alloc, b"~", &[*value]),
        Node::Compare {
            op,
            left,
            right,
            ..
        } => of_parts(alloc, compare_word(*op), &[*left, *right]),
        Node::Not { value, .. } => of_parts(alloc, b"not", &[*value]),
        Node::Id { name, .. } => named_text(alloc, b"name ", name, &[]),
        Node::Int { value, .. } => Ok(format!(in alloc; "integer {value}")?.into_bytes()),
        Node::Str { bytes, .. } => constant_text(alloc, bytes.as_slice()),
        Node::Bool { value: true, .. } => Vec::from_slice(alloc, b"bool true"),
        Node::Bool { value: false, .. } => Vec::from_slice(alloc, b"bool false"),
    }
}

/// A word, and the numbers of parts. Returns `Err` only if memory runs out.
fn of_parts(alloc: Global, word: &[u8], parts: &[NodeId]) -> Result<Vec<u8>, AllocError>
    ensures { IfOk result (λ text. text.items ≡ word.now ++ parts_text parts.now) }
{
    let mut text = Vec::from_slice(alloc, word)?;
    for part in parts {
        text.extend_from_slice(&part_text(alloc, *part)?)?;
    }
    Ok(text)
}

/// Words, a name, and the numbers of parts. Returns `Err` only if memory runs out.
fn named_text(
    alloc: Global,
    words: &[u8],
    name: &Name,
    parts: &[NodeId],
) -> Result<Vec<u8>, AllocError>
    ensures { IfOk result (λ text. text.items ≡ words.now ++ (name.now ++ parts_text parts.now)) }
{
    let mut text = Vec::from_slice(alloc, words)?;
    text.extend_from_slice(&of_parts(alloc, name.as_slice(), parts)?)?;
    Ok(text)
}

/// Words, a name, a receiver, and arguments. Returns `Err` only if memory runs out.
fn call_text(
    alloc: Global,
    words: &[u8],
    name: &Name,
    receiver: NodeId,
    args: &[NodeId],
) -> Result<Vec<u8>, AllocError>
    ensures { IfOk result (λ text. text.items ≡ words.now ++ (name.now ++ (part_text receiver ++ parts_text args.now))) }
{
    let mut text = named_text(alloc, words, name, &[])?;
    text.extend_from_slice(&part_text(alloc, receiver)?)?;
    text.extend_from_slice(&of_parts(alloc, b"", args)?)?;
    Ok(text)
}

/// A call of the method of a class. Returns `Err` only if memory runs out.
fn static_text(
    alloc: Global,
    class: &TypeRef,
    name: &Name,
    receiver: NodeId,
    args: &[NodeId],
) -> Result<Vec<u8>, AllocError>
    ensures { IfOk result (λ text. text.items ≡ codes "static " ++ (class.now.name ++ (codes " " ++ (name.now ++ (part_text receiver ++ parts_text args.now))))) }
{
    let mut text = named_text(alloc, b"static ", &class.name, &[])?;
    text.extend_from_slice(&call_text(alloc, b" ", name, receiver, args)?)?;
    Ok(text)
}

/// A `let`. Returns `Err` only if memory runs out.
fn let_text(
    alloc: Global,
    name: &Name,
    declared: &TypeRef,
    init: Option<NodeId>,
    body: NodeId,
) -> Result<Vec<u8>, AllocError>
    ensures { IfOk result (λ text. text.items ≡ codes "let " ++ (name.now ++ (codes " " ++ (declared.now.name ++ (maybe_text init ++ part_text body))))) }
{
    let mut text = named_text(alloc, b"let ", name, &[])?;
    text.extend_from_slice(&named_text(alloc, b" ", &declared.name, &[])?)?;
    text.extend_from_slice(&maybe_text(alloc, init)?)?;
    text.extend_from_slice(&part_text(alloc, body)?)?;
    Ok(text)
}

/// A `case`. Returns `Err` only if memory runs out.
fn case_text(alloc: Global, value: NodeId, branches: &[NodeBranch]) -> Result<Vec<u8>, AllocError>
    ensures { IfOk result (λ text. text.items ≡ codes "case" ++ (part_text value ++ flat_map branch_text branches.now)) }
{
    let mut text = of_parts(alloc, b"case", &[value])?;
    text.extend_from_slice(&branches_text(alloc, branches)?)?;
    Ok(text)
}

/// Branches. Returns `Err` only if memory runs out.
fn branches_text(alloc: Global, branches: &[NodeBranch]) -> Result<Vec<u8>, AllocError>
    ensures { IfOk result (λ text. text.items ≡ flat_map branch_text branches.now) }
{
    let mut text = Vec::new(alloc);
    for branch in branches {
        text.extend_from_slice(&branch_text(alloc, branch)?)?;
    }
    Ok(text)
}

/// A branch. Returns `Err` only if memory runs out.
fn branch_text(alloc: Global, branch: &NodeBranch) -> Result<Vec<u8>, AllocError>
    ensures { IfOk result (λ text. text.items ≡ branch_text branch.now) }
{
    let mut text = Vec::from_slice(alloc, b" ")?;
    text.extend_from_slice(&place_text(alloc, branch.at)?)?;
    text.extend_from_slice(&named_text(alloc, b" ", &branch.name, &[])?)?;
    text.extend_from_slice(&named_text(alloc, b" ", &branch.declared.name, &[branch.body])?)?;
    Ok(text)
}

/// A string constant. Returns `Err` only if memory runs out.
fn constant_text(alloc: Global, bytes: &[u8]) -> Result<Vec<u8>, AllocError>
    ensures { IfOk result (λ text. text.items ≡ codes "string " ++ string_text bytes.now) }
{
    let mut text = Vec::from_slice(alloc, b"string ")?;
    text.extend_from_slice(&string_text(alloc, bytes)?)?;
    Ok(text)
}

/// A part that may be missing. Returns `Err` only if memory runs out.
fn maybe_text(alloc: Global, part: Option<NodeId>) -> Result<Vec<u8>, AllocError>
    ensures { IfOk result (λ text. text.items ≡ maybe_text part) }
{
    match part {
        Some(part) => part_text(alloc, part),
        None => Vec::from_slice(alloc, b" -"),
    }
}

/// The number of a part. Returns `Err` only if memory runs out.
pub(crate) fn part_text(alloc: Global, part: NodeId) -> Result<Vec<u8>, AllocError>
    ensures { IfOk result (λ text. text.items ≡ part_text part) }
{
    let number = part.0;
    Ok(format!(in alloc; " {number}")?.into_bytes())
}

/// A line of what the word says: its place, its name and a type. Returns `Err` only if memory runs out.
pub(crate) fn head_line(
    alloc: Global,
    word: &[u8],
    at: Place,
    name: &[u8],
    declared: &[u8],
) -> Result<Vec<u8>, AllocError>
    ensures { IfOk result (λ line. line.items ≡ head_line word.now at name.now declared.now) }
{
    let mut line = Vec::from_slice(alloc, word)?;
    line.extend_from_slice(b" ")?;
    line.extend_from_slice(&place_text(alloc, at)?)?;
    line.extend_from_slice(b" ")?;
    line.extend_from_slice(name)?;
    line.extend_from_slice(b" ")?;
    line.extend_from_slice(declared)?;
    line.extend_from_slice(b"\n")?;
    Ok(line)
}
