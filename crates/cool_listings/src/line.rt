//! `lines` writes a line for each mark (an occurrence of a name in the source, with the definition that it refers to).

ghost use Rattle.std.specs.Prelude.{◌≡◌, IfOk, map};
ghost use Rattle.std.specs.List.{concat};
ghost use Rattle.cool_listings.specs.Lines.{mark_line, role_word, target_text};

use cool_emit::place_text;
use cool_names::{Mark, Role, Target};
use std::alloc::{AllocError, Global};

/// The number of bytes that most lines have.
const USUAL_BYTES: usize = 64;

/// The lines of marks. Returns `Err` only if memory runs out.
pub fn lines(alloc: Global, marks: &[Mark]) -> Result<Vec<u8>, AllocError>
    ensures { IfOk result (λ text. text.items ≡ concat (map mark_line marks.now)) }
{
    let mut text = Vec::new(alloc);
    for mark in marks {
        text.extend_from_slice(&mark_line(alloc, mark)?)?;
    }
    Ok(text)
}

/// The line of a mark. Returns `Err` only if memory runs out.
fn mark_line(alloc: Global, mark: &Mark) -> Result<Vec<u8>, AllocError>
    ensures { IfOk result (λ line. line.items ≡ mark_line mark.now) }
{
    let mut line = Vec::with_capacity(alloc, USUAL_BYTES)?;
    line.extend_from_slice(&place_text(alloc, mark.at)?)?;
    line.extend_from_slice(b" ")?;
    line.extend_from_slice(role_word(mark.role))?;
    line.extend_from_slice(b" ")?;
    line.extend_from_slice(mark.name.as_slice())?;
    line.extend_from_slice(b" ")?;
    line.extend_from_slice(mark.meaning.declared.as_slice())?;
    line.extend_from_slice(b" ")?;
    line.extend_from_slice(&target_text(alloc, mark.meaning.target)?)?;
    line.extend_from_slice(b"\n")?;
    Ok(line)
}

/// The place where a name is defined. Returns `Err` only if memory runs out.
fn target_text(alloc: Global, target: Target) -> Result<Vec<u8>, AllocError>
    ensures { IfOk result (λ text. text.items ≡ target_text target) }
{
    match target {
        Target::Unknown => Vec::from_slice(alloc, b"?"),
        Target::Given => Vec::from_slice(alloc, b"-"),
        Target::At(at) => place_text(alloc, at),
    }
}

fn role_word(role: Role) -> &'static [u8]
    ensures { result.now ≡ role_word role }
{
    match role {
        Role::Class => b"class",
        Role::Type => b"type",
        Role::Attribute => b"attribute",
        Role::Method => b"method",
        Role::Formal => b"formal",
        Role::Let => b"let",
        Role::Case => b"case",
        Role::Variable => b"variable",
        Role::Assigned => b"assigned",
        Role::Call => b"call",
    }
}
