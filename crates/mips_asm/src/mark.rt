//! Marks: the preliminary positions of labels in the first pass, an address in text or the index of a data item, whose address is not yet known.

ghost use Rattle.std.specs.Prelude.{◌≡◌, ◌≤◌};
ghost use Rattle.mips_asm.specs.Passes.{mark_in, marks_text};

use crate::position::Position;
use mips_isa::{MOST_TEXT_WORDS, Segment, TEXT_START};

/// The position of a label: an address of the text, or an item of data.
#[derive(Clone, Copy)]
pub enum Mark {
    /// At an address of the text.
    InText(u32),
    /// Before the item of data that comes after so many others, or at the end of the data.
    BeforeItem(usize),
}

/// The mark of a label at a position, after so many items of data.
pub fn mark_at(position: Position, items: usize) -> Mark
    requires words { position.words ≤ MOST_TEXT_WORDS }
    ensures { result ≡ mark_in position.segment position.words items }
{
    match position.segment {
        Segment::Text => Mark::InText(TEXT_START + 4 * position.words),
        Segment::Data => Mark::BeforeItem(items),
    }
}

/// Whether a label, if there is one, stands in text.
pub fn is_in_text(mark: Option<Mark>) -> bool
    ensures { result ≡ marks_text mark }
{
    matches!(mark, Some(Mark::InText(_)))
}
