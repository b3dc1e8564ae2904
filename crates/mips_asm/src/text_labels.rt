//! The addresses of the instructions that labels in the text segment name.

ghost use Rattle.std.specs.Prelude.{◌≡◌, ◌-◌, ◌^◌, ◌<◌, nat_lt, List, ℕ, Some, None, length, bytes_eq, if◌then◌else◌, IfOk};
ghost use Rattle.mips_isa.specs.Lines.{lines_of, AreInRange};
ghost use Rattle.mips_isa.specs.Assembly.{fault_of, place_of, start_name};
ghost use Rattle.mips_asm.specs.TextLabels.{text_label, text_end, has_word, address_of, address_or_start};

use crate::completing::{ADDED_WORDS, lacks_start, segment_of};
use crate::labels::Labels;
use crate::text_words::{words_before, words_in};
use mips_isa::{AsmError, Line, Segment, TEXT_START};
use std::alloc::{AllocError, Global};
use std::marker::Model;

/// The address of the word that a name is the label of, in lines that have an image. Returns `None` if the name is no label, or the label of data or of
/// the text's end.
///
/// The labels of the lines with which `assemble` completes a program count, too. It takes no memory, and goes over the lines for
/// each call; `TextLabels` has the labels of many names.
pub fn text_label(lines: &[Line], name: &[u8]) -> Option<u32>
    requires image { fault_of (lines_of lines.now) ≡ None }
    ensures { result ≡ text_label (lines_of lines.now) name.now }
{
    let text = TextEnd::find(lines);
    match segment_of(lines, name) {
        Some(Segment::Text) => text.label(TEXT_START + 4 * words_before(lines, name)),
        Some(Segment::Data) => None,
        None => text.added_label(name),
    }
}

/// The end of the text of lines.
#[derive(Clone, Copy)]
struct TextEnd {
    /// The address of the `__start` that completes the lines, if one does.
    start: Option<u32>,
    /// The address after the text.
    end: u32,
}

impl TextEnd {
    /// The end of the text of lines that have an image.
    fn find(lines: &[Line]) -> TextEnd
        requires image { fault_of (lines_of lines.now) ≡ None }
        ensures labels { (name : List ℕ) → address_or_start result.start result.end name (place_of (lines_of lines.now) name) ≡ text_label (lines_of lines.now) name }
        ensures end { result.end ≡ text_end (lines_of lines.now) }
    {
        let end = TEXT_START + 4 * words_in(lines);
        if lacks_start(lines) {
            TextEnd {
                start: Some(end),
                end: end + 4 * ADDED_WORDS,
            }
        } else {
            TextEnd { start: None, end }
        }
    }

    /// The address of the label that completes the lines, if this is its name.
    fn added_label(&self, name: &[u8]) -> Option<u32>
        ensures { result ≡ (if bytes_eq name.now start_name then self.now.start else None) }
    {
        if name == b"__start".as_slice() {
            self.start
        } else {
            None
        }
    }

    /// An address of the text, unless it is that of the end.
    fn label(&self, address: u32) -> Option<u32>
        ensures { result ≡ (if nat_lt address self.now.end then Some address else None) }
    {
        (address < self.end).then_some(address)
    }
}

/// The labels of words of the text of lines, and the end of that text. A contract sees the address of each name.
#[derive(Drop)]
pub struct TextLabels {
    labels: Labels,
    text: TextEnd,
}

impl Model for TextLabels {
    ghost use Rattle.mips_asm.specs.TextLabels.{TextLabelParts};

    ghost Value = { TextLabelParts };

    ghost view = { λ t. record { labels = t.labels; start = t.text.start; end = t.text.end } };
}

impl TextLabels {
    /// The labels of lines that have an image, to look up many names. Returns `Err` only if memory runs out.
    pub fn find(alloc: Global, lines: &[Line]) -> Result<Self, AllocError>
        requires few { length lines.now < 2 ^ 32 - 4 }
        requires ranges { AreInRange (lines_of lines.now) }
        requires image { fault_of (lines_of lines.now) ≡ None }
        ensures labels { IfOk result (λ labels. (name : List ℕ) → address_of labels name ≡ text_label (lines_of lines.now) name) }
        ensures end { IfOk result (λ labels. labels.end ≡ text_end (lines_of lines.now)) }
    {
        let text = TextEnd::find(lines);
        match Labels::find(alloc, lines) {
            Ok(labels) => Ok(TextLabels { labels, text }),
            Err(AsmError::Memory) => Err(AllocError),
            Err(AsmError::Fault(_)) => unreachable!(),
        }
    }

    /// The address of the word that a name is the label of, as `text_label` defines it.
    pub fn address(&self, name: &[u8]) -> Option<u32>
        ensures { result ≡ address_of self.now name.now }
    {
        let Some(place) = self.labels.place(name) else {
            return self.text.added_label(name);
        };
        match place.segment {
            Segment::Text => self.text.label(place.address),
            Segment::Data => None,
        }
    }

    /// Whether the text has a word at this address.
    pub fn has_word(&self, address: u32) -> bool
        ensures { result ≡ has_word self.now.end address }
    {
        TEXT_START <= address && (address - TEXT_START) % 4 == 0 && address < self.text.end
    }
}
