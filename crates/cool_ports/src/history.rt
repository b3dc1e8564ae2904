//! `History` records, for contracts only, the bytes that a source (input stream) gave and how often it answered that nothing is left.

ghost use Rattle.std.specs.Prelude.{◌≡◌};
ghost use Rattle.std.specs.Borrow.{ftrue};
ghost use Rattle.cool_ports.specs.Answers.{Past, nothing_yet, after_answer};

use std::marker::Model;

/// The bytes that a source gave, and how often it answered that nothing is left. It has no bytes of its own, and its
/// functions do nothing when they run.
#[derive(Drop)]
pub struct History {
    pub ghost past: { Past },
}

impl Model for History {
    ghost also_owns = { λ _. ftrue };
}

impl History {
    /// Nothing was answered.
    pub(crate) fn new() -> History
        ensures { result.past ≡ nothing_yet }
    {
        History {}
    }

    /// With one more answer.
    pub(crate) fn with(&self, _answer: &Answer) -> History
        ensures { result.past ≡ after_answer self.now.past _answer.now.first }
    {
        History {}
    }
}

/// An answer of a source: a byte, or that nothing is left.
#[derive(Clone, Copy)]
pub(crate) struct Answer {
    pub first: Option<u8>,
}
