//! The labels of a line of assembly, stored without allocation if there is at most one.

ghost use Rattle.std.specs.Prelude.{◌≡◌, ◌++◌, ◌∷◌, [], IfOk};
ghost use Rattle.mips_isa.specs.Listings.{listed};

use crate::Label;
use std::alloc::{AllocError, Global};
use std::marker::Model;
use std::slice;

/// The labels of a line, in 24 bytes: none and one stand in them, and more in a box. A contract sees the list of the names.
#[derive(Drop)]
pub struct LineLabels {
    labels: Listing,
}

#[derive(Drop)]
enum Listing {
    Nothing,
    One(Label),
    Many(Box<Vec<Label>>),
}

impl Model for LineLabels {
    ghost use Rattle.std.specs.Prelude.{ℕ, List};

    ghost Value = { List (List ℕ) };

    ghost use Rattle.mips_isa.specs.Listings.{listed};

    ghost view = { λ list. listed list.labels };
}

impl LineLabels {
    /// No label.
    pub fn none() -> Self
        ensures { result ≡ [] }
    {
        LineLabels {
            labels: Listing::Nothing,
        }
    }

    /// One label.
    pub fn one(label: Label) -> Self
        ensures { result ≡ label ∷ [] }
    {
        LineLabels {
            labels: Listing::One(label),
        }
    }

    /// These labels, and one more behind them. Returns `Err` only if memory runs out.
    pub fn with(self, alloc: Global, label: Label) -> Result<Self, AllocError>
        ensures { IfOk result (λ labels. labels ≡ self ++ label ∷ []) }
    {
        let labels = match self.labels {
            Listing::Nothing => Listing::One(label),
            Listing::One(first) => {
                Listing::Many(Box::new(alloc, vec![in alloc; first, label]?)?)
            }
            Listing::Many(mut labels) => {
                labels.push(label)?;
                Listing::Many(labels)
            }
        };
        Ok(LineLabels { labels })
    }

    /// The labels, in their order.
    pub fn as_slice(&self) -> &[Label]
        ensures { result.now ≡ self.now }
    {
        match &self.labels {
            Listing::Nothing => &[],
            Listing::One(label) => slice::from_ref(label),
            Listing::Many(labels) => labels.as_slice(),
        }
    }
}
