//! Sets of breakpoint addresses, at which a run stops.

ghost use Rattle.std.specs.Prelude.{◌≡◌, ◌<◌, ℕ, ◌^◌, Bool};
ghost use Rattle.std.specs.Option.{option_copied};
ghost use Rattle.spim_cpu.specs.Advancing.{is_marked, has_mark};

use crate::word_index;

/// A set of addresses of words of a text: a run stops before the instruction at one of them.
pub trait Breaks {
    /// The addresses in the set.
    ghost holds: { Self → ℕ → Bool };

    /// A mark for each word of the text, from the first one on: whether its address is in the set. An address without a mark is not in it, and `None` says
    /// that no address is.
    fn marks(&self) -> Option<&[bool]>
        ensures { (a : ℕ) → a < 2 ^ 32 → holds self.now a ≡ has_mark (option_copied result) a };
}

/// No address.
#[derive(Clone, Copy)]
pub struct NoBreaks;

impl Breaks for NoBreaks {
    ghost use Rattle.std.specs.Prelude.{false};

    ghost holds = { λ _ _. false };

    #[inline(always)]
    fn marks(&self) -> Option<&[bool]> {
        None
    }
}

/// Whether an address is in the set.
pub fn contains<B: Breaks>(breaks: &B, address: u32) -> bool
    ensures { result ≡ B.holds breaks.now address }
{
    breaks
        .marks()
        .is_some_and(|marks| is_marked(marks, address))
}

/// Whether the word at an address has a mark that is set.
fn is_marked(marks: &[bool], address: u32) -> bool
    ensures marked { result ≡ is_marked marks.now address }
    ensures fits { address < 2 ^ 32 }
{
    marks.get(word_index(address)).is_some_and(|mark| *mark)
}
