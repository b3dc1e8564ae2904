//! The names of labels: the test whether bytes are a valid name.

ghost use Rattle.std.specs.Prelude.{◌≡◌};
ghost use Rattle.mips_text.specs.Names.{is_name};

use crate::letters::{begins_name, continues_name};

/// Whether a word is a name: a letter, `_` or `.`, and then these and digits.
pub fn is_name(word: &[u8]) -> bool
    ensures { result ≡ is_name word.now }
{
    match word {
        [first, rest @ ..] => {
            begins_name(*first) && rest.iter().all(|byte| continues_name(*byte))
        }
        [] => false,
    }
}
