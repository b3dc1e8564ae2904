//! The address of the machine word that a label or an address in a debugger script names.

ghost use Rattle.std.specs.Prelude.{◌≡◌, ◌||◌};
ghost use Rattle.std.specs.Option.{is_some};
ghost use Rattle.mips_text.specs.Names.{is_name};
ghost use Rattle.spim_debug.specs.Scripts.{address_in};
ghost use Rattle.spim_debug.specs.ScriptLines.{place_by};

use crate::script_words::read_address;
use mips_asm::TextLabels;
use mips_text::is_name;

/// The address of the word that a label of the text or an address names. `None` if it names none.
pub(crate) fn place(labels: &TextLabels, word: &[u8]) -> Option<u32>
    ensures { result ≡ place_by labels.now word.now }
{
    if is_name(word) {
        return labels.address(word);
    }
    let address = read_address(word)?;
    labels.has_word(address).then_some(address)
}

/// Whether a word may name a place: it is a name or an address.
pub(crate) fn is_place(word: &[u8]) -> bool
    ensures { result ≡ (is_name word.now || is_some (address_in word.now)) }
{
    is_name(word) || read_address(word).is_some()
}
