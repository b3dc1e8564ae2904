//! The theorem that a disassembled machine word, assembled again, gives the same word.

ghost use Rattle.std.specs.Prelude.{◌≡◌, ◌<◌, ◌∷◌, [], ℕ, ◌^◌, Some, None};
ghost use Rattle.mips_isa.specs.Lines.{Line};
ghost use Rattle.mips_isa.specs.Assembly.{fault_of, image_of};
ghost use Rattle.spim_debug.specs.Disassembly.{disassembled, start_line};

/// After a line `__start:`, the line of a word's instruction has no fault, and assembles to an image whose one word of text is that
/// word.
pub fn law_disassembly()
    ensures fault { (word : ℕ) (line : Line) → word < 2 ^ 32 → disassembled word ≡ Some line → fault_of (start_line ∷ line ∷ []) ≡ None }
    ensures text { (word : ℕ) (line : Line) → word < 2 ^ 32 → disassembled word ≡ Some line → (image_of (start_line ∷ line ∷ [])).text ≡ word ∷ [] }
{}
