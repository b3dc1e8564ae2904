//! Theorems on the lexical structure: each file has one list of tokens or one first lexical error, and never both.

ghost use Rattle.std.specs.Prelude.{◌≡◌, ℕ, List};
ghost use Rattle.cool_syntax.specs.declared.place.Place.{Place};
ghost use Rattle.cool_syntax.specs.declared.token.Token.{Token};
ghost use Rattle.cool_syntax.specs.declared.lexical.LexKind.{LexKind};
ghost use Rattle.cool_syntax.specs.LexicalStructure.{Lexes, LexFault};
ghost use Rattle.cool_lexer.specs.Laws.{HasReading};

/// A file has one list of tokens at most.
pub fn law_one_cutting()
    ensures { (file : ℕ) (bytes : List ℕ) (first second : List Token) → Lexes file bytes first → Lexes file bytes second → first ≡ second }
{}

/// A file has one first fault at most, at one place.
pub fn law_one_first_fault()
    ensures { (file : ℕ) (bytes : List ℕ) (k l : LexKind) (p q : Place) → LexFault file bytes k p → LexFault file bytes l q → (k ≡ l) × (p ≡ q) }
{}

/// No file has both tokens and a first fault.
pub fn law_never_both()
    ensures { (file : ℕ) (bytes : List ℕ) (tokens : List Token) (k : LexKind) (p : Place) → Lexes file bytes tokens → LexFault file bytes k p → ⊥ }
{}

/// Each file has tokens or a first fault.
pub fn law_always_one()
    ensures { (file : ℕ) (bytes : List ℕ) → HasReading file bytes }
{}
