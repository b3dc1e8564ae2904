//! Theorems on the grammar: tokens have one tree or one first syntax error, and never both.

ghost use Rattle.std.specs.Prelude.{◌≡◌, List};
ghost use Rattle.cool_syntax.specs.declared.place.Place.{Place};
ghost use Rattle.cool_syntax.specs.declared.token.Token.{Token};
ghost use Rattle.cool_syntax.specs.declared.file_tree.ClassDef.{ClassDef};
ghost use Rattle.cool_syntax.specs.Grammar.{Parses, IsUnexpected};
ghost use Rattle.cool_parser.specs.Laws.{HasTree};

/// Tokens are one file at most: no two trees have one reading.
pub fn law_one_tree()
    ensures { (tokens : List Token) (classes others : List ClassDef) → Parses tokens classes → Parses tokens others → classes ≡ others }
{}

/// Tokens have one first fault at most.
pub fn law_one_first_fault()
    ensures { (tokens : List Token) (end at other : Place) → IsUnexpected tokens end at → IsUnexpected tokens end other → at ≡ other }
{}

/// No tokens are a file and have a first fault.
pub fn law_never_both()
    ensures { (tokens : List Token) (end at : Place) (classes : List ClassDef) → Parses tokens classes → IsUnexpected tokens end at → ⊥ }
{}

/// All tokens are a file or have a first fault.
pub fn law_always_one()
    ensures { (tokens : List Token) (end : Place) → HasTree tokens end }
{}
