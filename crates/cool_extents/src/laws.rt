//! The theorem on extents says that the first and the last token computed for each subexpression are those that the definition gives it.

ghost use Rattle.std.specs.Prelude.{◌≡◌, ℕ, List};
ghost use Rattle.cool_syntax.specs.declared.token.Token.{Token};
ghost use Rattle.cool_syntax.specs.TokenFacts.{AreRising};
ghost use Rattle.cool_extents.specs.Extents.{TellsExtents};
ghost use Rattle.cool_extents.specs.FoundExtents.{found_extents};

/// The extents that are found are those of the expressions of the tokens, if these stand in rising places.
pub fn law_extents_found()
    ensures { (file : ℕ) (tokens : List Token) → AreRising file 0 tokens → TellsExtents tokens (found_extents tokens) }
{}
