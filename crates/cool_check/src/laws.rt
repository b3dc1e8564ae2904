//! Theorems about type checking: it finds no fault (type error) exactly if the typing rules accept the class table or the feature. Each fault names the rule
//! that fails, and the rules give an expression at most one type.

ghost use Rattle.std.specs.Prelude.{List};
ghost use Rattle.cool_classes.specs.Chains.{Class};
ghost use Rattle.cool_classes.specs.LawfulTables.{IsLawful};
ghost use Rattle.cool_classes.specs.Tables.{IsWholeTable};
ghost use Rattle.cool_check.specs.Laws.{HasOneType, IsCheckedWhereTyped, IsFaultlessWhereTyped, NameFailingRules};

/// A table is typed by the rules exactly where it has no typing fault.
pub fn law_faultless()
    ensures { (p : List Class) → IsWholeTable p → IsLawful p → IsFaultlessWhereTyped p }
{}

/// A feature is checked without a fault exactly where the rules type it.
pub fn law_typed_exactly()
    ensures { (p : List Class) → IsWholeTable p → IsLawful p → IsCheckedWhereTyped p }
{}

/// A fault names the rule that fails: the one of an expression that has no type, although each part that is checked before the failing premise has one.
pub fn law_failing_rule()
    ensures { (p : List Class) → IsWholeTable p → IsLawful p → NameFailingRules p }
{}

/// The rules give an expression one type at most. So it is in each whole table, lawful or not.
pub fn law_one_type()
    ensures { (p : List Class) → IsWholeTable p → HasOneType p }
{}
