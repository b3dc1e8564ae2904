//! Theorems about typing: the static type that a function computes for an expression is the one that the typing rules give, and so is each stored type of a
//! node.

ghost use Rattle.std.specs.Prelude.{List};
ghost use Rattle.cool_classes.specs.Chains.{Class};
ghost use Rattle.cool_classes.specs.Tables.{IsWholeTable};
ghost use Rattle.cool_rules.specs.NodeScopes.{AreTypedColumns};
ghost use Rattle.cool_rules.specs.StaticTypes.{IsTypeWhereTyped};
ghost use Rattle.cool_rules.specs.TypedTables.{IsTypedTable};

/// If the rules give an expression a type, it is its static type. So it is in each whole table, typed or not.
pub fn law_static_type()
    ensures { (p : List Class) → IsWholeTable p → IsTypeWhereTyped p }
{}

/// In a typed program, each type that is kept for a node of a feature's expression is the one that the rules give the expression of that
/// node, with the names that are in scope there.
pub fn law_node_types()
    ensures { (p : List Class) → IsTypedTable p → AreTypedColumns p }
{}
