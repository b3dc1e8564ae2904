//! Theorems about marks (records of the occurrences of names): they are at the identifiers of the text, and the types that they record are those of the typing
//! rules.

ghost use Rattle.std.specs.Prelude.{List};
ghost use Rattle.cool_classes.specs.Chains.{Class};
ghost use Rattle.cool_classes.specs.LawfulTables.{IsLawful};
ghost use Rattle.cool_classes.specs.Tables.{IsWholeTable};
ghost use Rattle.cool_rules.specs.TypedTables.{IsTypedTable};
ghost use Rattle.cool_names.specs.Laws.{IsDeclaredRightly, IsSeenRightly};
ghost use Rattle.cool_names.specs.ProgramUses.{AreProgramUsesTold, IsTypedProgram};
ghost use Rattle.cool_names.specs.Uses.{AreUsesTold};
ghost use Rattle.cool_names.specs.WrittenNames.{AreFileNames, AreProgramNames};

/// A mark stands at each name of a text and at nothing else, in the order of the text: so it is of each file, and of the files of a program.
pub fn law_marks_are_names()
    ensures file { AreFileNames }
    ensures program { AreProgramNames }
{}

/// If the rules give an expression a type, the one at first sight is the same, or none is seen.
pub fn law_seen_type()
    ensures { (p : List Class) → IsWholeTable p → IsSeenRightly p }
{}

/// If the rules give a variable a type, its mark declares a name of that type.
pub fn law_declared_type()
    ensures { (p : List Class) → IsDeclaredRightly p }
{}

/// The marks of a typed feature tell each use of a variable with the type that the rules give it and the place of its definition, which is the latest one in
/// scope; and of each call, where its receiver is seen, the method that they find. So a renaming at the marks of one definition changes the uses of that
/// variable, and no others.
pub fn law_uses_told()
    ensures { (p : List Class) → IsWholeTable p → IsLawful p → AreUsesTold p }
{}

/// So the marks of a program tell the uses of all its typed features; and of a program that the rules accept, all features are typed.
pub fn law_program_uses_told()
    ensures told { (p : List Class) → IsWholeTable p → IsLawful p → AreProgramUsesTold p }
    ensures typed { (p : List Class) → IsTypedTable p → IsTypedProgram p }
{}
