//! `cure_of` gives general advice on how to fix a compile-time error, if its explanation has nothing more specific.

ghost use Rattle.std.specs.Prelude.{◌≡◌, option_map};
ghost use Rattle.cool_explanations.specs.Cures.{class_cure, cure_of, cure_words, lex_cure, type_cure};

use cool_check::TypeKind;
use cool_classes::ClassKind;
use cool_faults::Fault;
use cool_mend::Explanation;
use cool_syntax::LexKind;

/// The general advice on a fault, if its explanation has no further words and no fix.
pub(crate) fn cure_of(told: &Explanation) -> Option<&'static str>
    ensures { option_map (λ words. words.now) result ≡ cure_of told.now.fault told.now.said.items told.now.mends.items }
{
    match told.mends.as_slice() {
        [_, ..] => None,
        [] => match told.said.as_slice() {
            [] => Some(cure_words(&told.fault)),
            [_, ..] => None,
        },
    }
}

/// The general advice on a fault.
fn cure_words(fault: &Fault) -> &'static str
    ensures { result.now ≡ cure_words fault.now }
{
    match fault {
        Fault::Lex(fault) => lex_cure(fault.kind),
        Fault::Syntax(_) =>
            "look for a missing `;`, `fi`, `pool` or `esac` before it; minus is `~`, and `--` begins a comment",
        Fault::Class(fault) => class_cure(fault.kind),
        Fault::Typing(fault) => type_cure(fault.kind),
    }
}

fn lex_cure(kind: LexKind) -> &'static str
    ensures { result.now ≡ lex_cure kind }
{
    match kind {
        LexKind::L1 =>
            "Cool has no `>`, `!`, `%`, `'` or `[`; if it is the first character of the file, save without a byte order mark",
        LexKind::L2 =>
            "close it on this line; to continue on the next line, end the line with `\\`, as its last byte (no CR)",
        LexKind::L3 => "remove the byte 0, and check that the file is a text",
        LexKind::L4 => "join shorter strings with `concat`",
        LexKind::L5 => "write a `*)` for each `(*`: comments nest",
        LexKind::L6 => "remove the `*)`, or look for its `(*` in a line comment or a string",
        LexKind::L7 => "the greatest Int is `2147483647`; write the least one as `~2147483647 - 1`",
        LexKind::L8 => "split the method into several methods",
    }
}

fn class_cure(kind: ClassKind) -> &'static str
    ensures { result.now ≡ class_cure kind }
{
    match kind {
        ClassKind::C1 =>
            "rename one of the classes; Object, IO, Int, Bool and String are always defined",
        ClassKind::C2 => "write the name of a class",
        ClassKind::C3 =>
            "add its file to the call, or correct the name: upper and lower case differ",
        ClassKind::C4 => "declare an attribute of that type instead of inheriting from it",
        ClassKind::C5 => "let one of the classes inherit from Object",
        ClassKind::C6 => "add the file that defines class Main to the call",
        ClassKind::C7 => "split the program into several programs",
        ClassKind::F1 => "rename one of the methods: Cool has no overloading",
        ClassKind::F2 => "rename it, or use the inherited attribute",
        ClassKind::F3 => "choose another name: `self` always names the current object",
        ClassKind::F4 => "rename one of the formals",
        ClassKind::F5 => "write the name of a class",
        ClassKind::F6 => "add its file to the call, or correct the name",
        ClassKind::F7 =>
            "declare the same types of formals and the same result type as the class above",
        ClassKind::F8 => "define `main()` without formals in class Main itself",
        ClassKind::F9 => "split the class into several classes",
    }
}

fn type_cure(kind: TypeKind) -> &'static str
    ensures { result.now ≡ type_cure kind }
{
    match kind {
        TypeKind::E1 =>
            "declare it, or correct its spelling; the initial value of a `let` cannot use the variable of that `let`",
        TypeKind::E2 => "assign to a variable: `self` never changes",
        TypeKind::E3 => "assign a value of the variable's class, or of a class below it",
        TypeKind::E4 =>
            "call a method of the class that the receiver is declared with; for `out_string`, write `inherits IO`",
        TypeKind::E5 => "pass one argument for each formal",
        TypeKind::E6 => "pass a value of the formal's class, or of a class below it",
        TypeKind::E7 => "write the name of a class after `@`",
        TypeKind::E8 => "write the receiver's class, or a class above it, after `@`",
        TypeKind::E9 => "write a condition of type Bool, for example `not x = 0`",
        TypeKind::E10 => "choose another name",
        TypeKind::E11 => "add its file to the call, or correct the name",
        TypeKind::E12 => "write the name of a class",
        TypeKind::E13 => "keep one branch for each class",
        TypeKind::E14 => "use `+` and `<` only with numbers; for strings, use `concat` and `=`",
        TypeKind::E15 => "compare Int, Bool and String only with values of their own type",
        TypeKind::E16 => "compare first, for example `not x = 0`",
        TypeKind::E17 => "give a value of the declared class, or of a class below it",
        TypeKind::E18 =>
            "return a value of the result type; a block has the value of its last item, and a `while` has type Object",
    }
}
