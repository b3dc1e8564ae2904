//! `NoticeKind` lists the kinds of warnings about legal but likely wrong code, such as a division by the constant 0 or a value that is not used.

ghost use Rattle.std.specs.Prelude.{◌≡◌};
ghost use Rattle.cool_notices.specs.Notices.{words};

use cool_syntax::Place;

/// A kind of notice.
#[derive(Clone, Copy)]
pub enum NoticeKind {
    /// A comparison with a name to its left, whose value is not used: likely an assignment was meant. At the operator.
    Comparison,
    /// Another expression without an effect, whose value is not used. At it.
    Unused,
    /// An assignment to a name of its own value. At it.
    OwnValue,
    /// A predicate that is an assignment. At the assignment.
    AssignedTest,
    /// A comparison of a name with itself. At the operator.
    SameSides,
    /// A division by the constant 0. At the operator.
    ByZero,
}

/// A notice, and the place where it stands.
#[derive(Clone, Copy)]
pub struct Notice {
    pub kind: NoticeKind,
    pub at: Place,
}

impl NoticeKind {
    /// Its words.
    pub fn words(self) -> &'static str
        ensures { result.now ≡ words self }
    {
        match self {
            NoticeKind::Comparison => {
                "the result of this comparison is not used: write `<-` to assign"
            }
            NoticeKind::Unused => "the value of this expression is not used",
            NoticeKind::OwnValue => {
                "this assigns a variable to itself; if it hides an attribute of the same name, rename one of them"
            }
            NoticeKind::AssignedTest => "`<-` assigns a value: write `=` to compare",
            NoticeKind::SameSides => "both sides of this comparison are the same variable",
            NoticeKind::ByZero => "this divides by 0, which ends the program with an error",
        }
    }
}
