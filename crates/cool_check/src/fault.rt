//! The kinds of type errors that the checker returns, each with its source location (the Cool manual, sections 4 and 12).

ghost use Rattle.std.specs.Prelude.{◌≡◌, None, Some};
ghost use Rattle.cool_classes.specs.declared.class_id.Ty.TheVariants.{Class as IsClass};
ghost use Rattle.cool_check.specs.declared.fault.CheckError.TheVariants as error;
ghost use Rattle.cool_check.specs.declared.fault.CheckAllError.TheVariants as all;
ghost use Rattle.cool_check.specs.FirstFaults.{unfit};

use cool_classes::{ClassId, Ty};
use cool_syntax::{Listed, Place};
use std::alloc::{AllocError, AllocFailed};

/// A kind of typing fault. `at` is the place of the expression's own mark.
#[derive(Clone, Copy, PartialEq, Eq, PartialOrd, Ord)]
pub enum TypeKind {
    /// A name that is not in scope. At the name; of an assignment at it.
    E1,
    /// An assignment to `self`. At it.
    E2,
    /// A value whose type does not conform to that of the variable that it is assigned to. At the assignment.
    E3,
    /// A dispatch of a method that the class does not have. At the method's name.
    E4,
    /// A dispatch with another number of arguments than the method has formals. At the method's name.
    E5,
    /// An argument that does not conform to its formal's type, the first one of a dispatch. At the argument.
    E6,
    /// `SELF_TYPE` after `@`. At it.
    E7,
    /// A receiver that does not conform to the class after `@`. At the class.
    E8,
    /// A predicate that is not Bool. At the predicate.
    E9,
    /// A `let` or a branch that binds `self`. At the name.
    E10,
    /// A type that is no class and not `SELF_TYPE`. At the type.
    E11,
    /// A branch of type `SELF_TYPE`. At the type.
    E12,
    /// A branch of the type of an earlier branch. At the type.
    E13,
    /// An operand of arithmetic, `<` or `<=` that is not Int. At the operator.
    E14,
    /// Operands of `=` of different types, one of which is Int, Bool or String. At the operator.
    E15,
    /// An operand of `not` that is not Bool. At the operator.
    E16,
    /// An initial value that does not conform to the declared type. At the name of the variable or attribute.
    E17,
    /// A body that does not conform to the result type. At the method's name.
    E18,
}

/// A typing rule with a premise that can fail (the Cool manual, section 12): the rule of a form of expression, or of a kind of feature.
#[derive(Clone, Copy)]
pub enum TypingRule {
    /// A name.
    Id,
    /// An assignment.
    Assign,
    /// A dispatch without `@`.
    Dispatch,
    /// A dispatch with `@`.
    StaticDispatch,
    /// A conditional.
    If,
    /// A loop.
    While,
    /// A `let` with one variable.
    Let,
    /// A `case`.
    Case,
    /// `new`.
    New,
    /// `not`.
    Not,
    /// `~`.
    Neg,
    /// `+`, `-`, `*` or `/`.
    Arith,
    /// `<`, `<=` or `=`.
    Compare,
    /// An attribute with an initial value.
    Attribute,
    /// A method.
    Method,
}

/// A fault, the rule that is not met, the place, and the types found and due there.
#[derive(Clone, Copy)]
pub struct TypeFault {
    pub kind: TypeKind,
    /// The rule of the expression or feature that has no type, although each part that is checked before has one.
    pub rule: TypingRule,
    pub at: Place,
    /// The type that was found, if one did not fit: of the value (E3), argument (E6), receiver (E8), predicate (E9), operand (E14, E16), right operand
    /// (E15), initial value (E17) or body (E18). If a dispatch is at fault (E4, E5), the class in which its method is looked for.
    pub found: Option<Ty>,
    /// The type that was due where one was found that did not fit: that of the variable (E3, E17), formal (E6) or result (E18), the class
    /// after `@` (E8), Bool (E9, E16), Int (E14), or the type of the left operand (E15).
    pub due: Option<Ty>,
}

impl TypeFault {
    /// The fault that the first type was found where the second one was due.
    pub(crate) fn unfit(
        rule: TypingRule,
        kind: TypeKind,
        at: Place,
        found: Ty,
        due: Ty,
    ) -> TypeFault
        ensures { result ≡ unfit rule kind at found due }
    {
        TypeFault {
            kind,
            rule,
            at,
            found: Some(found),
            due: Some(due),
        }
    }
}

/// The reason why a feature was not found to be well typed.
#[derive(Clone, Copy)]
pub enum CheckError {
    /// Want of memory.
    Memory,
    /// The first fault of the feature.
    Fault(TypeFault),
}

impl CheckError {
    /// A fault of this rule, of this kind and at this place.
    pub(crate) fn at(rule: TypingRule, kind: TypeKind, at: Place) -> CheckError
        ensures { result ≡ error.Fault (record { kind = kind; rule = rule; at = at; found = None; due = None }) }
    {
        CheckError::Fault(TypeFault {
            kind,
            rule,
            at,
            found: None,
            due: None,
        })
    }

    /// A fault of a dispatch whose method is looked for in this class.
    pub(crate) fn in_class(
        rule: TypingRule,
        kind: TypeKind,
        at: Place,
        class: ClassId,
    ) -> CheckError
        ensures { result ≡ error.Fault (record { kind = kind; rule = rule; at = at; found = Some (IsClass class); due = None }) }
    {
        CheckError::Fault(TypeFault {
            kind,
            rule,
            at,
            found: Some(Ty::Class(class)),
            due: None,
        })
    }

    /// The fault that the first type was found where the second one was due.
    pub(crate) fn unfit(
        rule: TypingRule,
        kind: TypeKind,
        at: Place,
        found: Ty,
        due: Ty,
    ) -> CheckError
        ensures { result ≡ error.Fault (unfit rule kind at found due) }
    {
        CheckError::Fault(TypeFault::unfit(rule, kind, at, found, due))
    }
}

impl From<AllocError> for CheckError {
    ghost from_gives = { λ _ e. e ≡ error.Memory };

    fn from(_error: AllocError) -> CheckError {
        CheckError::Memory
    }
}

impl<T: Drop> From<AllocFailed<T>> for CheckError {
    ghost from_gives = { λ _ e. e ≡ error.Memory };

    fn from(_error: AllocFailed<T>) -> CheckError {
        CheckError::Memory
    }
}

/// The reason why there is no program.
#[derive(Drop)]
pub enum CheckAllError {
    /// Want of memory.
    Memory,
    /// The first fault of each feature that has one, in the order of files, bytes and kinds.
    Faults(Listed<TypeFault>),
}

impl From<AllocError> for CheckAllError {
    ghost from_gives = { λ _ e. e ≡ all.Memory };

    fn from(_error: AllocError) -> CheckAllError {
        CheckAllError::Memory
    }
}
