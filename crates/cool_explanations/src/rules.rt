//! `rule_line` writes the typing rule that a type error breaks, and the premise of the rule that fails.

ghost use Rattle.std.specs.Prelude.{◌≡◌, IfOk};
ghost use Rattle.cool_explanations.specs.Rules.{premise_words, rule_line, rule_name};

use cool_check::{TypeKind, TypingRule};
use cool_faults::Fault;
use std::alloc::{AllocError, Global};

/// The line of the typing rule that a fault breaks: `rule NAME: PREMISE`. It is empty if the fault is none of typing. Returns `Err` only if memory runs
/// out.
pub(crate) fn rule_line(alloc: Global, fault: &Fault) -> Result<Vec<u8>, AllocError>
    ensures { IfOk result (λ line. line.items ≡ rule_line fault.now) }
{
    match fault {
        Fault::Typing(fault) => {
            let name = rule_name(fault.rule);
            let premise = premise_words(fault.kind);
            Ok(format!(in alloc; "rule {name}: {premise}\n")?.into_bytes())
        }
        _ => Ok(Vec::new(alloc)),
    }
}

/// The name of a rule, which is that of its form of expression or kind of feature.
fn rule_name(rule: TypingRule) -> &'static str
    ensures { result.now ≡ rule_name rule }
{
    match rule {
        TypingRule::Id => "Id",
        TypingRule::Assign => "Assign",
        TypingRule::Dispatch => "Dispatch",
        TypingRule::StaticDispatch => "StaticDispatch",
        TypingRule::If => "If",
        TypingRule::While => "While",
        TypingRule::Let => "Let",
        TypingRule::Case => "Case",
        TypingRule::New => "New",
        TypingRule::Not => "Not",
        TypingRule::Neg => "Neg",
        TypingRule::Arith => "Arith",
        TypingRule::Compare => "Compare",
        TypingRule::Attribute => "Attribute",
        TypingRule::Method => "Method",
    }
}

/// The premise that a fault of this kind breaks.
fn premise_words(kind: TypeKind) -> &'static str
    ensures { result.now ≡ premise_words kind }
{
    match kind {
        TypeKind::E1 => "the name is in scope",
        TypeKind::E2 => "the name is not `self`",
        TypeKind::E3 => "the type of the value conforms to that of the variable",
        TypeKind::E4 => "the class has a method of this name",
        TypeKind::E5 => "there are as many arguments as formals",
        TypeKind::E6 => "the type of each argument conforms to that of its formal",
        TypeKind::E7 => "the type after `@` is not SELF_TYPE",
        TypeKind::E8 => "the type of the receiver conforms to the class after `@`",
        TypeKind::E9 => "the predicate has type Bool",
        TypeKind::E10 => "the name of the variable is not `self`",
        TypeKind::E11 => "the type is a class or SELF_TYPE",
        TypeKind::E12 => "the type of a branch is not SELF_TYPE",
        TypeKind::E13 => "the branches have different types",
        TypeKind::E14 => "the operands have type Int",
        TypeKind::E15 => {
            "an operand of type Int, Bool or String is compared with one of the same type"
        }
        TypeKind::E16 => "the operand has type Bool",
        TypeKind::E17 => "the type of the initial value conforms to the declared type",
        TypeKind::E18 => "the type of the body conforms to the result type",
    }
}
