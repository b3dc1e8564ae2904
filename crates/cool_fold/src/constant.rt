//! Constants, and the results of operators on constants.

ghost use Rattle.std.specs.Prelude.{◌≡◌, not};
ghost use Rattle.std.specs.Option.{option_map};
ghost use Rattle.cool_meaning.specs.Evaluation.{is_void};
ghost use Rattle.cool_fold.specs.FoldedNodes.{value_of};
ghost use Rattle.cool_fold.specs.Folding.{number_in, truth_in};
ghost use Rattle.cool_fold.specs.Shrinking.{compared, computed, negated};

use cool_syntax::{ArithOp, Bytes, CompareOp};

/// A constant of the source.
#[derive(Clone, Copy)]
pub(crate) enum Constant<'a> {
    Number(i32),
    Text(&'a Bytes),
    Truth(bool),
}

/// The number that a constant is.
fn number_in(constant: Option<Constant<'_>>) -> Option<i32>
    ensures { result ≡ number_in (value_of constant.entry) }
{
    match constant {
        Some(Constant::Number(value)) => Some(value),
        _ => None,
    }
}

/// The truth that a constant is.
pub(crate) fn truth_in(constant: Option<Constant<'_>>) -> Option<bool>
    ensures { result ≡ truth_in (value_of constant.entry) }
{
    match constant {
        Some(Constant::Truth(value)) => Some(value),
        _ => None,
    }
}

/// The result of arithmetic on two constants, where it has 32 bits.
pub(crate) fn computed(
    op: ArithOp,
    left: Option<Constant<'_>>,
    right: Option<Constant<'_>>,
) -> Option<i32>
    ensures { result ≡ computed op (number_in (value_of left.entry)) (number_in (value_of right.entry)) }
{
    let left = number_in(left)?;
    let right = number_in(right)?;
    match op {
        ArithOp::Add => left.checked_add(right),
        ArithOp::Sub => left.checked_sub(right),
        ArithOp::Mul => left.checked_mul(right),
        ArithOp::Div => left.checked_div(right),
    }
}

/// A constant with the other sign, where it has 32 bits.
pub(crate) fn negated(constant: Option<Constant<'_>>) -> Option<i32>
    ensures { result ≡ negated (number_in (value_of constant.entry)) }
{
    let value = number_in(constant)?;
    value.checked_neg()
}

/// The other truth.
pub(crate) fn complemented(constant: Option<Constant<'_>>) -> Option<bool>
    ensures { result ≡ option_map not (truth_in (value_of constant.entry)) }
{
    match truth_in(constant) {
        Some(value) => Some(!value),
        None => None,
    }
}

/// Whether a constant is void: no constant is.
pub(crate) fn voided(constant: Option<Constant<'_>>) -> Option<bool>
    ensures { result ≡ option_map is_void (value_of constant.entry) }
{
    match constant {
        Some(Constant::Number(_) | Constant::Text(_) | Constant::Truth(_)) => Some(false),
        None => None,
    }
}

/// The truth of a comparison of two constants.
pub(crate) fn compared(
    op: CompareOp,
    left: Option<Constant<'_>>,
    right: Option<Constant<'_>>,
) -> Option<bool>
    ensures { result ≡ compared op (value_of left.entry) (value_of right.entry) }
{
    match (op, left?, right?) {
        (CompareOp::Less, Constant::Number(left), Constant::Number(right)) => Some(left < right),
        (CompareOp::LessEqual, Constant::Number(left), Constant::Number(right)) => Some(
            left <= right,
        ),
        (CompareOp::Equal, Constant::Number(left), Constant::Number(right)) => Some(left == right),
        (CompareOp::Equal, Constant::Truth(left), Constant::Truth(right)) => Some(left == right),
        (CompareOp::Equal, Constant::Text(left), Constant::Text(right)) => Some(
            left.as_slice() == right.as_slice(),
        ),
        _ => None,
    }
}
