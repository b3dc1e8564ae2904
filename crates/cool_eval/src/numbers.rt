//! Computes arithmetic and comparisons of values.

ghost use Rattle.std.specs.Prelude.{◌≡◌, ℤ, SomeIff, FitsSigned, IfErr};
ghost use Rattle.std.specs.Int.{w64};
ghost use Rattle.cool_eval.specs.Counts.{IsInner};
ghost use Rattle.cool_meaning.specs.Evaluation as meaning;
ghost use Rattle.cool_eval.specs.StackMachine.{negated, operated};
ghost use Rattle.cool_eval.specs.Values.{value_of};
ghost use Rattle.cool_eval.specs.Configurations.{IsResultOf, IsNumberOf};

use crate::ending::{Ending, RunError};
use crate::value::Value;
use cool_syntax::{ArithOp, CompareOp, Place};

/// The number that a value is.
#[inline(always)]
pub(crate) fn number(value: &Value) -> Result<i64, Ending>
    ensures { IsNumberOf result (value_of value.now) }
{
    match value {
        Value::Int(number) => Ok(*number),
        _ => Err(Ending::Stuck),
    }
}

/// A result where it has 32 bits; one that is none has not even 64.
#[inline(always)]
fn exact(at: Place, found: Option<i64>) -> Result<Value, Ending>
    ensures value { (z : ℤ) → SomeIff found (FitsSigned w64 z) z → IsResultOf result (meaning.exact at z) }
    ensures inner { IfErr result IsInner }
{
    match found {
        Some(number) if i32::try_from(number).is_ok() => Ok(Value::Int(number)),
        _ => Err(Ending::Error(RunError::Overflow { at })),
    }
}

/// The negative of a number.
#[inline(always)]
pub(crate) fn negate(at: Place, value: &Value) -> Result<Value, Ending>
    ensures value { IsResultOf result (negated at (value_of value.now)) }
    ensures inner { IfErr result IsInner }
{
    exact(at, number(value)?.checked_neg())
}

/// An operation on two numbers.
#[inline(always)]
pub(crate) fn operate(op: ArithOp, at: Place, left: &Value, right: &Value) -> Result<Value, Ending>
    ensures value { IsResultOf result (operated op at (value_of left.now) (value_of right.now)) }
    ensures inner { IfErr result IsInner }
{
    let left = number(left)?;
    let right = number(right)?;
    match op {
        ArithOp::Add => exact(at, left.checked_add(right)),
        ArithOp::Sub => exact(at, left.checked_sub(right)),
        ArithOp::Mul => exact(at, left.checked_mul(right)),
        ArithOp::Div => {
            if right == 0 {
                return Err(Ending::Error(RunError::DivisionByZero { at }));
            }
            exact(at, left.checked_div(right))
        }
    }
}

/// Whether two values are equal: numbers, truths and strings by value, objects by identity.
fn same(left: &Value, right: &Value) -> bool
    ensures { result ≡ meaning.same (value_of left.now) (value_of right.now) }
{
    match (left, right) {
        (Value::Void, Value::Void) => true,
        (Value::Int(left), Value::Int(right)) => *left == *right,
        (Value::Bool(left), Value::Bool(right)) => *left == *right,
        (Value::Str(left), Value::Str(right)) => left.as_slice() == right.as_slice(),
        (Value::Object(left), Value::Object(right)) => left.identity == right.identity,
        _ => false,
    }
}

/// A comparison.
#[inline(always)]
pub(crate) fn compare(op: CompareOp, left: &Value, right: &Value) -> Result<Value, Ending>
    ensures value { IsResultOf result (meaning.compare op (value_of left.now) (value_of right.now)) }
    ensures inner { IfErr result IsInner }
{
    match op {
        CompareOp::Less => Ok(Value::Bool(number(left)? < number(right)?)),
        CompareOp::LessEqual => Ok(Value::Bool(number(left)? <= number(right)?)),
        CompareOp::Equal => Ok(Value::Bool(same(left, right))),
    }
}
