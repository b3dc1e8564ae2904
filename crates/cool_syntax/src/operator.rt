//! The binary operators: arithmetic on two numbers, and comparison of two values.

/// An operator of arithmetic: `+`, `-`, `*` and `/`.
#[derive(Clone, Copy, PartialEq, Eq)]
pub enum ArithOp {
    Add,
    Sub,
    Mul,
    Div,
}

/// An operator of comparison: `<`, `<=` and `=`.
#[derive(Clone, Copy, PartialEq, Eq)]
pub enum CompareOp {
    Less,
    LessEqual,
    Equal,
}
