//! The run-time routines, as variants of the enum `Routine`.

/// A run-time routine.
#[derive(Clone, Copy)]
pub enum Routine {
    /// Makes the object of Main, calls `main`, writes the end text and exits with 0.
    Start,
    /// Copies an object to the heap.
    Copy,
    /// `Object.abort`
    Abort,
    /// `Object.type_name`
    TypeName,
    /// `IO.out_string`
    OutString,
    /// `IO.out_int`
    OutInt,
    /// `IO.in_string`
    InString,
    /// `IO.in_int`
    InInt,
    /// `String.length`
    Length,
    /// `String.concat`
    Concat,
    /// `String.substr`
    Substr,
    /// Compares two objects by value or address.
    Equal,
    /// The end of a dispatch on void.
    DispatchVoid,
    /// The end of a case on void.
    CaseVoid,
    /// The end of a case without a branch.
    NoBranch,
    /// The end of a division by zero.
    DivZero,
    /// The end of a `substr` out of range.
    SubstrRange,
    /// The end of an operation whose result does not fit.
    Overflow,
    /// The end if the heap is used up.
    HeapLimit,
    /// The end if the stack is used up.
    StackLimit,
}
