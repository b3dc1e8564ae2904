//! The lines of the generated Cool program that are repeated for each number: a class, a method of Main, and the call of that method.

ghost use Rattle.std.specs.Prelude.{◌≡◌, ◌≤◌, ◌++◌, OnOk};
ghost use Rattle.cool_big.specs.declared.program.TheConstants.{MOST_BIG};
ghost use Rattle.cool_big.specs.BigPrograms.{class_text, method_text, call_text, line_text, line_texts};

use crate::digits::push_numbered;
use crate::program::MOST_BIG;
use std::alloc::AllocError;

/// A line that stands once for each number.
#[derive(Clone, Copy)]
pub(crate) enum Line {
    /// A class that inherits from the one before it.
    Class,
    /// The method of Main that writes the result of a method of the class.
    Method,
    /// The call of that method.
    Call,
}

/// Adds the lines of the numbers from 1 to n, in order. Returns `Err` only if memory runs out.
pub(crate) fn push_lines(text: &mut Vec<u8>, line: Line, n: u32) -> Result<(), AllocError>
    requires { n ≤ MOST_BIG }
    ensures { OnOk result (text.new.items ≡ text.old.items ++ line_texts line n) }
{
    for number in 1..n + 1 {
        push_line(text, line, number)?;
    }
    Ok(())
}

/// Adds the line of a number. Returns `Err` only if memory runs out.
fn push_line(text: &mut Vec<u8>, line: Line, number: u32) -> Result<(), AllocError>
    requires { (1 ≤ number) × (number ≤ MOST_BIG) }
    ensures { OnOk result (text.new.items ≡ text.old.items ++ line_text line number) }
{
    match line {
        Line::Class => push_class(text, number),
        Line::Method => push_method(text, number),
        Line::Call => push_call(text, number),
    }
}

/// Adds the class of a number. Returns `Err` only if memory runs out.
fn push_class(text: &mut Vec<u8>, number: u32) -> Result<(), AllocError>
    requires { (1 ≤ number) × (number ≤ MOST_BIG) }
    ensures { OnOk result (text.new.items ≡ text.old.items ++ class_text number) }
{
    push_numbered(text, b"class K", number)?;
    push_numbered(text, b" inherits K", number - 1)?;
    text.extend_from_slice(b" { f(x : Int) : Int { x * 2 + a }; };\n")
}

/// Adds the method of Main of a number. Returns `Err` only if memory runs out.
fn push_method(text: &mut Vec<u8>, number: u32) -> Result<(), AllocError>
    requires { number ≤ MOST_BIG }
    ensures { OnOk result (text.new.items ≡ text.old.items ++ method_text number) }
{
    push_numbered(text, b"  m", number)?;
    push_numbered(text, b"() : Object { out_int((new K", number)?;
    push_numbered(text, b").g().f(", 1000 + number)?;
    text.extend_from_slice(b")).out_string(\"\\n\") };\n")
}

/// Adds the call of that method. Returns `Err` only if memory runs out.
fn push_call(text: &mut Vec<u8>, number: u32) -> Result<(), AllocError>
    requires { number ≤ MOST_BIG }
    ensures { OnOk result (text.new.items ≡ text.old.items ++ call_text number) }
{
    push_numbered(text, b"    m", number)?;
    text.extend_from_slice(b"();\n")
}
