//! The function `big_program`, which generates the whole Cool program for a number.

ghost use Rattle.std.specs.Prelude.{◌≡◌, ◌≤◌, ◌+◌, ◌*◌, ◌++◌, length, IfOk, OnOk};
ghost use Rattle.cool_big.specs.BigPrograms.{big_text, body_text, main_text, root_text};

use crate::line::{Line, push_lines};
use std::alloc::{AllocError, Global};

/// The greatest number for which there is a program.
pub const MOST_BIG: u32 = 300;

/// The text of a valid program of n + 2 classes and 154 + 151 n bytes.
///
/// Run, it writes 2001 + 2 i and a newline for each i from 1 to n, and ends normally; no clause says this. Returns `Err` only if memory runs out.
pub fn big_program(alloc: Global, n: u32) -> Result<Vec<u8>, AllocError>
    requires { (1 ≤ n) × (n ≤ MOST_BIG) }
    ensures text { IfOk result (λ bytes. bytes.items ≡ big_text n) }
    ensures size { IfOk result (λ bytes. length bytes.items ≡ 154 + 151 * n) }
{
    let mut text = Vec::with_capacity(alloc, 154 + 151 * n as usize)?;
    push_root(&mut text)?;
    push_lines(&mut text, Line::Class, n)?;
    push_main(&mut text, n)?;
    Ok(text)
}

/// Adds the first class of the chain. Returns `Err` only if memory runs out.
fn push_root(text: &mut Vec<u8>) -> Result<(), AllocError>
    ensures { OnOk result (text.new.items ≡ text.old.items ++ root_text) }
{
    text.extend_from_slice(
        b"class K0000 inherits IO { a : Int <- 1; f(x : Int) : Int { x + a }; g() : SELF_TYPE { self }; };\n",
    )
}

/// Adds the class Main. Returns `Err` only if memory runs out.
fn push_main(text: &mut Vec<u8>, n: u32) -> Result<(), AllocError>
    requires { n ≤ MOST_BIG }
    ensures { OnOk result (text.new.items ≡ text.old.items ++ main_text n) }
{
    text.extend_from_slice(b"class Main inherits IO {\n")?;
    push_lines(text, Line::Method, n)?;
    push_body(text, n)?;
    text.extend_from_slice(b"};\n")
}

/// Adds the method main. Returns `Err` only if memory runs out.
fn push_body(text: &mut Vec<u8>, n: u32) -> Result<(), AllocError>
    requires { n ≤ MOST_BIG }
    ensures { OnOk result (text.new.items ≡ text.old.items ++ body_text n) }
{
    text.extend_from_slice(b"  main() : Object { {\n")?;
    push_lines(text, Line::Call, n)?;
    text.extend_from_slice(b"  } };\n")
}
