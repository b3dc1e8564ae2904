//! Functions that return pieces of the code of expressions as templates of assembly lines, which `cool_runtime::draft::write` appends to the code.

ghost use Rattle.std.specs.Prelude.{◌≡◌, ◌<◌, map};
ghost use Rattle.cool_runtime.specs.Drafts.{drafted};
ghost use Rattle.cool_codegen.specs.Pieces.{add_lines, begin_init_lines, call_init_lines, call_lines, call_static_lines, case_begin_lines, case_end_lines, compare_equal_lines, complement_lines, create_lines, create_self_lines, divide_lines, ends_where_lines, flag_lines, is_void_lines, is_zero_lines, leave_lines, less_equal_lines, less_lines, load_lines, mark_lines, multiply_lines, negate_lines, pop_lines, repeat_lines, return_basic_lines, store_lines, subtract_lines, take_lines, take_self_lines, take_void_lines, test_lines, try_tags_lines, turn_lines, values_lines};

use cool_runtime::draft::{
    Draft, addiu, addu, beq, bne, copied, div, j, jal, jalr, jr, la, label, li, lui, lw, mfhi,
    mflo, mult, sll, slt, sltiu, sltu, subu, sw,
};
use mips_isa::register::{A0, FP, RA, S0, SP, T0, T1, T2, T3, T4, T5, T6, T8, T9, ZERO};

/// Takes the last word from the stack.
pub fn pop() -> [Draft<'static>; 1]
    ensures { map drafted result ≡ pop_lines }
{
    [addiu(SP, SP, 4)]
}

/// Loads a variable.
pub fn load(offset: i32, base: u32) -> [Draft<'static>; 1]
    requires { base < 32 }
    ensures { map drafted result ≡ load_lines offset base }
{
    [lw(A0, offset, base)]
}

/// Stores a variable.
pub fn store(offset: i32, base: u32) -> [Draft<'static>; 1]
    requires { base < 32 }
    ensures { map drafted result ≡ store_lines offset base }
{
    [sw(A0, offset, base)]
}

/// Takes `self`.
pub fn take_self() -> [Draft<'static>; 1]
    ensures { map drafted result ≡ take_self_lines }
{
    [copied(A0, S0)]
}

/// Takes void.
pub fn take_void() -> [Draft<'static>; 1]
    ensures { map drafted result ≡ take_void_lines }
{
    [copied(A0, ZERO)]
}

/// Takes the object of a label.
pub fn take(name: &[u8]) -> [Draft<'_>; 1]
    ensures { map drafted result ≡ take_lines name.now }
{
    [la(A0, name)]
}

/// Goes on if the Bool is true, and otherwise elsewhere.
pub fn test(other: &[u8]) -> [Draft<'_>; 3]
    ensures { map drafted result ≡ test_lines other.now }
{
    [lw(T0, 12, A0), bne(T0, ZERO), j(other)]
}

/// Places a label.
pub fn mark(name: &[u8]) -> [Draft<'_>; 1]
    ensures { map drafted result ≡ mark_lines name.now }
{
    [label(name)]
}

/// Leaves one way, and begins another one.
pub fn turn<'a>(end: &'a [u8], other: &'a [u8]) -> [Draft<'a>; 2]
    ensures { map drafted result ≡ turn_lines end.now other.now }
{
    [j(end), label(other)]
}

/// Repeats a loop, whose value is void.
pub fn repeat<'a>(begin: &'a [u8], end: &'a [u8]) -> [Draft<'a>; 3]
    ensures { map drafted result ≡ repeat_lines begin.now end.now }
{
    [j(begin), label(end), copied(A0, ZERO)]
}

/// The values of both operands.
pub fn values() -> [Draft<'static>; 4]
    ensures { map drafted result ≡ values_lines }
{
    [
        lw(T1, 0, SP),
        addiu(SP, SP, 4),
        lw(T3, 12, T1),
        lw(T4, 12, A0),
    ]
}

/// Compares two objects.
pub fn compare_equal() -> [Draft<'static>; 4]
    ensures { map drafted result ≡ compare_equal_lines }
{
    [
        lw(T1, 0, SP),
        addiu(SP, SP, 4),
        copied(T2, A0),
        jal(b"equality_test"),
    ]
}

/// Whether one value is less.
pub fn less() -> [Draft<'static>; 1]
    ensures { map drafted result ≡ less_lines }
{
    [slt(T0, T3, T4)]
}

/// Whether one value is not greater.
pub fn less_equal() -> [Draft<'static>; 2]
    ensures { map drafted result ≡ less_equal_lines }
{
    [slt(T0, T4, T3), sltiu(T0, T0, 1)]
}

/// Whether the value is void.
pub fn is_void() -> [Draft<'static>; 1]
    ensures { map drafted result ≡ is_void_lines }
{
    [sltiu(T0, A0, 1)]
}

/// Whether a Bool is false.
pub fn complement() -> [Draft<'static>; 2]
    ensures { map drafted result ≡ complement_lines }
{
    [lw(T0, 12, A0), sltiu(T0, T0, 1)]
}

/// Makes a Bool of a flag.
pub fn flag(end: &[u8]) -> [Draft<'_>; 5]
    ensures { map drafted result ≡ flag_lines end.now }
{
    [
        la(A0, b"bool_const1"),
        beq(T0, ZERO),
        j(end),
        la(A0, b"bool_const0"),
        label(end),
    ]
}

/// A sum.
pub fn add() -> [Draft<'static>; 4]
    ensures { map drafted result ≡ add_lines }
{
    [
        addu(T2, T3, T4),
        slt(T5, T2, T3),
        slt(T6, T4, ZERO),
        subu(T0, T5, T6),
    ]
}

/// A difference.
pub fn subtract() -> [Draft<'static>; 4]
    ensures { map drafted result ≡ subtract_lines }
{
    [
        subu(T2, T3, T4),
        slt(T5, T3, T4),
        slt(T6, T2, ZERO),
        subu(T0, T5, T6),
    ]
}

/// A product.
pub fn multiply() -> [Draft<'static>; 5]
    ensures { map drafted result ≡ multiply_lines }
{
    [
        mult(T3, T4),
        mflo(T2),
        mfhi(T5),
        slt(T6, T2, ZERO),
        addu(T0, T5, T6),
    ]
}

/// A quotient.
pub fn divide() -> [Draft<'static>; 8]
    ensures { map drafted result ≡ divide_lines }
{
    [
        div(T3, T4),
        mflo(T2),
        lui(T5, 32768),
        addu(T5, T3, T5),
        sltiu(T5, T5, 1),
        addiu(T6, T4, 1),
        sltu(T6, ZERO, T6),
        sltu(T0, T6, T5),
    ]
}

/// The number with the other sign.
pub fn negate() -> [Draft<'static>; 5]
    ensures { map drafted result ≡ negate_lines }
{
    [
        lw(T4, 12, A0),
        subu(T2, ZERO, T4),
        slt(T5, ZERO, T4),
        slt(T6, T2, ZERO),
        subu(T0, T5, T6),
    ]
}

/// Whether the divisor is 0.
pub fn is_zero() -> [Draft<'static>; 1]
    ensures { map drafted result ≡ is_zero_lines }
{
    [sltiu(T0, T4, 1)]
}

/// Goes on if a flag is 0, and otherwise ends the run at a place.
pub fn ends_where<'a>(fits: &'a [u8], file: &'a [u8], at: u32, abort: &'a [u8]) -> [Draft<'a>; 6]
    ensures { map drafted result ≡ ends_where_lines fits.now file.now at abort.now }
{
    [
        bne(T0, ZERO),
        j(fits),
        la(T8, file),
        li(T9, at),
        j(abort),
        label(fits),
    ]
}

/// Makes an object.
pub fn create<'a>(prototype: &'a [u8], initializer: &'a [u8]) -> [Draft<'a>; 3]
    ensures { map drafted result ≡ create_lines prototype.now initializer.now }
{
    [la(A0, prototype), jal(b"Object.copy"), jal(initializer)]
}

/// Makes an object of the class of `self`.
pub fn create_self() -> [Draft<'static>; 12]
    ensures { map drafted result ≡ create_self_lines }
{
    [
        lw(T0, 0, S0),
        sll(T0, T0, 3),
        la(T1, b"class_objTab"),
        addu(T1, T1, T0),
        lw(A0, 0, T1),
        jal(b"Object.copy"),
        lw(T0, 0, S0),
        sll(T0, T0, 3),
        la(T1, b"class_objTab"),
        addu(T1, T1, T0),
        lw(T1, 4, T1),
        jalr(T1),
    ]
}

/// Calls a method by its slot.
pub fn call(file: &[u8], at: u32, offset: i32) -> [Draft<'_>; 7]
    ensures { map drafted result ≡ call_lines file.now at offset }
{
    [
        la(T8, file),
        li(T9, at),
        bne(A0, ZERO),
        j(b"dispatch_abort"),
        lw(T0, 8, A0),
        lw(T0, offset, T0),
        jalr(T0),
    ]
}

/// Calls a method by its label.
pub fn call_static<'a>(file: &'a [u8], at: u32, method: &'a [u8]) -> [Draft<'a>; 5]
    ensures { map drafted result ≡ call_static_lines file.now at method.now }
{
    [
        la(T8, file),
        li(T9, at),
        bne(A0, ZERO),
        j(b"dispatch_abort"),
        jal(method),
    ]
}

/// Takes the tag of an object.
pub fn case_begin(file: &[u8], at: u32) -> [Draft<'_>; 5]
    ensures { map drafted result ≡ case_begin_lines file.now at }
{
    [
        la(T8, file),
        li(T9, at),
        bne(A0, ZERO),
        j(b"case_abort2"),
        lw(T1, 0, A0),
    ]
}

/// Goes on if the tag is one of a range.
pub fn try_tags(low: i32, count: i32, next: &[u8]) -> [Draft<'_>; 4]
    ensures { map drafted result ≡ try_tags_lines low count next.now }
{
    [
        addiu(T0, T1, low),
        sltiu(T0, T0, count),
        bne(T0, ZERO),
        j(next),
    ]
}

/// Ends a case.
pub fn case_end(end: &[u8]) -> [Draft<'_>; 3]
    ensures { map drafted result ≡ case_end_lines end.now }
{
    [j(b"case_abort"), label(end), addiu(SP, SP, 4)]
}

/// Returns from a call.
pub fn leave(taken: i32) -> [Draft<'static>; 5]
    ensures { map drafted result ≡ leave_lines taken }
{
    [
        addiu(SP, FP, taken),
        lw(RA, 8, FP),
        lw(S0, 0, FP),
        lw(FP, 4, FP),
        jr(RA),
    ]
}

/// Begins the initializer.
pub fn begin_init(name: &[u8]) -> [Draft<'_>; 1]
    ensures { map drafted result ≡ begin_init_lines name.now }
{
    [label(name)]
}

/// Calls the initializer of the parent.
pub fn call_init(parent: &[u8]) -> [Draft<'_>; 1]
    ensures { map drafted result ≡ call_init_lines parent.now }
{
    [jal(parent)]
}

/// The initializer of a basic class.
pub fn return_basic(name: &[u8]) -> [Draft<'_>; 2]
    ensures { map drafted result ≡ return_basic_lines name.now }
{
    [label(name), jr(RA)]
}
