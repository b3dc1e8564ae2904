//! The parts of the run-time routines in assembly: one function returns the code of each part.

ghost use Rattle.std.specs.Prelude.{◌≡◌, ◌<◌, map};
ghost use Rattle.cool_runtime.specs.Drafts.{drafted};
ghost use Rattle.cool_runtime.specs.Routines.{abort_lines, concat_begin_lines, concat_turn_lines, copy_end_lines, copy_first_lines, copy_words_lines, equal_begin_lines, equal_bytes_lines, equal_false_lines, equal_strings_lines, equal_true_lines, equal_values_lines, in_string_begin_lines, in_string_bytes_lines, in_string_end_lines, length_lines, limit_lines, no_branch_lines, out_int_lines, out_string_lines, read_number_lines, return_lines, start_lines, substr_begin_lines, substr_size_lines, type_name_lines};

use crate::draft::{
    Draft, addiu, addu, beq, bgez, bne, call_number, copied, j, jal, jr, la, label, lbu, lw, sb,
    sll, sltu, srl, subu, sw, syscall,
};
use mips_isa::register::{A0, GP, RA, S7, SP, T0, T1, T2, T3, T4, T5, T6, T7, T8, T9, V0, ZERO};
use mips_isa::system_call::{EXIT, EXIT2, PRINT_INT, PRINT_STRING, READ_CHAR, READ_INT};

/// Begins a copy.
pub(crate) fn copy_first() -> [Draft<'static>; 12]
    ensures { map drafted result ≡ copy_first_lines }
{
    [
        label(b"Object.copy"),
        lw(T1, 4, A0),
        sll(T1, T1, 2),
        addu(T2, GP, T1),
        addiu(T2, T2, 4),
        sltu(T0, S7, T2),
        beq(T0, ZERO),
        j(b"heap_limit"),
        addiu(T0, ZERO, -1),
        sw(T0, 0, GP),
        addiu(T3, GP, 4),
        addu(T1, A0, T1),
    ]
}

/// Copies words.
pub(crate) fn copy_words() -> [Draft<'static>; 8]
    ensures { map drafted result ≡ copy_words_lines }
{
    [
        label(b"copy_words"),
        bne(A0, T1),
        j(b"copy_end"),
        lw(T0, 0, A0),
        sw(T0, 0, T3),
        addiu(A0, A0, 4),
        addiu(T3, T3, 4),
        j(b"copy_words"),
    ]
}

/// Ends a copy.
pub(crate) fn copy_end() -> [Draft<'static>; 4]
    ensures { map drafted result ≡ copy_end_lines }
{
    [label(b"copy_end"), addiu(A0, GP, 4), copied(GP, T2), jr(RA)]
}

/// Writes a String.
pub(crate) fn out_string() -> [Draft<'static>; 9]
    ensures { map drafted result ≡ out_string_lines }
{
    [
        label(b"IO.out_string"),
        copied(T0, A0),
        lw(A0, 0, SP),
        addiu(A0, A0, 16),
        call_number(PRINT_STRING),
        syscall(),
        copied(A0, T0),
        addiu(SP, SP, 4),
        jr(RA),
    ]
}

/// Writes an Int.
pub(crate) fn out_int() -> [Draft<'static>; 9]
    ensures { map drafted result ≡ out_int_lines }
{
    [
        label(b"IO.out_int"),
        copied(T0, A0),
        lw(A0, 0, SP),
        lw(A0, 12, A0),
        call_number(PRINT_INT),
        syscall(),
        copied(A0, T0),
        addiu(SP, SP, 4),
        jr(RA),
    ]
}

/// Reads a number.
pub(crate) fn read_number() -> [Draft<'static>; 4]
    ensures { map drafted result ≡ read_number_lines }
{
    [
        label(b"IO.in_int"),
        call_number(READ_INT),
        syscall(),
        copied(T2, V0),
    ]
}

/// The length of a String.
pub(crate) fn length() -> [Draft<'static>; 3]
    ensures { map drafted result ≡ length_lines }
{
    [label(b"String.length"), lw(A0, 12, A0), jr(RA)]
}

/// Begins to join two Strings.
pub(crate) fn concat_begin() -> [Draft<'static>; 15]
    ensures { map drafted result ≡ concat_begin_lines }
{
    [
        label(b"String.concat"),
        lw(T6, 0, SP),
        lw(T3, 12, A0),
        lw(T3, 12, T3),
        lw(T7, 12, T6),
        lw(T7, 12, T7),
        addu(T5, T3, T7),
        srl(T0, T5, 2),
        sll(T0, T0, 2),
        addu(T1, GP, T0),
        addiu(T1, T1, 44),
        sltu(T0, S7, T1),
        beq(T0, ZERO),
        j(b"heap_limit"),
        addiu(T2, A0, 16),
    ]
}

/// Turns to the second of two Strings.
pub(crate) fn concat_turn() -> [Draft<'static>; 3]
    ensures { map drafted result ≡ concat_turn_lines }
{
    [label(b"concat_second"), addiu(T2, T6, 16), copied(T3, T7)]
}

/// Tests a range.
pub(crate) fn substr_begin() -> [Draft<'static>; 14]
    ensures { map drafted result ≡ substr_begin_lines }
{
    [
        label(b"String.substr"),
        lw(T5, 0, SP),
        lw(T5, 12, T5),
        lw(T2, 4, SP),
        lw(T2, 12, T2),
        lw(T3, 12, A0),
        lw(T3, 12, T3),
        sltu(T0, T3, T2),
        beq(T0, ZERO),
        j(b"substr_abort"),
        subu(T3, T3, T2),
        sltu(T0, T3, T5),
        beq(T0, ZERO),
        j(b"substr_abort"),
    ]
}

/// Asks for room for a part of a String.
pub(crate) fn substr_size() -> [Draft<'static>; 10]
    ensures { map drafted result ≡ substr_size_lines }
{
    [
        addiu(T2, T2, 16),
        addu(T2, A0, T2),
        copied(T3, T5),
        srl(T0, T5, 2),
        sll(T0, T0, 2),
        addu(T1, GP, T0),
        addiu(T1, T1, 44),
        sltu(T0, S7, T1),
        beq(T0, ZERO),
        j(b"heap_limit"),
    ]
}

/// Compares addresses and tags.
pub(crate) fn equal_begin() -> [Draft<'static>; 24]
    ensures { map drafted result ≡ equal_begin_lines }
{
    [
        label(b"equality_test"),
        bne(T1, T2),
        j(b"equal_true"),
        bne(T1, ZERO),
        j(b"equal_false"),
        bne(T2, ZERO),
        j(b"equal_false"),
        lw(T3, 0, T1),
        lw(T4, 0, T2),
        beq(T3, T4),
        j(b"equal_false"),
        la(T5, b"Int_protObj"),
        lw(T5, 0, T5),
        bne(T3, T5),
        j(b"equal_values"),
        la(T5, b"Bool_protObj"),
        lw(T5, 0, T5),
        bne(T3, T5),
        j(b"equal_values"),
        la(T5, b"String_protObj"),
        lw(T5, 0, T5),
        bne(T3, T5),
        j(b"equal_strings"),
        j(b"equal_false"),
    ]
}

/// Compares values.
pub(crate) fn equal_values() -> [Draft<'static>; 6]
    ensures { map drafted result ≡ equal_values_lines }
{
    [
        label(b"equal_values"),
        lw(T3, 12, T1),
        lw(T4, 12, T2),
        beq(T3, T4),
        j(b"equal_false"),
        j(b"equal_true"),
    ]
}

/// Compares lengths.
pub(crate) fn equal_strings() -> [Draft<'static>; 9]
    ensures { map drafted result ≡ equal_strings_lines }
{
    [
        label(b"equal_strings"),
        lw(T3, 12, T1),
        lw(T3, 12, T3),
        lw(T4, 12, T2),
        lw(T4, 12, T4),
        beq(T3, T4),
        j(b"equal_false"),
        addiu(T1, T1, 16),
        addiu(T2, T2, 16),
    ]
}

/// Compares bytes.
pub(crate) fn equal_bytes() -> [Draft<'static>; 11]
    ensures { map drafted result ≡ equal_bytes_lines }
{
    [
        label(b"equal_bytes"),
        bne(T3, ZERO),
        j(b"equal_true"),
        lbu(T4, 0, T1),
        lbu(T5, 0, T2),
        beq(T4, T5),
        j(b"equal_false"),
        addiu(T1, T1, 1),
        addiu(T2, T2, 1),
        addiu(T3, T3, -1),
        j(b"equal_bytes"),
    ]
}

/// Answers true.
pub(crate) fn equal_true() -> [Draft<'static>; 3]
    ensures { map drafted result ≡ equal_true_lines }
{
    [label(b"equal_true"), la(A0, b"bool_const1"), jr(RA)]
}

/// Answers false.
pub(crate) fn equal_false() -> [Draft<'static>; 3]
    ensures { map drafted result ≡ equal_false_lines }
{
    [label(b"equal_false"), la(A0, b"bool_const0"), jr(RA)]
}

/// Exits with a code, under a label.
pub(crate) fn limit(name: &[u8], code: u32) -> [Draft<'_>; 4]
    requires { code < 16 }
    ensures { map drafted result ≡ limit_lines name.now code }
{
    [
        label(name),
        addiu(A0, ZERO, code as i32),
        call_number(EXIT2),
        syscall(),
    ]
}

/// Begins a run, and ends it.
pub(crate) fn start() -> [Draft<'static>; 10]
    ensures { map drafted result ≡ start_lines }
{
    [
        label(b"__start"),
        la(A0, b"Main_protObj"),
        jal(b"Object.copy"),
        jal(b"Main_init"),
        jal(b"Main.main"),
        la(A0, b"__end"),
        call_number(PRINT_STRING),
        syscall(),
        call_number(EXIT),
        syscall(),
    ]
}

/// Answers the name of a class.
pub(crate) fn type_name() -> [Draft<'static>; 8]
    ensures { map drafted result ≡ type_name_lines }
{
    [
        label(b"Object.type_name"),
        lw(T0, 0, A0),
        sll(T0, T0, 2),
        la(T1, b"class_nameTab"),
        addu(T0, T1, T0),
        lw(T0, 0, T0),
        copied(A0, T0),
        jr(RA),
    ]
}

/// Writes the name of a class, and exits with 3.
pub(crate) fn abort() -> [Draft<'static>; 16]
    ensures { map drafted result ≡ abort_lines }
{
    [
        label(b"Object.abort"),
        lw(T0, 0, A0),
        sll(T0, T0, 2),
        la(T1, b"class_nameTab"),
        addu(T0, T1, T0),
        lw(T0, 0, T0),
        la(A0, b"__abort"),
        call_number(PRINT_STRING),
        syscall(),
        addiu(A0, T0, 16),
        syscall(),
        la(A0, b"__newline"),
        syscall(),
        addiu(A0, ZERO, 3),
        call_number(EXIT2),
        syscall(),
    ]
}

/// Ends a case without a branch.
pub(crate) fn no_branch() -> [Draft<'static>; 24]
    ensures { map drafted result ≡ no_branch_lines }
{
    [
        label(b"case_abort"),
        lw(T0, 0, A0),
        sll(T0, T0, 2),
        la(T1, b"class_nameTab"),
        addu(T0, T1, T0),
        lw(T0, 0, T0),
        addiu(A0, T8, 16),
        call_number(PRINT_STRING),
        syscall(),
        la(A0, b"__colon"),
        syscall(),
        copied(A0, T9),
        call_number(PRINT_INT),
        syscall(),
        la(A0, b"__no_branch"),
        call_number(PRINT_STRING),
        syscall(),
        addiu(A0, T0, 16),
        syscall(),
        la(A0, b"__stop"),
        syscall(),
        addiu(A0, ZERO, 3),
        call_number(EXIT2),
        syscall(),
    ]
}

/// Returns.
pub(crate) fn return_call() -> [Draft<'static>; 1]
    ensures { map drafted result ≡ return_lines }
{
    [jr(RA)]
}

/// Begins to read a line.
pub(crate) fn in_string_begin() -> [Draft<'static>; 8]
    ensures { map drafted result ≡ in_string_begin_lines }
{
    [
        label(b"IO.in_string"),
        addiu(T1, GP, 44),
        sltu(T0, S7, T1),
        beq(T0, ZERO),
        j(b"heap_limit"),
        sw(ZERO, 40, GP),
        addiu(T4, GP, 40),
        addiu(T3, ZERO, 10),
    ]
}

/// Reads bytes up to a newline.
pub(crate) fn in_string_bytes() -> [Draft<'static>; 16]
    ensures { map drafted result ≡ in_string_bytes_lines }
{
    [
        label(b"in_string_bytes"),
        call_number(READ_CHAR),
        syscall(),
        bgez(V0),
        j(b"in_string_end"),
        bne(V0, T3),
        j(b"in_string_end"),
        sb(V0, 0, T4),
        addiu(T4, T4, 1),
        beq(T4, T1),
        j(b"in_string_bytes"),
        bne(T1, S7),
        j(b"heap_limit"),
        sw(ZERO, 0, T1),
        addiu(T1, T1, 4),
        j(b"in_string_bytes"),
    ]
}

/// The length of a line.
pub(crate) fn in_string_end() -> [Draft<'static>; 3]
    ensures { map drafted result ≡ in_string_end_lines }
{
    [
        label(b"in_string_end"),
        subu(T5, T4, GP),
        addiu(T5, T5, -40),
    ]
}
