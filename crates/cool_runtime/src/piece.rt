//! Assembly code that several routines or code generators share, such as pushing a word or allocating an Int: one function returns each piece.

ghost use Rattle.std.specs.Prelude.{◌≡◌, map};
ghost use Rattle.cool_runtime.specs.CodeOfCalls.{enter_lines};
ghost use Rattle.cool_runtime.specs.Drafts.{drafted};
ghost use Rattle.cool_runtime.specs.Routines.{bytes_lines, error_lines, int_head_lines, new_int_lines, push_lines, string_head_lines, string_return_lines, string_zeros_lines};

use crate::draft::{
    Draft, addiu, beq, bne, call_number, copied, j, jr, la, label, lbu, lw, sb, sltu, srl, sw,
    syscall,
};
use mips_isa::register::{
    A0, A1, FP, GP, RA, S0, S6, S7, SP, T0, T1, T2, T3, T4, T5, T6, T8, T9, V0, V1, ZERO,
};
use mips_isa::system_call::{EXIT2, PRINT_INT, PRINT_STRING};

/// Pushes the value in `$a0`.
pub fn push() -> [Draft<'static>; 5]
    ensures { map drafted result ≡ push_lines }
{
    [
        addiu(SP, SP, -4),
        sltu(T0, SP, S6),
        beq(T0, ZERO),
        j(b"stack_limit"),
        sw(A0, 0, SP),
    ]
}

/// Makes an Int of the value in `$t2`.
pub fn new_int() -> [Draft<'static>; 16]
    ensures { map drafted result ≡ new_int_lines }
{
    [
        addiu(T1, GP, 20),
        sltu(T0, S7, T1),
        beq(T0, ZERO),
        j(b"heap_limit"),
        la(T3, b"Int_protObj"),
        lw(T4, 0, T3),
        lw(T5, 4, T3),
        lw(T6, 8, T3),
        addiu(T0, ZERO, -1),
        sw(T0, 0, GP),
        sw(T4, 4, GP),
        sw(T5, 8, GP),
        sw(T6, 12, GP),
        sw(T2, 16, GP),
        addiu(A0, GP, 4),
        copied(GP, T1),
    ]
}

/// Makes the frame of a call.
pub fn enter() -> [Draft<'static>; 9]
    ensures { map drafted result ≡ enter_lines }
{
    [
        addiu(SP, SP, -12),
        sltu(T0, SP, S6),
        beq(T0, ZERO),
        j(b"stack_limit"),
        sw(RA, 8, SP),
        sw(FP, 4, SP),
        sw(S0, 0, SP),
        copied(S0, A0),
        copied(FP, SP),
    ]
}

/// Makes the Int of a length.
pub(crate) fn int_head() -> [Draft<'static>; 10]
    ensures { map drafted result ≡ int_head_lines }
{
    [
        la(A1, b"Int_protObj"),
        lw(V0, 0, A1),
        lw(V1, 8, A1),
        addiu(T0, ZERO, -1),
        sw(T0, 0, GP),
        sw(V0, 4, GP),
        addiu(V0, ZERO, 4),
        sw(V0, 8, GP),
        sw(V1, 12, GP),
        sw(T5, 16, GP),
    ]
}

/// Makes the head of a String.
pub(crate) fn string_head() -> [Draft<'static>; 12]
    ensures { map drafted result ≡ string_head_lines }
{
    [
        la(A1, b"String_protObj"),
        lw(V0, 0, A1),
        lw(V1, 8, A1),
        addiu(T0, ZERO, -1),
        sw(T0, 20, GP),
        sw(V0, 24, GP),
        srl(V0, T5, 2),
        addiu(V0, V0, 5),
        sw(V0, 28, GP),
        sw(V1, 32, GP),
        addiu(V0, GP, 4),
        sw(V0, 36, GP),
    ]
}

/// Clears the last word of a String.
pub(crate) fn string_zeros() -> [Draft<'static>; 2]
    ensures { map drafted result ≡ string_zeros_lines }
{
    [sw(ZERO, -4, T1), addiu(T4, GP, 40)]
}

/// Copies bytes.
pub(crate) fn bytes<'a>(begin: &'a [u8], end: &'a [u8]) -> [Draft<'a>; 9]
    ensures { map drafted result ≡ bytes_lines begin.now end.now }
{
    [
        label(begin),
        bne(T3, ZERO),
        j(end),
        lbu(T0, 0, T2),
        sb(T0, 0, T4),
        addiu(T2, T2, 1),
        addiu(T4, T4, 1),
        addiu(T3, T3, -1),
        j(begin),
    ]
}

/// Returns a String.
pub(crate) fn string_return() -> [Draft<'static>; 3]
    ensures { map drafted result ≡ string_return_lines }
{
    [addiu(A0, GP, 24), copied(GP, T1), jr(RA)]
}

/// Ends by an error at a place.
pub(crate) fn error<'a>(name: &'a [u8], text: &'a [u8]) -> [Draft<'a>; 15]
    ensures { map drafted result ≡ error_lines name.now text.now }
{
    [
        label(name),
        addiu(A0, T8, 16),
        call_number(PRINT_STRING),
        syscall(),
        la(A0, b"__colon"),
        syscall(),
        copied(A0, T9),
        call_number(PRINT_INT),
        syscall(),
        la(A0, text),
        call_number(PRINT_STRING),
        syscall(),
        addiu(A0, ZERO, 3),
        call_number(EXIT2),
        syscall(),
    ]
}
