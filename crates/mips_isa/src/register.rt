//! Registers of the processor, and their numbers by name.

ghost use Rattle.std.specs.Prelude.{◌≡◌, ◌<◌};

use std::marker::Model;

/// A general register: a number below 32, in one byte. A contract sees the number.
#[derive(Clone, Copy)]
pub struct Reg {
    number: u8,
}

impl Model for Reg {
    ghost use Rattle.std.specs.Prelude.{ℕ, ◌<◌};

    ghost Value = { ℕ };

    ghost view = { λ r. r.number };

    ghost invariant = { λ r. r.number < 32 };

    ghost inverse = { λ n. record { number = n } };
}

impl Reg {
    /// The register of this number.
    pub fn new(number: u32) -> Reg
        requires { number < 32 }
        ensures { result ≡ number }
    {
        Reg {
            number: number as u8,
        }
    }

    /// Its number, below 32.
    pub fn number(self) -> u32
        ensures value { result ≡ self }
        ensures below { result < 32 }
    {
        u32::from(self.number)
    }
}

/// Always 0.
pub const ZERO: u32 = 0;

/// Reserved for the assembler.
pub const AT: u32 = 1;

/// The number of a system call, and its answer.
pub const V0: u32 = 2;

pub const V1: u32 = 3;

/// The first argument of a system call.
pub const A0: u32 = 4;

/// Its second argument.
pub const A1: u32 = 5;

pub const A2: u32 = 6;

pub const A3: u32 = 7;

pub const T0: u32 = 8;

pub const T1: u32 = 9;

pub const T2: u32 = 10;

pub const T3: u32 = 11;

pub const T4: u32 = 12;

pub const T5: u32 = 13;

pub const T6: u32 = 14;

pub const T7: u32 = 15;

pub const S0: u32 = 16;

pub const S1: u32 = 17;

pub const S2: u32 = 18;

pub const S3: u32 = 19;

pub const S4: u32 = 20;

pub const S5: u32 = 21;

/// The lowest address of the stack, when a run begins.
pub const S6: u32 = 22;

/// The end of the heap, when a run begins.
pub const S7: u32 = 23;

pub const T8: u32 = 24;

pub const T9: u32 = 25;

pub const K0: u32 = 26;

pub const K1: u32 = 27;

/// The beginning of the heap, when a run begins.
pub const GP: u32 = 28;

/// The end of the stack, when a run begins.
pub const SP: u32 = 29;

pub const FP: u32 = 30;

/// The return address of a call.
pub const RA: u32 = 31;
