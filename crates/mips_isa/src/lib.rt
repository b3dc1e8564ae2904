//! The instructions of the integer R2000 (a MIPS processor), their encoding as 32-bit words, and the lines of assembly.
//!
//! Input: words, or instructions. Output: the instructions or the words for them. This crate implements `specs/Words.antt`, the one table that the encoder, the
//! decoder and everything about emitted code reads.
#![tactic(auto)]

mod address_map;
mod asm_fault;
mod decoding;
mod encoding;
mod image;
mod instr;
mod label;
mod line;
mod line_labels;
mod place;
pub mod register;
pub mod system_call;
mod trap;

pub use address_map::{
    DATA_START, HEAP_START, MOST_DATA_BYTES, MOST_TEXT_WORDS, STACK_END, TEXT_START,
};
pub use asm_fault::{AsmError, AsmFault, AsmKind};
pub use decoding::decode;
pub use encoding::encode;
pub use image::Image;
pub use instr::{
    FromOp, ImmOp, Instr, JumpOp, MemOp, MulDivOp, OneOp, ShiftOp, ShiftRegOp, ThreeOp, ToOp, TwoOp,
};
pub use label::{Label, MOST_SHORT_NAME};
pub use line::{
    AsmDirective, AsmInstr, DataItem, LINE_BYTES, Line, OrderOp, Statement, WordItem, ZeroOp,
    law_line_bytes,
};
pub use line_labels::LineLabels;
pub use place::{Place, Segment};
pub use register::Reg;
pub use trap::{Trap, TrapKind};
