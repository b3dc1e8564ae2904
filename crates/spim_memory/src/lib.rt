//! The memory of the simulated machine: text, data, heap and stack.
//!
//! Input: an image (an executable program) and the sizes of heap and stack, then addresses and numbers. Output: numbers and instructions, or why an access is
//! refused. This crate implements `specs/Memory.antt`, and with it the bytes of the machine in `mips_isa`.
#![tactic(auto)]

mod fault;
mod heap_bytes;
mod limits;
mod little_endian;
mod memory;
mod operation;
mod stack_bytes;

pub use fault::MemFault;
pub use limits::Limits;
pub use memory::Memory;
pub use operation::Operation;
