//! The outcome of executing an instruction: the next one follows, a system call, or a trap.

use mips_isa::Trap;

/// The outcome of an instruction.
#[derive(Clone, Copy)]
pub enum Step {
    /// The next instruction.
    Next,
    /// A system call; pc stands after it.
    Call,
    /// A trap, which changed nothing.
    Trap(Trap),
}
