//! The reasons why a run of the machine ends, and the number of instructions executed.

use mips_isa::Trap;

/// The end of a run.
#[derive(Clone, Copy)]
pub enum Halt {
    /// The program exited with this code.
    Exit(u32),
    /// An instruction trapped.
    Trap(Trap),
    /// The budget was spent. A further run goes on.
    StepLimit,
    /// A `take` failed.
    ReadFault,
    /// A `put` failed.
    WriteFault,
}

/// The stop of a run up to a break address.
#[derive(Clone, Copy)]
pub struct Stopped {
    /// The end. `StepLimit` is that of a run that may go on: its budget was spent, or it came to a break address.
    pub halt: Halt,
    /// The number of instructions executed, including the one that exits or traps, or whose call fails.
    pub executed: u64,
}
