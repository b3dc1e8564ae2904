//! Traps: the reasons why a machine stops at an instruction, with the address.

/// Why a machine stops at an instruction.
#[derive(Clone, Copy)]
pub enum TrapKind {
    /// An access to no segment that it may touch.
    BadAddress,
    /// An access at no multiple of its width.
    Unaligned,
    /// A signed result that leaves 32 bits.
    Overflow,
    /// A word that is no instruction.
    NoInstruction,
    /// A number that is no system call.
    BadCall,
}

/// A trap: its kind, the address that it is about, and the address of the instruction.
#[derive(Clone, Copy)]
pub struct Trap {
    pub kind: TrapKind,
    pub address: u32,
    pub pc: u32,
}
