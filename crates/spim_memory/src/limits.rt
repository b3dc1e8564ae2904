//! The sizes of the heap and the stack that a run of the machine has.

/// The sizes of heap and stack in bytes: multiples of 1,024 from 4,096 on, up to 256 MiB and 64 MiB.
#[derive(Clone, Copy)]
pub struct Limits {
    pub heap: u32,
    pub stack: u32,
}
