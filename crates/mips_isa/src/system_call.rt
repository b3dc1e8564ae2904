//! The numbers of SPIM's system calls, which stand in `$v0`.

/// Writes the signed number in `$a0`.
pub const PRINT_INT: u32 = 1;

/// Writes the string at the address in `$a0`.
pub const PRINT_STRING: u32 = 4;

/// Reads a line, and returns the number at its front.
pub const READ_INT: u32 = 5;

/// Reads a line into the buffer at the address in `$a0`, which has as many bytes as `$a1` says.
pub const READ_STRING: u32 = 8;

/// Moves the break of the heap by `$a0` bytes, and returns the old one.
pub const SBRK: u32 = 9;

/// Ends the run with 0.
pub const EXIT: u32 = 10;

/// Writes the low byte of `$a0`.
pub const PRINT_CHAR: u32 = 11;

/// Reads a byte, and returns it.
pub const READ_CHAR: u32 = 12;

/// Ends the run with the number in `$a0`.
pub const EXIT2: u32 = 17;
