//! The reasons why a load or store is refused.

/// Why an access may not be, with its address.
#[derive(Clone, Copy)]
pub enum MemFault {
    /// The address is no multiple of the size.
    Unaligned(u32),
    /// The access lies in no segment that it may touch.
    BadAddress(u32),
}
