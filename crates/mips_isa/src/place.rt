//! The places of labels in assembly: segment and address.

/// A segment that assembly fills.
#[derive(Clone, Copy)]
pub enum Segment {
    Text,
    Data,
}

/// The place of a label: its segment, and its address.
#[derive(Clone, Copy)]
pub struct Place {
    pub segment: Segment,
    pub address: u32,
}
