//! The address map of a machine: the addresses of its segments, and the maximal sizes of the text and data of an image (an executable program).

/// The address of the first word of the text.
pub const TEXT_START: u32 = 0x0040_0000;

/// The address of the first byte of the data.
pub const DATA_START: u32 = 0x1000_0000;

/// The address of the first byte of the heap.
pub const HEAP_START: u32 = 0x2000_0000;

/// The address after the last byte of the stack.
pub const STACK_END: u32 = 0x8000_0000;

/// The most words of a text: those up to the beginning of the data.
pub const MOST_TEXT_WORDS: u32 = 66_060_288;

const _: () = prove!(TEXT_START + 4 * MOST_TEXT_WORDS == DATA_START);

/// The most bytes of the data: those up to the beginning of the heap.
pub const MOST_DATA_BYTES: u32 = 268_435_456;

const _: () = prove!(DATA_START + MOST_DATA_BYTES == HEAP_START);
