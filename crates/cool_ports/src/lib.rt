//! Files, input streams and output streams as three traits, with implementations over the operating system and in memory.
//!
//! Input: the data of std's files and streams, or bytes in memory. Output: three traits, `Shelf`, `Source` and `Sink`, whose contracts say what is read and
//! written, and count every failure. `specs/` defines the terms.
#![tactic(auto)]

mod fault_schedule;
mod file_shelf;
mod history;
mod log;
mod mem_shelf;
mod mem_sink;
mod mem_source;
mod pieces;
mod shelf;
mod sink;
mod source;
mod std_sink;
mod std_source;
mod sure_sink;
mod sure_source;
mod taking;

pub use file_shelf::FileShelf;
pub use log::Log;
pub use mem_shelf::MemShelf;
pub use mem_sink::MemSink;
pub use mem_source::MemSource;
pub use pieces::put_pieces;
pub use shelf::{Shelf, ShelfFault};
pub use sink::Sink;
pub use source::Source;
pub use std_sink::StdSink;
pub use std_source::StdSource;
pub use sure_sink::SureSink;
pub use sure_source::SureSource;
pub use taking::next_byte;

/// A read or a write of the outside failed.
#[derive(Clone, Copy)]
pub struct Failed;
