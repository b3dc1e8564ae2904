//! The debugger of the simulated machine, controlled by a script.
//!
//! Input: an image (an executable program), a script, an input stream (source) and two output streams (sinks). Output: what the program prints, the notes
//! (messages) that the script asks for, and how the run ends. This crate implements `Moves.antt`, `Notes.antt` and `Debugging.antt`; the parsing of a script
//! meets `Scripts.antt`, and disassembly `Decoding.antt` of `mips_isa`.
#![tactic(auto)]

mod break_set;
mod counted_run;
mod counting_sink;
mod debugger;
mod digits;
mod disassembly;
mod laws;
mod notes;
mod places;
mod script;
mod script_lines;
mod script_words;

pub use debugger::{DebugEnd, debug};
pub use digits::hexadecimal_digits;
pub use disassembly::disassemble;
pub use laws::law_disassembly;
pub use script::{
    DebugCommand, MOST_SCRIPT_BYTES, ScriptError, ScriptFault, ScriptKind, read_script,
};
