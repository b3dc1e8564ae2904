//! The call of a program over source files: reading the files by their names, the program's answer on them, the output, the note and the exit status.
//!
//! Input: the names of files, a task, a shelf, and sinks for the output and a note. Output: the bytes of the files, and the status of the call.
//! `specs/Devices.antt` defines how shelf and sink fare, `specs/Reading.antt` why files are not read, `specs/Tasks.antt` the outcome that is due for
//! files, `specs/Notes.antt` the notes, `specs/Ends.antt` the end of a call, and `specs/Statuses.antt` the statuses.
#![tactic(auto)]

mod answer;
mod call;
mod command_line;
mod note;
mod process;
mod reading;
mod status;
mod task;

pub use answer::Answer;
pub use call::perform_task;
pub use command_line::{Call, call_of};
pub use note::{Note, Notes, file_note};
pub use process::{Process, perform_over_system};
pub use reading::{ReadError, byte_count, read_files};
pub use status::{Status, tell};
pub use task::Task;
