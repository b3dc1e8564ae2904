//! These constants are the messages of `cool_explain` on standard error, such as the one for invalid arguments.

/// The note on words that are no command line, or name no file.
pub const BAD_COMMAND_LINE: &[u8] = b"cool_explain: bad command line\n";

/// The name of the program in its notes.
pub const PROGRAM: &[u8] = b"cool_explain";

/// The note on too many files.
pub const TOO_MANY_FILES: &[u8] = b"cool_explain: too many files\n";

/// The note on files that are too large.
pub const FILES_TOO_LARGE: &[u8] = b"cool_explain: files too large\n";
