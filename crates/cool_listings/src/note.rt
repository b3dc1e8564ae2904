//! These constants are the messages on standard error of a call of `cool_editor` that writes no listing.

/// The note of arguments that name no file, or one by too long a name.
pub const BAD_COMMAND_LINE: &[u8] = b"cool_editor: bad command line\n";

/// The note of files that are no class table.
pub const NO_CLASS_TABLE: &[u8] = b"cool_editor: no class table\n";

/// The note of files that are no program.
pub const NO_PROGRAM: &[u8] = b"cool_editor: not a program\n";

/// The name of the program in its notes.
pub const PROGRAM: &[u8] = b"cool_editor";

/// The note on too many files.
pub const TOO_MANY_FILES: &[u8] = b"cool_editor: too many files\n";

/// The note on files that are too large.
pub const FILES_TOO_LARGE: &[u8] = b"cool_editor: files too large\n";
