//! `Form` lists the output formats of `cool_editor`: the names of files, the code of their expressions, their tokens, or their syntax trees.

/// A form of the output for files.
#[derive(Clone, Copy)]
pub enum Form {
    /// The marks of their names.
    Marks,
    /// The table of their code.
    Code,
    /// Their tokens.
    Tokens,
    /// Their trees, with types where they are a program.
    Trees,
}
