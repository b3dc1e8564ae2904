//! An `Explanation` holds the facts about a compile-time error and an edit that fixes it; `Explained` holds all explanations, or the warnings about a
//! program.

use crate::edit::Edit;
use cool_faults::Fault;
use cool_guess::Lexeme;
use cool_syntax::Place;

/// All that is told of files.
#[derive(Drop)]
pub struct Explained {
    /// An explanation of each fault of their fault list, in its order.
    pub explanations: Vec<Explanation>,
    /// The faults that are found once the fixes told so far are made, step by step.
    pub after_fixes: Vec<AfterFixes>,
    /// Warnings if the files are a program: likely mistakes, in the order of the text.
    pub notices: Vec<Notice>,
}

/// A fault, what is known of it, and an edit that mends it, where one was found.
#[derive(Drop)]
pub struct Explanation {
    pub fault: Fault,
    /// The range of the item at the fault, in bytes of its file; empty at the end of the file.
    pub here: Lexeme,
    /// The lexeme before it; empty at the beginning of the file.
    pub before: Lexeme,
    /// The type that was found and the one that was due, where types do not fit.
    pub types: Option<Types>,
    /// Methods of the class in which the fault looked for one.
    pub methods: Option<Methods>,
    /// The place of the other definition of a thing that is defined twice.
    pub other: Option<Place>,
    /// The places of the expressions that give the value, if a value has another type than the declared one.
    pub values: Vec<Place>,
    /// Further words.
    pub said: Vec<Vec<u8>>,
    /// The edits that mend the fault, the likeliest first: none, one, or two that are as likely.
    pub mends: Vec<Mend>,
}

/// The faults that files have after further fixes.
#[derive(Drop)]
pub struct AfterFixes {
    /// Fixes that were told of the files before, one after the other.
    pub edits: Vec<Edit>,
    /// The files after these edits.
    pub files: Vec<Vec<u8>>,
    /// An explanation of each fault of these files that comes from a place where no fault was told before.
    pub explanations: Vec<Explanation>,
    /// The places in the given files from which these faults come.
    pub origins: Vec<Origin>,
}

/// A byte of a file, by their numbers.
#[derive(Clone, Copy)]
pub struct Origin {
    pub file: u32,
    pub byte: usize,
}

/// The names of two types that do not fit.
#[derive(Drop)]
pub struct Types {
    pub found: Vec<u8>,
    pub due: Vec<u8>,
}

/// Methods of a class.
#[derive(Drop)]
pub struct Methods {
    /// The name of the class.
    pub class: Vec<u8>,
    /// Each by its name and signature, as `concat(String):String`.
    pub all: Vec<Vec<u8>>,
}

/// An edit that was tried, and what is said of it.
#[derive(Drop)]
pub struct Mend {
    pub edit: Edit,
    pub words: Vec<u8>,
}

/// A warning: legal, and likely a mistake.
#[derive(Drop)]
pub struct Notice {
    pub at: Place,
    /// The byte behind the item there.
    pub end: usize,
    pub words: Vec<u8>,
}
