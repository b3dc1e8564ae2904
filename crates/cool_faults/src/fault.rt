//! A `Fault` is a compile-time error of any phase, and a `Verdict` is the result of the front end: a program, or a list of such errors.

ghost use Rattle.std.specs.Prelude.{◌≡◌};
ghost use Rattle.cool_faults.specs.declared.fault.Refusal.TheVariants as refusal;
ghost use Rattle.cool_faults.specs.Verdicts.{place_of};

use cool_check::TypeFault;
use cool_classes::{ClassFault, ClassTable};
use cool_lexer::{LexFault, Lexed};
use cool_parser::ParseFault;
use cool_rules::TypedProgram;
use cool_syntax::{Listed, Place};
use std::alloc::AllocError;

/// A fault of a file.
#[derive(Clone, Copy)]
pub enum Fault {
    /// A lexical fault, L1 to L8.
    Lex(LexFault),
    /// A token where none such may stand, S1.
    Syntax(ParseFault),
    /// A fault of the classes, C1 to C7, or of their features, F1 to F9.
    Class(ClassFault),
    /// A fault of typing, E1 to E18.
    Typing(TypeFault),
}

impl Fault {
    /// The place of the fault.
    pub fn place(&self) -> Place
        ensures { result ≡ place_of self.now }
    {
        match self {
            Fault::Lex(fault) => fault.at,
            Fault::Syntax(fault) => fault.at,
            Fault::Class(fault) => fault.at,
            Fault::Typing(fault) => fault.at,
        }
    }
}

/// The verdict on files.
#[derive(Drop)]
pub enum Verdict {
    /// They are this program.
    Accepted(TypedProgram),
    /// They have these faults, in the order of files, bytes and kinds.
    Refused(Listed<Fault>),
}

/// Files before typing, without a fault.
#[derive(Drop)]
pub struct Untyped {
    /// The tokens of each file.
    pub lexed: Vec<Lexed>,
    /// The table of their classes.
    pub classes: ClassTable,
}

/// The verdict on files before typing.
#[derive(Drop)]
pub enum ClassVerdict {
    /// They have these tokens and this table.
    Untyped(Untyped),
    /// They have these faults, of the lexer, of the parser, of classes or of features, in the order of files, bytes and kinds.
    Refused(Listed<Fault>),
}

/// The reason why files are no program.
#[derive(Drop)]
pub enum Refusal {
    /// Want of memory.
    Memory,
    /// The faults of the first phase that finds any, in the order of files, bytes and kinds.
    Faults(Listed<Fault>),
}

impl From<AllocError> for Refusal {
    ghost from_gives = { λ _ e. e ≡ refusal.Memory };

    fn from(_error: AllocError) -> Refusal {
        Refusal::Memory
    }
}
