//! The type `Variable`: for a name in scope, the register and the offset that address the word with its value.

ghost use Rattle.std.specs.Prelude.{◌≡◌, ◌<◌};
ghost use Rattle.cool_codegen.specs.Variables.{register};

use cool_classes::Ty;
use mips_isa::register::{FP, S0};

/// The base from which the word of a variable is addressed: the frame, or self.
#[derive(Clone, Copy)]
pub enum Base {
    Frame,
    Object,
}

impl Base {
    /// The register that has its address.
    pub fn register(self) -> u32
        ensures number { result < 32 }
        ensures register { result ≡ register self }
    {
        match self {
            Base::Frame => FP,
            Base::Object => S0,
        }
    }
}

/// A variable: from where its word is addressed, the word's offset in bytes, and the type of its values, by which contracts say with which
/// names in scope an expression has the types that it has (`scope_of` of `specs/Variables.antt`).
#[derive(Clone, Copy)]
pub struct Variable {
    pub base: Base,
    pub offset: i32,
    pub ty: Ty,
}
