//! The kinds of operands that each instruction of assembly expects.

ghost use Rattle.std.specs.Prelude.{◌≡◌, ◌∷◌, [], map};
ghost use Rattle.mips_text.specs.declared.mnemonics.Mnemonic.TheVariants.{Jalr};
ghost use Rattle.mips_text.specs.declared.wanted.Wanted.TheVariants.{Number};
ghost use Rattle.mips_text.specs.Statements.{has_open, imm_range, instruction_operands, memory_operands, two_registers};
ghost use Rattle.mips_text.specs.Views.{word_seen};

use crate::mnemonics::Mnemonic;
use crate::operands::has_open;
use crate::wanted::{Range, Wanted};
use crate::words::Word;
use mips_isa::ImmOp;

static NOTHING: [Wanted; 0] = [];

static ONE: [Wanted; 1] = [Wanted::Register];

static TWO: [Wanted; 2] = [Wanted::Register, Wanted::Register];

static THREE: [Wanted; 3] = [Wanted::Register, Wanted::Register, Wanted::Register];

static SHIFT: [Wanted; 3] = [
    Wanted::Register,
    Wanted::Register,
    Wanted::Number(Range::Shift),
];

static SIGNED: [Wanted; 3] = [
    Wanted::Register,
    Wanted::Register,
    Wanted::Number(Range::Signed),
];

static UNSIGNED: [Wanted; 3] = [
    Wanted::Register,
    Wanted::Register,
    Wanted::Number(Range::Unsigned),
];

static UPPER: [Wanted; 2] = [Wanted::Register, Wanted::Number(Range::Unsigned)];

static BRANCH_TWO: [Wanted; 3] = [
    Wanted::Register,
    Wanted::Register,
    Wanted::Target(Range::Signed),
];

static BRANCH_ONE: [Wanted; 2] = [Wanted::Register, Wanted::Target(Range::Signed)];

static JUMP: [Wanted; 1] = [Wanted::Target(Range::Index)];

static BARE_MEMORY: [Wanted; 4] = [
    Wanted::Register,
    Wanted::Open,
    Wanted::Register,
    Wanted::Close,
];

static MEMORY: [Wanted; 5] = [
    Wanted::Register,
    Wanted::Number(Range::Signed),
    Wanted::Open,
    Wanted::Register,
    Wanted::Close,
];

static LOAD: [Wanted; 2] = [Wanted::Register, Wanted::Number(Range::Word)];

static NAME: [Wanted; 1] = [Wanted::Name];

static ONE_NAME: [Wanted; 2] = [Wanted::Register, Wanted::Name];

static TWO_NAME: [Wanted; 3] = [Wanted::Register, Wanted::Register, Wanted::Name];

/// The operands that a mnemonic expects, if these words stand behind it.
pub(crate) fn instruction_operands(mnemonic: Mnemonic, words: &[Word]) -> &'static [Wanted]
    ensures { result.now ≡ instruction_operands mnemonic (map word_seen words.now) }
{
    match mnemonic {
        Mnemonic::Three(_) | Mnemonic::ShiftReg(_) | Mnemonic::Mul => &THREE,
        Mnemonic::Shift(_) => &SHIFT,
        Mnemonic::Jr | Mnemonic::MoveFrom(_) | Mnemonic::MoveTo(_) => &ONE,
        Mnemonic::Jalr => jalr_operands(words),
        Mnemonic::Syscall | Mnemonic::Nop => &NOTHING,
        Mnemonic::MulDiv(_) | Mnemonic::Move | Mnemonic::Neg => &TWO,
        Mnemonic::Imm(op) => imm_operands(op),
        Mnemonic::Lui => &UPPER,
        Mnemonic::BranchTwo(_) => &BRANCH_TWO,
        Mnemonic::BranchOne(_) => &BRANCH_ONE,
        Mnemonic::Jump(_) => &JUMP,
        Mnemonic::Mem(_) => memory_operands(words),
        Mnemonic::La | Mnemonic::BranchZero(_) => &ONE_NAME,
        Mnemonic::Li => &LOAD,
        Mnemonic::B => &NAME,
        Mnemonic::BranchOrder(_) => &TWO_NAME,
    }
}

/// If there is only one register, it is the jump's target.
fn jalr_operands(words: &[Word]) -> &'static [Wanted]
    ensures { result.now ≡ instruction_operands Jalr (map word_seen words.now) }
{
    if words.len() < 2 { &ONE } else { &TWO }
}

/// An operand in memory may be without its number.
fn memory_operands(words: &[Word]) -> &'static [Wanted]
    ensures { result.now ≡ memory_operands (has_open (map word_seen words.now) 1) }
{
    if has_open(words, 1) {
        &BARE_MEMORY
    } else {
        &MEMORY
    }
}

fn imm_operands(op: ImmOp) -> &'static [Wanted]
    ensures { result.now ≡ two_registers (Number (imm_range op) ∷ []) }
{
    match op {
        ImmOp::Addi | ImmOp::Addiu | ImmOp::Slti | ImmOp::Sltiu => &SIGNED,
        ImmOp::Andi | ImmOp::Ori | ImmOp::Xori => &UNSIGNED,
    }
}
