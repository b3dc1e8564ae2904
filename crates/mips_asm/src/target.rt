//! The target of a branch, jump or `la`: the place of its label, and whether the instruction can reach that place.

ghost use Rattle.std.specs.Prelude.{◌≡◌, ◌+◌, ◌≤◌, Some};
ghost use Rattle.mips_isa.specs.Lines.{instruction_of};
ghost use Rattle.mips_isa.specs.Assembly.{offset, is_text, is_reach, instruction_reaches, branch_reaches, jump_reaches};
ghost use Rattle.mips_asm.specs.Places.{places_of};
ghost use Rattle.mips_asm.specs.Parts.{target_in, found};

use crate::labels::Labels;
use mips_isa::{AsmInstr, DATA_START, Label, Place, Segment};

/// The target of an instruction: the place of the label that it uses.
#[derive(Clone, Copy)]
pub enum Target {
    /// It uses none.
    Unused,
    /// The label is not defined.
    Missing,
    /// The label is there.
    Found(Place),
}

/// The place of the label that an instruction uses.
pub fn target_of(labels: &Labels, instruction: &AsmInstr) -> Target
    ensures { result ≡ target_in (places_of labels.now) (instruction_of instruction.now) }
{
    match instruction {
        AsmInstr::ToTwo { target, .. }
        | AsmInstr::ToOne { target, .. }
        | AsmInstr::ToJump { target, .. }
        | AsmInstr::B { target }
        | AsmInstr::BranchZero { target, .. }
        | AsmInstr::BranchOrder { target, .. }
        | AsmInstr::La { label: target, .. } => target_at(labels, target),
        AsmInstr::Plain(_)
        | AsmInstr::Li { .. }
        | AsmInstr::Move { .. }
        | AsmInstr::Neg { .. }
        | AsmInstr::Nop
        | AsmInstr::Mul { .. } => Target::Unused,
    }
}

fn target_at(labels: &Labels, label: &Label) -> Target
    ensures { result ≡ found (places_of labels.now label.now) }
{
    match labels.place(label.as_slice()) {
        Some(place) => Target::Found(place),
        None => Target::Missing,
    }
}

/// Whether an instruction at an address may use a target at this place.
pub fn may_reach(instruction: &AsmInstr, at: u32, place: Place) -> bool
    requires { at ≤ DATA_START }
    ensures { result ≡ instruction_reaches (λ _. Some place) at (instruction_of instruction.now) }
{
    match instruction {
        AsmInstr::ToTwo { .. }
        | AsmInstr::ToOne { .. }
        | AsmInstr::B { .. }
        | AsmInstr::BranchZero { .. } => is_near(at, place),
        AsmInstr::BranchOrder { .. } => is_near(at + 4, place),
        AsmInstr::ToJump { .. } => is_below_data(place),
        AsmInstr::La { .. }
        | AsmInstr::Plain(_)
        | AsmInstr::Li { .. }
        | AsmInstr::Move { .. }
        | AsmInstr::Neg { .. }
        | AsmInstr::Nop
        | AsmInstr::Mul { .. } => true,
    }
}

/// Whether a branch at an address reaches a place.
fn is_near(at: u32, place: Place) -> bool
    requires { at ≤ DATA_START + 4 }
    ensures { result ≡ branch_reaches at (Some place) }
{
    is_of_text(place.segment) && is_half(words_to(at, place.address))
}

/// Whether a jump reaches a place.
fn is_below_data(place: Place) -> bool
    ensures { result ≡ jump_reaches (Some place) }
{
    is_of_text(place.segment) && place.address < DATA_START
}

/// Whether a segment is the text.
pub fn is_of_text(segment: Segment) -> bool
    ensures { result ≡ is_text segment }
{
    match segment {
        Segment::Text => true,
        Segment::Data => false,
    }
}

/// Whether a number of words fits into an instruction.
fn is_half(words: i32) -> bool
    ensures { result ≡ is_reach words }
{
    -32768 <= words && words <= 32767
}

/// The words from the instruction after an address to a target.
pub fn words_to(at: u32, target: u32) -> i32
    requires { at ≤ DATA_START + 4 }
    ensures { result ≡ offset at target }
{
    let behind = at + 4;
    if behind <= target {
        ((target - behind) / 4) as i32
    } else {
        -1 - ((behind - target) / 4).saturating_sub(1) as i32
    }
}
