//! The type `Arm`: the code of a branch of a `case`, and the function that inserts it so that branches of deeper classes are tried first.

ghost use Rattle.std.specs.Prelude.{◌≡◌, ◌≤◌, ◌++◌, ◌∷◌, length, map, take, drop, OnOk};
ghost use Rattle.cool_codegen.specs.Spans.{branch_of, with_branch, Branch};

use mips_isa::Line;
use std::alloc::AllocError;

/// The lines of a branch, the spans inside it, counted from its first line, and the number of classes above its class.
#[derive(Drop)]
pub struct Arm<S> {
    pub depth: u32,
    pub lines: Vec<Line>,
    pub spans: S,
}

/// Puts a branch after those of classes that are no less deep, and before the others.
pub fn insert_arm<S: Drop>(arms: &mut Vec<Arm<S>>, arm: Arm<S>) -> Result<(), AllocError>
    ensures { OnOk result (map branch_of arms.new.items ≡ with_branch (map branch_of arms.old.items) (branch_of arm)) }
{
    let place = place_among(arms, arm.depth);
    arms.insert(place, arm)?;
    Ok(())
}

/// The number of branches before the first one of a class that is less deep.
fn place_among<S>(arms: &[Arm<S>], depth: u32) -> usize
    ensures within { result ≤ length arms.now }
    ensures put { (b : Branch S) → b.arm.depth ≡ depth → with_branch (map branch_of arms.now) b ≡ take result (map branch_of arms.now) ++ b ∷ drop result (map branch_of arms.now) }
{
    for index in 0..arms.len() {
        if arms[index].depth < depth {
            return index;
        }
    }
    arms.len()
}
