//! The function `depths`: it computes the number of ancestors of each class definition, and finds the definitions on cycles of inheritance (the Cool manual,
//! section 3).
//!
//! A definition is named by its position among the definitions, its class by its number, which is higher by the number of the basic classes. Each
//! definition is passed once, so the cost is linear.

ghost use Rattle.std.specs.Prelude.{◌≡◌, ◌+◌, ◌-◌, ◌<◌, ◌^◌, ◌++◌, List, [], length, IfOk, OnOk};
ghost use Rattle.cool_classes.specs.declared.class_id.ClassId as number;
ghost use Rattle.std.specs.List.{AllByRecursion};
ghost use Rattle.cool_classes.specs.Cycles.{AreCycles};
ghost use Rattle.cool_classes.specs.Depths.{parents_with_basic, HasDepth, AreDepths};
ghost use Rattle.cool_classes.specs.Walks.{settled, cycle_of, IsClimb, AreWalked};

use crate::basic_classes::BASIC_CLASSES;
use crate::class_id::{ClassId, OBJECT};
use crate::path::Path;
use std::alloc::{AllocError, Global};

/// The result of walking the definitions.
#[derive(Drop)]
pub(crate) struct Hierarchy {
    /// The number of classes above each definition: none for one on a cycle or below one.
    pub(crate) known: Vec<Option<u32>>,
    /// The definitions on cycles.
    pub(crate) cyclic: Vec<usize>,
}

/// The end of a climb.
#[derive(Clone, Copy)]
pub(crate) enum Above {
    /// A class of this depth.
    Known(u32),
    /// A definition that the climb has passed.
    Cycle(usize),
    /// A definition that leads to a cycle found before.
    Lost,
}

/// The depth of each definition that has a chain, and the definitions on cycles. Returns `Err` only if memory runs out.
pub(crate) fn depths(alloc: Global, parents: &[ClassId]) -> Result<Hierarchy, AllocError>
    requires parents { AllByRecursion (λ q. q.0 < length parents.now + 5) parents.now }
    requires few { length parents.now < 2 ^ 32 - 5 }
    ensures cyclic { IfOk result (λ found. AllByRecursion (λ k. k < length parents.now) found.cyclic.items) }
    ensures cycles { IfOk result (λ found. AreCycles parents.now found.cyclic.items) }
    ensures known { IfOk result (λ found. found.cyclic.items ≡ [] → AreDepths parents.now found.known.items) }
{
    let mut found = Hierarchy {
        known: Vec::from_elem(alloc, None, parents.len())?,
        cyclic: Vec::new(alloc),
    };
    let mut passed = Vec::from_elem(alloc, None, parents.len())?;
    for start in 0..parents.len() {
        walk(alloc, parents, &mut found, &mut passed, start)?;
    }
    Ok(found)
}

/// Finds the depth of a definition and of all above it, or a cycle that they lead to. Returns `Err` only if memory runs out.
fn walk(
    alloc: Global,
    parents: &[ClassId],
    found: &mut Hierarchy,
    passed: &mut [Option<usize>],
    start: usize,
) -> Result<(), AllocError>
    requires within { start < length parents.now }
    requires parents { AllByRecursion (λ q. q.0 < length parents.now + 5) parents.now }
    requires few { length parents.now < 2 ^ 32 - 5 }
    requires walked { AreWalked parents.now start found.old.known.items found.old.cyclic.items passed.old }
    ensures { OnOk result (AreWalked parents.now (start + 1) found.new.known.items found.new.cyclic.items passed.new) }
{
    let mut path = Path::new(alloc);
    match climb(parents, &found.known, passed, &mut path, start)? {
        Above::Known(depth) => settle(&mut found.known, path, depth),
        Above::Cycle(first) => note_cycle(&mut found.cyclic, path, first)?,
        Above::Lost => {}
    }
    Ok(())
}

/// Climbs from a definition to a class whose depth is known, or to a definition that was passed. Returns `Err` only if memory runs out.
fn climb(
    parents: &[ClassId],
    known: &[Option<u32>],
    passed: &mut [Option<usize>],
    path: &mut Path,
    start: usize,
) -> Result<Above, AllocError>
    requires within { start < length parents.now }
    requires parents { AllByRecursion (λ q. q.0 < length parents.now + 5) parents.now }
    requires known { length known.now ≡ length parents.now }
    requires passed { length passed.old ≡ length parents.now }
    requires fresh { path.old ≡ [] }
    ensures { IfOk result (λ above. IsClimb parents.now known.now passed.old start passed.new path.new above) }
{
    let mut class = start;
    loop {
        if let Some(depth) = known[class] {
            return Ok(Above::Known(depth));
        }
        if let Some(first) = passed[class] {
            return Ok(if first == start {
                Above::Cycle(class)
            } else {
                Above::Lost
            });
        }
        passed[class] = Some(start);
        path.push(class)?;
        let parent = parents[class];
        if parent.0 < BASIC_CLASSES {
            return Ok(Above::Known(basic_depth(parent)));
        }
        class = (parent.0 - BASIC_CLASSES) as usize;
    }
}

/// The number of classes above a basic class.
fn basic_depth(class: ClassId) -> u32
    requires { class.0 < 5 }
    ensures depth { (parents : List number.ClassId) → HasDepth (parents_with_basic parents) class.0 result }
    ensures low { result < 2 }
{
    if class == OBJECT { 0 } else { 1 }
}

/// Notes the depths of the definitions of a path, below a class of this depth.
fn settle(known: &mut [Option<u32>], mut path: Path, above: u32)
    requires within { AllByRecursion (λ k. k < length known.old) path }
    requires room { above + length path < 2 ^ 32 }
    ensures { known.new ≡ settled path above known.old }
{
    let mut depth = above;
    while let Some(class) = path.pop() {
        depth += 1;
        known[class] = Some(depth);
    }
}

/// Notes the definitions of a path from its last one back to this one. Returns `Err` only if memory runs out.
fn note_cycle(cyclic: &mut Vec<usize>, mut path: Path, first: usize) -> Result<(), AllocError>
    ensures { OnOk result (cyclic.new.items ≡ cyclic.old.items ++ cycle_of first path) }
{
    while let Some(class) = path.pop() {
        cyclic.push(class)?;
        if class == first {
            return Ok(());
        }
    }
    Ok(())
}
