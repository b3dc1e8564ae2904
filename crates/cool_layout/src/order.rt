//! The function `preorder`: it lists the classes in preorder, so that each class comes before the classes that inherit from it.

ghost use Rattle.std.specs.Prelude.{◌≡◌, ◌<◌, ◌++◌, reverse, length, OnOk, IfOk};
ghost use Rattle.cool_layout.specs.Roots.{IsRooted};
ghost use Rattle.cool_layout.specs.Walks.{AreChildren, IsWalk};

use cool_classes::{ClassId, ClassTable, OBJECT};
use std::alloc::{AllocError, Global};

/// The classes in preorder, and for each the next class after it that is not below it.
#[derive(Drop)]
pub(crate) struct Walk {
    pub(crate) order: Vec<ClassId>,
    pub(crate) next: Vec<Option<ClassId>>,
}

/// Empty lists, as many as there are classes.
fn no_children(alloc: Global, t: &ClassTable) -> Result<Vec<Vec<ClassId>>, AllocError>
    ensures { IfOk result (λ all. AreChildren t.now 0 all.items) }
{
    let mut all = Vec::new(alloc);
    for _ in 0..t.count() {
        all.push(Vec::new(alloc))?;
    }
    Ok(all)
}

/// The classes that inherit from each class, by their numbers.
fn children_of(alloc: Global, t: &ClassTable) -> Result<Vec<Vec<ClassId>>, AllocError>
    ensures rooted { OnOk result (IsRooted t.now) }
    ensures children { IfOk result (λ all. AreChildren t.now (length t.now) all.items) }
{
    let mut all = no_children(alloc, t)?;
    for number in 0..t.count() {
        let class = ClassId(number);
        if let Some(above) = t.parent(class) {
            all[above.0 as usize].push(class)?;
        }
    }
    Ok(all)
}

/// Adds classes from the last one to the first.
fn add_reversed(waiting: &mut Vec<ClassId>, classes: &[ClassId]) -> Result<(), AllocError>
    ensures { OnOk result (waiting.new.items ≡ waiting.old.items ++ reverse classes.now) }
{
    for index in (0..classes.len()).rev() {
        waiting.push(classes[index])?;
    }
    Ok(())
}

/// The classes in preorder. Returns `Err` only if memory runs out.
pub(crate) fn preorder(alloc: Global, t: &ClassTable) -> Result<Walk, AllocError>
    ensures rooted { OnOk result (IsRooted t.now) }
    ensures walk { IfOk result (λ walk. IsWalk t.now walk) }
{
    let children = children_of(alloc, t)?;
    let mut order = Vec::new(alloc);
    let mut next = Vec::new(alloc);
    let mut waiting = vec![in alloc; OBJECT]?;
    while let Some(class) = waiting.pop() {
        order.push(class)?;
        next.push(waiting.as_slice().last().copied())?;
        add_reversed(&mut waiting, children[class.0 as usize].as_slice())?;
    }
    Ok(Walk { order, next })
}
