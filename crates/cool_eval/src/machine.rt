//! The state of a run: the stack of frames, the store, and the number of steps that are left.

ghost use Rattle.std.specs.Prelude.{◌≡◌, ◌∷◌, [], ◌++◌, ◌+◌, List, IfErr, IfOk, OnErr, OnOk};
ghost use Rattle.cool_classes.specs.Chains.{Class};
ghost use Rattle.cool_eval.specs.Configurations.{frame_of, frames_of};

use crate::ending::Ending;
use crate::frame::Frame;
use crate::scene::Scene;
use crate::store::Store;
use std::alloc::Global;
use std::rc::Rc;

/// The frames of a run, the store and the steps left.
#[derive(Drop)]
pub(crate) struct Machine<'a> {
    pub(crate) frames: Vec<Frame<'a>>,
    pub(crate) store: Store,
    pub(crate) left: u64,
    pub(crate) ended: bool,
}

impl<'a> Machine<'a> {
    /// One more frame waits. Compiled into its callers, it writes the parts of the frame to where the frame waits, and no others.
    #[inline(always)]
    #[tactic(auto, using(crate::proofs::Stacks::stack_more))]
    pub(crate) fn wait(&mut self, frame: Frame<'a>) -> Result<(), Ending>
        ensures frames { OnOk result ((p : List Class) → frames_of p self.new ≡ frame_of p frame.entry ∷ frames_of p self.old) }
        ensures memory { IfErr result (λ e. e ≡ Ending.Memory) }
        ensures store { self.new.store ≡ self.old.store }
        ensures left { self.new.left ≡ self.old.left }
        ensures ended { self.new.ended ≡ self.old.ended }
    {
        match self.frames.reserve(1) {
            Ok(()) => {
                self.frames.push_reserved(frame);
                Ok(())
            }
            Err(_) => Err(Ending::Memory),
        }
    }

    /// Spends a step. `StepLimit` comes where none is left.
    pub(crate) fn spend(&mut self) -> Result<(), Ending>
        ensures spent { OnOk result (self.old.left ≡ self.new.left + 1) }
        ensures limit { IfErr result (λ e. e ≡ Ending.StepLimit) }
        ensures none { OnErr result ((self.old.left ≡ 0) × (self.new.left ≡ 0)) }
        ensures frames { self.new.frames ≡ self.old.frames }
        ensures store { self.new.store ≡ self.old.store }
        ensures ended { self.new.ended ≡ self.old.ended }
    {
        if self.left == 0 {
            return Err(Ending::StepLimit);
        }
        self.left -= 1;
        Ok(())
    }
}

/// No items yet, and room for so many. Returns `Err` only if memory runs out.
#[inline(always)]
pub(crate) fn room<T: Drop>(alloc: Global, count: usize) -> Result<Vec<T>, Ending>
    ensures empty { IfOk result (λ items. items.items ≡ []) }
    ensures memory { IfErr result (λ e. e ≡ Ending.Memory) }
{
    match Vec::with_capacity(alloc, count) {
        Ok(items) => Ok(items),
        Err(_) => Err(Ending::Memory),
    }
}

/// Adds an item.
pub(crate) fn add<T: Drop>(items: &mut Vec<T>, item: T) -> Result<(), Ending>
    ensures added { OnOk result (items.new.items ≡ items.old.items ++ item ∷ []) }
    ensures memory { IfErr result (λ e. e ≡ Ending.Memory) }
{
    match items.push(item) {
        Ok(()) => Ok(()),
        Err(_) => Err(Ending::Memory),
    }
}

/// A scene that several may hold. Returns `Err` only if memory runs out.
pub(crate) fn shared<'a>(alloc: Global, scene: Scene<'a>) -> Result<Rc<Scene<'a>>, Ending>
    ensures shared { IfOk result (λ copy. copy.value ≡ scene.entry) }
    ensures memory { IfErr result (λ e. e ≡ Ending.Memory) }
{
    match Rc::new(alloc, scene) {
        Ok(copy) => Ok(copy),
        Err(_) => Err(Ending::Memory),
    }
}

/// The same scene. Returns `Err` only if memory runs out.
#[inline(always)]
pub(crate) fn share<'a>(scene: &Rc<Scene<'a>>) -> Result<Rc<Scene<'a>>, Ending>
    ensures shared { IfOk result (λ copy. copy.value ≡ scene.now.value) }
    ensures memory { IfErr result (λ e. e ≡ Ending.Memory) }
{
    match scene.clone() {
        Ok(copy) => Ok(copy),
        Err(_) => Err(Ending::Memory),
    }
}
