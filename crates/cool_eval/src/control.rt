//! Begins and resumes loops, blocks, variable bindings, conditionals and cases.

ghost use Rattle.std.specs.Prelude.{◌≡◌, ◌∷◌, [], ◌++◌, ℕ, List, IfErr, IfOk};
ghost use Rattle.cool_classes.specs.Chains.{Class};
ghost use Rattle.cool_syntax.specs.Tree.{of_list, of_twigs};
ghost use Rattle.cool_meaning.specs.Evaluation.{class_or};
ghost use Rattle.cool_meaning.specs.Meters.{CaseVoid};
ghost use Rattle.cool_eval.specs.Configurations.{env_of, frames_of, state_of, Comes};
ghost use Rattle.cool_eval.specs.Counts.{IsInner};
ghost use Rattle.cool_eval.specs.StackMachine.{next_item as item_next, bind as variable_bound, pick as branch_picked, choose as branch_chosen, turn as turn_begun, Continue, Turn, Begin};
ghost use Rattle.cool_eval.specs.Ready.{IsReady};
ghost use Rattle.cool_eval.specs.Values.{value_of};

use crate::ending::{Ending, RunError};
use crate::frame::{Focus, Frame};
use crate::machine::{Machine, share, shared};
use crate::part::{Part, Parts, Twigs};
use crate::scene::{RunSetting, Scene};
use crate::value::Value;
use cool_syntax::{Name, Place};
use std::rc::Rc;

/// Begins the test of a loop.
pub(crate) fn begin_test<'a>(
    machine: &mut Machine<'a>,
    scene: Rc<Scene<'a>>,
    test: Part<'a>,
    body: Part<'a>,
) -> Result<Focus<'a>, Ending>
    ensures comes { (p : List Class) (input output : List ℕ) → Comes p result machine.new input output
        (Continue (Begin (value_of scene.entry.value.me) (env_of p scene.entry.value) test.entry) (Turn (value_of scene.entry.value.me) (env_of p scene.entry.value) test.entry body.entry ∷ frames_of p machine.old) (state_of machine.old input output) machine.old.left) }
    ensures ended { machine.new.ended ≡ machine.old.ended }
    ensures inner { IfErr result IsInner }
{
    let copy = share(&scene)?;
    let part = test.copy();
    machine.wait(Frame::Turn { scene, test, body })?;
    Ok(Focus::Begin { scene: copy, part })
}

/// The next item of a block, or the value of the one before.
#[inline(always)]
#[tactic(auto, unfolding(crate::specs::StackMachine::next_item))]
pub(crate) fn next_item<'a>(
    machine: &mut Machine<'a>,
    scene: Rc<Scene<'a>>,
    value: Value,
    items: Parts<'a>,
) -> Result<Focus<'a>, Ending>
    ensures comes { (p : List Class) (input output : List ℕ) → Comes p result machine.new input output
        (item_next (value_of scene.entry.value.me) (env_of p scene.entry.value) (value_of value) (of_list items.entry) (frames_of p machine.old) (state_of machine.old input output) machine.old.left) }
    ensures ended { machine.new.ended ≡ machine.old.ended }
    ensures inner { IfErr result IsInner }
{
    match items.split() {
        None => Ok(Focus::Return(value)),
        Some((part, rest)) => {
            let copy = share(&scene)?;
            machine.wait(Frame::Items { scene, rest })?;
            Ok(Focus::Begin { scene: copy, part })
        }
    }
}

/// An expression with one more variable, at a new location.
#[tactic(auto, using(crate::proofs::LocalsAtEnd::locals_more), unfolding(crate::specs::StackMachine::bind))]
pub(crate) fn bind<'a>(
    setting: &RunSetting<'a>,
    machine: &mut Machine<'a>,
    scene: &Scene<'a>,
    name: &'a Name,
    part: Part<'a>,
    value: Value,
) -> Result<Focus<'a>, Ending>
    ensures comes { (p : List Class) (input output : List ℕ) → Comes p result machine.new input output
        (variable_bound (value_of scene.now.me) (env_of p scene.now) name.now part.entry (value_of value) (frames_of p machine.old) (state_of machine.old input output) machine.old.left) }
    ensures ended { machine.new.ended ≡ machine.old.ended }
    ensures inner { IfErr result IsInner }
{
    let location = machine.store.len();
    machine.store.locate(value)?;
    let inner = scene.with(setting.alloc, name, location)?;
    Ok(Focus::Begin {
        scene: shared(setting.alloc, inner)?,
        part,
    })
}

/// The branch of a case for a value.
#[tactic(auto, unfolding(crate::specs::StackMachine::pick, crate::specs::StackMachine::take_named))]
pub(crate) fn pick<'a>(
    setting: &RunSetting<'a>,
    machine: &mut Machine<'a>,
    scene: &Scene<'a>,
    at: Place,
    branches: &Twigs<'a>,
    value: Value,
) -> Result<Focus<'a>, Ending>
    requires ready { IsReady setting.now.table.now setting.now.layouts.now }
    ensures comes { (input output : List ℕ) → Comes setting.now.table.now result machine.new input output
        (branch_picked setting.now.table.now (value_of scene.now.me) (env_of setting.now.table.now scene.now) at (of_twigs branches.now) (value_of value) (class_or (CaseVoid at) (value_of value) (state_of machine.old input output) machine.old.left).outcome (frames_of setting.now.table.now machine.old)) }
    ensures ended { machine.new.ended ≡ machine.old.ended }
    ensures inner { IfErr result IsInner }
{
    let Some(class) = setting.class_of(&value) else {
        return Err(Ending::Error(RunError::CaseVoid { at }));
    };
    match setting.nearest(branches, class) {
        None => Err(Ending::Error(RunError::NoBranch { at, class })),
        Some((name, part)) => bind(setting, machine, scene, name, part, value),
    }
}

/// The branch of a condition for the value of its predicate.
#[tactic(auto, unfolding(crate::specs::StackMachine::choose))]
pub(crate) fn choose<'a>(
    machine: &Machine<'a>,
    scene: Rc<Scene<'a>>,
    first: Part<'a>,
    second: Part<'a>,
    value: Value,
) -> Result<Focus<'a>, Ending>
    ensures comes { (p : List Class) (input output : List ℕ) → Comes p result machine.now input output
        (branch_chosen (value_of scene.entry.value.me) (env_of p scene.entry.value) first.entry second.entry (value_of value) (frames_of p machine.now) (state_of machine.now input output) machine.now.left) }
    ensures inner { IfErr result IsInner }
{
    match value {
        Value::Bool(true) => Ok(Focus::Begin { scene, part: first }),
        Value::Bool(false) => Ok(Focus::Begin {
            scene,
            part: second,
        }),
        _ => Err(Ending::Stuck),
    }
}

/// The next turn of a loop for the value of its predicate, or its end.
#[tactic(auto, unfolding(crate::specs::StackMachine::turn))]
pub(crate) fn turn<'a>(
    machine: &mut Machine<'a>,
    scene: Rc<Scene<'a>>,
    test: Part<'a>,
    body: Part<'a>,
    value: Value,
) -> Result<Focus<'a>, Ending>
    ensures comes { (p : List Class) (input output : List ℕ) → Comes p result machine.new input output
        (turn_begun (value_of scene.entry.value.me) (env_of p scene.entry.value) test.entry body.entry (value_of value) (frames_of p machine.old) (state_of machine.old input output) machine.old.left) }
    ensures ended { machine.new.ended ≡ machine.old.ended }
    ensures inner { IfErr result IsInner }
{
    match value {
        Value::Bool(true) => {
            machine.spend()?;
            let copy = share(&scene)?;
            let part = body.copy();
            machine.wait(Frame::Again { scene, test, body })?;
            Ok(Focus::Begin { scene: copy, part })
        }
        Value::Bool(false) => Ok(Focus::Return(Value::Void)),
        _ => Err(Ending::Stuck),
    }
}
