//! Takes single steps of a run: passes a value to the frame that waits for it.

ghost use Rattle.std.specs.Prelude.{◌≡◌, ◌∷◌, [], ◌++◌, ℕ, List, None, IfErr, IfOk};
ghost use Rattle.cool_ports.specs.Answers.{Leaves};
ghost use Rattle.cool_ports.specs.SinkPuts.{seen};
ghost use Rattle.cool_ports.specs.Taking.{Took};
ghost use Rattle.cool_syntax.specs.Bare.{nowhere};
ghost use Rattle.cool_classes.specs.Chains.{Class};
ghost use Rattle.cool_rules.specs.Rules.{class_named};
ghost use Rattle.cool_meaning.specs.Evaluation as meaning;
ghost use Rattle.cool_eval.specs.Configurations.{env_of, focus_of, frame_of, frames_of, state_of, Comes, IsResultOn, IsQuiet};
ghost use Rattle.cool_eval.specs.Counts.{Counted, FaultsInCalls, IsInner};
ghost use Rattle.cool_eval.specs.Devices.{OnDevices, Reaches};
ghost use Rattle.cool_eval.specs.Groups.{WaitsInControl, WaitsToBind, WaitsToOperate};
ghost use Rattle.cool_eval.specs.StackMachine as steps;
ghost use Rattle.cool_eval.specs.StackMachine.{returned, after, Continue, Receiver};
ghost use Rattle.cool_eval.specs.Ready.{IsReady};
ghost use Rattle.cool_eval.specs.Running.{Steps};
ghost use Rattle.cool_eval.specs.Values.{value_of};

use crate::call::{begin_args, call};
use crate::control::{begin_test, bind, choose, next_item, pick, turn};
use crate::ending::Ending;
use crate::expression::{begin, begin_under};
use crate::frame::{Focus, Frame};
use crate::machine::{Machine, add};
use crate::numbers::{compare, negate, operate};
use crate::object::{begin_new, start_values};
use crate::scene::{RunSetting, Scene};
use crate::store::location_after;
use crate::value::Value;
use cool_ports::{Sink, Source};
use cool_syntax::{Name, Place};

/// A value comes to what waits for it.
#[inline(always)]
#[tactic(auto, using(crate::proofs::QuietFrames::quiet_else, crate::proofs::QuietSteps::quiet_counts, crate::proofs::QuietSteps::quiet_faults, cool_ports::proofs::InputsInParts::took_nothing), unfolding(crate::specs::StackMachine::returned))]
fn give<'a, S: Source, K: Sink>(
    setting: &RunSetting<'a>,
    machine: &mut Machine<'a>,
    frame: Frame<'a>,
    value: Value,
    source: &mut S,
    sink: &mut K,
) -> Result<Focus<'a>, Ending>
    requires ready { IsReady setting.now.table.now setting.now.layouts.now }
    ensures reaches { OnDevices machine.old.ended (S.past source.old) (S.past source.new) (seen (K.held sink.old) (K.puts sink.old)) (λ first output input rest. Reaches setting.now.table.now result machine.new first output input rest (seen (K.held sink.new) (K.puts sink.new))
        (returned setting.now.table.now (frame_of setting.now.table.now frame.entry) (value_of value) (frames_of setting.now.table.now machine.old) (state_of machine.old input output) machine.old.left)) }
    ensures took { Took machine.old.ended machine.new.ended (S.past source.old) (S.past source.new) (S.left source.old) (S.left source.new) }
    ensures spent { FaultsInCalls result machine.old.left machine.new.left }
    ensures counts { Counted result (S.faults source.old) (S.faults source.new) (K.faults sink.old) (K.faults sink.new) }
{
    match frame {
        Frame::Receiver {
            at,
            class,
            name,
            given,
        } => call(
            setting, machine, at, class, name, value, given, source, sink,
        ),
        quiet => resume(setting, machine, quiet, value),
    }
}

/// A value comes to what waits for it and calls no method.
#[inline(always)]
#[tactic(auto, using(crate::proofs::StoredValues::stored_more), unfolding(crate::specs::StackMachine::returned))]
fn resume<'a>(
    setting: &RunSetting<'a>,
    machine: &mut Machine<'a>,
    frame: Frame<'a>,
    value: Value,
) -> Result<Focus<'a>, Ending>
    requires ready { IsReady setting.now.table.now setting.now.layouts.now }
    requires quiet { IsQuiet frame }
    ensures comes { (input output : List ℕ) → Comes setting.now.table.now result machine.new input output
        (returned setting.now.table.now (frame_of setting.now.table.now frame.entry) (value_of value) (frames_of setting.now.table.now machine.old) (state_of machine.old input output) machine.old.left) }
    ensures ended { machine.new.ended ≡ machine.old.ended }
    ensures inner { IfErr result IsInner }
{
    match frame {
        Frame::Argument {
            scene,
            mut given,
            rest,
            call,
        } => {
            add(&mut given, value)?;
            begin_args(machine, scene, given, rest, call)
        }
        frame => match &frame {
            Frame::Choose { .. } | Frame::Turn { .. } | Frame::Again { .. } | Frame::Items { .. } =>
                resume_control(machine, frame, value),
            Frame::AssignTo { .. } | Frame::Bind { .. } | Frame::Pick { .. } | Frame::Fill { .. } =>
                resume_binding(setting, machine, frame, value),
            Frame::TestVoid
            | Frame::Invert
            | Frame::Negate { .. }
            | Frame::Operand { .. }
            | Frame::Operate { .. }
            | Frame::Compared { .. }
            | Frame::CompareTo { .. } => resume_operator(machine, frame, value),
            _ => unreachable!(),
        },
    }
}

/// A value comes to a condition, a loop or a block.
#[tactic(auto, unfolding(crate::specs::StackMachine::returned))]
fn resume_control<'a>(
    machine: &mut Machine<'a>,
    frame: Frame<'a>,
    value: Value,
) -> Result<Focus<'a>, Ending>
    requires group { WaitsInControl frame }
    ensures comes { (p : List Class) (input output : List ℕ) → Comes p result machine.new input output
        (returned p (frame_of p frame.entry) (value_of value) (frames_of p machine.old) (state_of machine.old input output) machine.old.left) }
    ensures ended { machine.new.ended ≡ machine.old.ended }
    ensures inner { IfErr result IsInner }
{
    match frame {
        Frame::Choose {
            scene,
            first,
            second,
        } => choose(machine, scene, first, second, value),
        Frame::Turn { scene, test, body } => turn(machine, scene, test, body, value),
        Frame::Again { scene, test, body } => begin_test(machine, scene, test, body),
        Frame::Items { scene, rest } => next_item(machine, scene, value, rest),
        _ => unreachable!(),
    }
}

/// A value comes to a variable, to the branches of a case or to an attribute.
#[tactic(auto, unfolding(crate::specs::StackMachine::returned, crate::specs::StackMachine::after))]
fn resume_binding<'a>(
    setting: &RunSetting<'a>,
    machine: &mut Machine<'a>,
    frame: Frame<'a>,
    value: Value,
) -> Result<Focus<'a>, Ending>
    requires ready { IsReady setting.now.table.now setting.now.layouts.now }
    requires group { WaitsToBind frame }
    ensures comes { (input output : List ℕ) → Comes setting.now.table.now result machine.new input output
        (returned setting.now.table.now (frame_of setting.now.table.now frame.entry) (value_of value) (frames_of setting.now.table.now machine.old) (state_of machine.old input output) machine.old.left) }
    ensures ended { machine.new.ended ≡ machine.old.ended }
    ensures inner { IfErr result IsInner }
{
    match frame {
        Frame::AssignTo { scene, name } => {
            Ok(Focus::Return(assign(setting, machine, &scene, name, value)?))
        }
        Frame::Bind { scene, name, body } => bind(setting, machine, &scene, name, body, value),
        Frame::Pick {
            scene,
            at,
            branches,
        } => pick(setting, machine, &scene, at, &branches, value),
        Frame::Fill {
            object,
            location,
            rest,
        } => {
            machine.store.store(location, value);
            Ok(Focus::Start {
                object,
                location: location_after(location, 1)?,
                rest,
            })
        }
        _ => unreachable!(),
    }
}

/// A value comes to an operator.
#[tactic(auto, unfolding(crate::specs::StackMachine::returned, crate::specs::StackMachine::after))]
fn resume_operator<'a>(
    machine: &mut Machine<'a>,
    frame: Frame<'a>,
    value: Value,
) -> Result<Focus<'a>, Ending>
    requires group { WaitsToOperate frame }
    ensures comes { (p : List Class) (input output : List ℕ) → Comes p result machine.new input output
        (returned p (frame_of p frame.entry) (value_of value) (frames_of p machine.old) (state_of machine.old input output) machine.old.left) }
    ensures ended { machine.new.ended ≡ machine.old.ended }
    ensures inner { IfErr result IsInner }
{
    match frame {
        Frame::TestVoid => Ok(Focus::Return(Value::Bool(matches!(&value, Value::Void)))),
        Frame::Invert => match value {
            Value::Bool(truth) => Ok(Focus::Return(Value::Bool(!truth))),
            _ => Err(Ending::Stuck),
        },
        Frame::Negate { at } => Ok(Focus::Return(negate(at, &value)?)),
        Frame::Operand {
            scene,
            at,
            op,
            right,
        } => {
            let left = value;
            begin_under(machine, scene, Frame::Operate { at, op, left }, right)
        }
        Frame::Operate { at, op, left } => Ok(Focus::Return(operate(op, at, &left, &value)?)),
        Frame::Compared { scene, op, right } => {
            let left = value;
            begin_under(machine, scene, Frame::CompareTo { op, left }, right)
        }
        Frame::CompareTo { op, left } => Ok(Focus::Return(compare(op, &left, &value)?)),
        _ => unreachable!(),
    }
}

/// Gives a variable or an attribute a value, which is the result.
fn assign<'a>(
    setting: &RunSetting<'a>,
    machine: &mut Machine<'a>,
    scene: &Scene<'a>,
    name: &Name,
    value: Value,
) -> Result<Value, Ending>
    requires ready { IsReady setting.now.table.now setting.now.layouts.now }
    ensures comes { (input output : List ℕ) → IsResultOn result machine.new input output
        (meaning.assign (env_of setting.now.table.now scene.now) name.now (value_of value) (state_of machine.old input output) machine.old.left).outcome }
    ensures frames { machine.new.frames ≡ machine.old.frames }
    ensures ended { machine.new.ended ≡ machine.old.ended }
    ensures inner { IfErr result IsInner }
{
    let location = scene.location(setting, name)?;
    let copy = value.copy()?;
    machine.store.store(location, copy);
    Ok(value)
}

/// Begins `(new Main).main()`.
pub(crate) fn first<'a>(
    setting: &RunSetting<'a>,
    machine: &mut Machine<'a>,
    main: &'a Name,
    method: &'a Name,
) -> Result<Focus<'a>, Ending>
    requires ready { IsReady setting.now.table.now setting.now.layouts.now }
    ensures comes { (input output : List ℕ) → Comes setting.now.table.now result machine.new input output
        (steps.begin_new setting.now.table.now (class_named setting.now.table.now main.now) (Receiver nowhere None method.now [] ∷ frames_of setting.now.table.now machine.old) (state_of machine.old input output) machine.old.left) }
    ensures ended { machine.new.ended ≡ machine.old.ended }
    ensures inner { IfErr result IsInner }
{
    let at = Place {
        file: 0,
        line: 0,
        byte: 0,
    };
    machine.wait(Frame::Receiver {
        at,
        class: None,
        name: method,
        given: Vec::new(setting.alloc),
    })?;
    begin_new(setting, machine, setting.table.id(main))
}

/// One step. `Ok(None)` comes where the value of the whole was returned.
#[inline(always)]
#[tactic(auto, using(crate::proofs::QuietSteps::quiet_counts, crate::proofs::QuietSteps::quiet_faults, cool_ports::proofs::InputsInParts::took_nothing))]
pub(crate) fn step<'a, S: Source, K: Sink>(
    setting: &RunSetting<'a>,
    machine: &mut Machine<'a>,
    focus: Focus<'a>,
    source: &mut S,
    sink: &mut K,
) -> Result<Option<Focus<'a>>, Ending>
    requires ready { IsReady setting.now.table.now setting.now.layouts.now }
    ensures reaches { OnDevices machine.old.ended (S.past source.old) (S.past source.new) (seen (K.held sink.old) (K.puts sink.old)) (λ first output input rest. Steps setting.now.table.now result machine.new first output input rest (seen (K.held sink.new) (K.puts sink.new))
        (steps.step setting.now.table.now (focus_of setting.now.table.now focus.entry) (frames_of setting.now.table.now machine.old) (state_of machine.old input output) machine.old.left)) }
    ensures took { Took machine.old.ended machine.new.ended (S.past source.old) (S.past source.new) (S.left source.old) (S.left source.new) }
    ensures spent { FaultsInCalls result machine.old.left machine.new.left }
    ensures counts { Counted result (S.faults source.old) (S.faults source.new) (K.faults sink.old) (K.faults sink.new) }
{
    match focus {
        Focus::Begin { scene, part } => Ok(Some(begin(setting, machine, scene, part)?)),
        Focus::Start {
            object,
            location,
            rest,
        } => Ok(Some(start_values(setting, machine, object, location, rest)?)),
        Focus::Return(value) => match machine.frames.pop() {
            None => Ok(None),
            Some(frame) => Ok(Some(give(setting, machine, frame, value, source, sink)?)),
        },
    }
}
