//! Begins the evaluation of an expression.

ghost use Rattle.std.specs.Prelude.{◌≡◌, ◌∷◌, [], ◌++◌, ◌<◌, ℕ, List, IfErr, IfOk};
ghost use Rattle.cool_classes.specs.Chains.{Class};
ghost use Rattle.cool_syntax.specs.NodeGroups.{IsBinary, IsBinding, IsCall, IsControl, IsUnary};
ghost use Rattle.cool_syntax.specs.NodeLists.{all_trees, made, HasPartsBelow};
ghost use Rattle.cool_syntax.specs.Tree.{tree_size};
ghost use Rattle.cool_meaning.specs.Evaluation as meaning;
ghost use Rattle.cool_meaning.specs.Lookups as lookups;
ghost use Rattle.cool_meaning.specs.Values as values;
ghost use Rattle.cool_eval.specs.Configurations.{env_of, frame_of, frames_of, state_of, Comes, IsResultAt};
ghost use Rattle.cool_eval.specs.Counts.{IsInner};
ghost use Rattle.cool_eval.specs.StackMachine.{after, begin_new as new_begun, begun, Begin, Continue, Return};
ghost use Rattle.cool_eval.specs.Ready.{IsReady};
ghost use Rattle.cool_eval.specs.Values.{value_of};

use crate::basic::copied;
use crate::call::begin_args;
use crate::control::{begin_test, next_item};
use crate::ending::Ending;
use crate::frame::{Focus, Frame};
use crate::machine::{Machine, room, share};
use crate::object::begin_new;
use crate::part::{Part, call_at, part_at, parts_at, twigs_at};
use crate::scene::{RunSetting, Scene};
use crate::value::Value;
use cool_classes::ClassId;
use cool_syntax::{Body, Name, Node, NodeId};
use std::rc::Rc;

/// Begins an expression. One with no other in it is evaluated.
#[tactic(auto, unfolding(crate::specs::StackMachine::begun))]
pub(crate) fn begin<'a>(
    setting: &RunSetting<'a>,
    machine: &mut Machine<'a>,
    scene: Rc<Scene<'a>>,
    part: Part<'a>,
) -> Result<Focus<'a>, Ending>
    requires ready { IsReady setting.now.table.now setting.now.layouts.now }
    ensures comes { (input output : List ℕ) → Comes setting.now.table.now result machine.new input output
        (begun setting.now.table.now (value_of scene.entry.value.me) (env_of setting.now.table.now scene.entry.value) part.entry (frames_of setting.now.table.now machine.old) (state_of machine.old input output) machine.old.left) }
    ensures ended { machine.new.ended ≡ machine.old.ended }
    ensures inner { IfErr result IsInner }
{
    let (body, id, node) = part.open();
    match node {
        Node::Dispatch { .. } | Node::StaticDispatch { .. } => {
            begin_call(setting, machine, scene, body, id, node)
        }
        Node::If { .. } | Node::While { .. } | Node::Block { .. } => {
            begin_control(machine, scene, body, id, node)
        }
        Node::Let { .. } | Node::Case { .. } => begin_binding(
            setting, machine, scene, body, id, node,
        ),
        Node::Assign { .. } | Node::IsVoid { .. } | Node::Neg { .. } | Node::Not { .. } => {
            begin_unary(machine, scene, body, id, node)
        }
        Node::Arith { .. } | Node::Compare { .. } => begin_binary(machine, scene, body, id, node),
        Node::New { class, .. } => begin_made(setting, machine, scene, &class.name),
        Node::Id { name, .. } => begin_name(setting, machine, scene, name),
        Node::Int { value, .. } => Ok(Focus::Return(Value::Int(i64::from(value.cast_signed())))),
        Node::Str { bytes, .. } => begin_string(setting, machine, bytes.as_slice()),
        Node::Bool { value, .. } => Ok(Focus::Return(Value::Bool(*value))),
    }
}

/// Begins a part, for whose value a frame waits.
#[inline(always)]
pub(crate) fn begin_under<'a>(
    machine: &mut Machine<'a>,
    scene: Rc<Scene<'a>>,
    frame: Frame<'a>,
    part: Part<'a>,
) -> Result<Focus<'a>, Ending>
    ensures comes { (p : List Class) (input output : List ℕ) → Comes p result machine.new input output
        (Continue (Begin (value_of scene.entry.value.me) (env_of p scene.entry.value) part.entry) (frame_of p frame.entry ∷ frames_of p machine.old) (state_of machine.old input output) machine.old.left) }
    ensures ended { machine.new.ended ≡ machine.old.ended }
    ensures inner { IfErr result IsInner }
{
    machine.wait(frame)?;
    Ok(Focus::Begin { scene, part })
}

/// Begins the arguments of a dispatch, whose parts have numbers below this one.
#[tactic(auto, unfolding(crate::specs::StackMachine::begun))]
fn begin_call<'a>(
    setting: &RunSetting<'a>,
    machine: &mut Machine<'a>,
    scene: Rc<Scene<'a>>,
    body: &'a Body,
    id: NodeId,
    node: &'a Node,
) -> Result<Focus<'a>, Ending>
    requires group { IsCall node.now }
    requires below { id.0 < tree_size body.now }
    requires parts { HasPartsBelow id.0 node.now }
    ensures comes { (p : List Class) (input output : List ℕ) → Comes p result machine.new input output
        (begun p (value_of scene.entry.value.me) (env_of p scene.entry.value) (made (all_trees body.now) node.now) (frames_of p machine.old) (state_of machine.old input output) machine.old.left) }
    ensures ended { machine.new.ended ≡ machine.old.ended }
    ensures inner { IfErr result IsInner }
{
    let args = match node {
        Node::Dispatch { args, .. } | Node::StaticDispatch { args, .. } => args.as_slice(),
        _ => unreachable!(),
    };
    let given = room(setting.alloc, args.len())?;
    let args = parts_at(body, args);
    begin_args(machine, scene, given, args, call_at(body, id, node))
}

/// Begins a condition, a loop or a block, whose parts have numbers below this one.
#[tactic(auto, unfolding(crate::specs::StackMachine::begun))]
fn begin_control<'a>(
    machine: &mut Machine<'a>,
    scene: Rc<Scene<'a>>,
    body: &'a Body,
    id: NodeId,
    node: &'a Node,
) -> Result<Focus<'a>, Ending>
    requires group { IsControl node.now }
    requires below { id.0 < tree_size body.now }
    requires parts { HasPartsBelow id.0 node.now }
    ensures comes { (p : List Class) (input output : List ℕ) → Comes p result machine.new input output
        (begun p (value_of scene.entry.value.me) (env_of p scene.entry.value) (made (all_trees body.now) node.now) (frames_of p machine.old) (state_of machine.old input output) machine.old.left) }
    ensures ended { machine.new.ended ≡ machine.old.ended }
    ensures inner { IfErr result IsInner }
{
    match node {
        Node::If { test, yes, no, .. } => {
            let copy = share(&scene)?;
            let frame = Frame::Choose {
                scene,
                first: part_at(body, *yes),
                second: part_at(body, *no),
            };
            begin_under(machine, copy, frame, part_at(body, *test))
        }
        Node::While {
            test,
            body: turn,
            ..
        } => begin_test(machine, scene, part_at(body, *test), part_at(body, *turn)),
        Node::Block { items, .. } => next_item(
            machine,
            scene,
            Value::Void,
            parts_at(body, items.as_slice()),
        ),
        _ => unreachable!(),
    }
}

/// Begins a binding or a case, whose parts have numbers below this one.
#[tactic(auto, unfolding(crate::specs::StackMachine::begun, crate::specs::StackMachine::begin_let))]
fn begin_binding<'a>(
    setting: &RunSetting<'a>,
    machine: &mut Machine<'a>,
    scene: Rc<Scene<'a>>,
    body: &'a Body,
    id: NodeId,
    node: &'a Node,
) -> Result<Focus<'a>, Ending>
    requires group { IsBinding node.now }
    requires below { id.0 < tree_size body.now }
    requires parts { HasPartsBelow id.0 node.now }
    ensures comes { (p : List Class) (input output : List ℕ) → Comes p result machine.new input output
        (begun p (value_of scene.entry.value.me) (env_of p scene.entry.value) (made (all_trees body.now) node.now) (frames_of p machine.old) (state_of machine.old input output) machine.old.left) }
    ensures ended { machine.new.ended ≡ machine.old.ended }
    ensures inner { IfErr result IsInner }
{
    match node {
        Node::Let {
            name,
            declared,
            init,
            body: inner,
            ..
        } => {
            let copy = share(&scene)?;
            let frame = Frame::Bind {
                scene,
                name,
                body: part_at(body, *inner),
            };
            match init {
                Some(part) => begin_under(machine, copy, frame, part_at(body, *part)),
                None => {
                    machine.wait(frame)?;
                    Ok(Focus::Return(setting.default_of(&declared.name)?))
                }
            }
        }
        Node::Case {
            at,
            value,
            branches,
        } => {
            let copy = share(&scene)?;
            let frame = Frame::Pick {
                scene,
                at: *at,
                branches: twigs_at(body, branches.as_slice()),
            };
            begin_under(machine, copy, frame, part_at(body, *value))
        }
        _ => unreachable!(),
    }
}

/// Begins an assignment or a prefix operator, whose parts have numbers below this one.
#[tactic(auto, unfolding(crate::specs::StackMachine::begun))]
fn begin_unary<'a>(
    machine: &mut Machine<'a>,
    scene: Rc<Scene<'a>>,
    body: &'a Body,
    id: NodeId,
    node: &'a Node,
) -> Result<Focus<'a>, Ending>
    requires group { IsUnary node.now }
    requires below { id.0 < tree_size body.now }
    requires parts { HasPartsBelow id.0 node.now }
    ensures comes { (p : List Class) (input output : List ℕ) → Comes p result machine.new input output
        (begun p (value_of scene.entry.value.me) (env_of p scene.entry.value) (made (all_trees body.now) node.now) (frames_of p machine.old) (state_of machine.old input output) machine.old.left) }
    ensures ended { machine.new.ended ≡ machine.old.ended }
    ensures inner { IfErr result IsInner }
{
    match node {
        Node::Assign { name, value, .. } => {
            let copy = share(&scene)?;
            let part = part_at(body, *value);
            begin_under(machine, copy, Frame::AssignTo { scene, name }, part)
        }
        Node::IsVoid { value, .. } => {
            begin_under(machine, scene, Frame::TestVoid, part_at(body, *value))
        }
        Node::Not { value, .. } => {
            begin_under(machine, scene, Frame::Invert, part_at(body, *value))
        }
        Node::Neg { at, value } => {
            let frame = Frame::Negate { at: *at };
            begin_under(machine, scene, frame, part_at(body, *value))
        }
        _ => unreachable!(),
    }
}

/// Begins an operator between two operands, whose parts have numbers below this one.
#[tactic(auto, unfolding(crate::specs::StackMachine::begun))]
fn begin_binary<'a>(
    machine: &mut Machine<'a>,
    scene: Rc<Scene<'a>>,
    body: &'a Body,
    id: NodeId,
    node: &'a Node,
) -> Result<Focus<'a>, Ending>
    requires group { IsBinary node.now }
    requires below { id.0 < tree_size body.now }
    requires parts { HasPartsBelow id.0 node.now }
    ensures comes { (p : List Class) (input output : List ℕ) → Comes p result machine.new input output
        (begun p (value_of scene.entry.value.me) (env_of p scene.entry.value) (made (all_trees body.now) node.now) (frames_of p machine.old) (state_of machine.old input output) machine.old.left) }
    ensures ended { machine.new.ended ≡ machine.old.ended }
    ensures inner { IfErr result IsInner }
{
    let copy = share(&scene)?;
    match node {
        Node::Arith {
            at,
            op,
            left,
            right,
        } => {
            let frame = Frame::Operand {
                scene,
                at: *at,
                op: *op,
                right: part_at(body, *right),
            };
            begin_under(machine, copy, frame, part_at(body, *left))
        }
        Node::Compare {
            op,
            left,
            right,
            ..
        } => {
            let frame = Frame::Compared {
                scene,
                op: *op,
                right: part_at(body, *right),
            };
            begin_under(machine, copy, frame, part_at(body, *left))
        }
        _ => unreachable!(),
    }
}

/// Gives the value of a name.
#[inline(always)]
#[tactic(auto, unfolding(crate::specs::StackMachine::after))]
fn begin_name<'a>(
    setting: &RunSetting<'a>,
    machine: &Machine<'a>,
    scene: Rc<Scene<'a>>,
    name: &Name,
) -> Result<Focus<'a>, Ending>
    requires ready { IsReady setting.now.table.now setting.now.layouts.now }
    ensures comes { (input output : List ℕ) → Comes setting.now.table.now result machine.now input output
        (after (meaning.value_named (value_of scene.entry.value.me) (env_of setting.now.table.now scene.entry.value) name.now (state_of machine.now input output) machine.now.left).outcome (frames_of setting.now.table.now machine.now)) }
    ensures inner { IfErr result IsInner }
{
    Ok(Focus::Return(value_named(setting, machine, &scene, name)?))
}

/// Gives a constant string.
fn begin_string<'a>(
    setting: &RunSetting<'a>,
    machine: &Machine<'a>,
    bytes: &[u8],
) -> Result<Focus<'a>, Ending>
    ensures comes { (p : List Class) (input output : List ℕ) → Comes p result machine.now input output
        (Continue (Return (values.Str bytes.now)) (frames_of p machine.now) (state_of machine.now input output) machine.now.left) }
    ensures inner { IfErr result IsInner }
{
    Ok(Focus::Return(copied(setting.alloc, bytes)?))
}

/// Begins a new value of the class that is named.
fn begin_made<'a>(
    setting: &RunSetting<'a>,
    machine: &mut Machine<'a>,
    scene: Rc<Scene<'a>>,
    name: &Name,
) -> Result<Focus<'a>, Ending>
    requires ready { IsReady setting.now.table.now setting.now.layouts.now }
    ensures comes { (input output : List ℕ) → Comes setting.now.table.now result machine.new input output
        (new_begun setting.now.table.now (lookups.class_made setting.now.table.now (value_of scene.entry.value.me) name.now) (frames_of setting.now.table.now machine.old) (state_of machine.old input output) machine.old.left) }
    ensures ended { machine.new.ended ≡ machine.old.ended }
    ensures inner { IfErr result IsInner }
{
    let class = class_made(setting, &scene, name);
    begin_new(setting, machine, class)
}

/// The class that `new` makes: for SELF_TYPE that of the object.
fn class_made<'a>(setting: &RunSetting<'a>, scene: &Scene<'a>, name: &Name) -> Option<ClassId>
    requires ready { IsReady setting.now.table.now setting.now.layouts.now }
    ensures { result ≡ lookups.class_made setting.now.table.now (value_of scene.now.me) name.now }
{
    if name.as_slice() == b"SELF_TYPE".as_slice() {
        return setting.class_of(&scene.me);
    }
    setting.table.id(name)
}

/// The value of a name.
fn value_named<'a>(
    setting: &RunSetting<'a>,
    machine: &Machine<'a>,
    scene: &Scene<'a>,
    name: &Name,
) -> Result<Value, Ending>
    requires ready { IsReady setting.now.table.now setting.now.layouts.now }
    ensures value { (input output : List ℕ) (n : ℕ) → IsResultAt result (meaning.value_named (value_of scene.now.me) (env_of setting.now.table.now scene.now) name.now) (state_of machine.now input output) n }
    ensures inner { IfErr result IsInner }
{
    if name.as_slice() == b"self".as_slice() {
        return Ok(scene.me.copy()?);
    }
    machine.store.load(scene.location(setting, name)?)
}
