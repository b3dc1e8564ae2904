//! Evaluates method calls: the arguments, the receiver, the look-up of the method, and the start of its body.

ghost use Rattle.std.specs.Prelude.{◌≡◌, ◌+◌, ◌∷◌, [], ◌++◌, ℕ, List, Some, IfErr, IfOk, map, option_map};
ghost use Rattle.cool_ports.specs.Answers.{Leaves};
ghost use Rattle.cool_ports.specs.SinkPuts.{seen};
ghost use Rattle.cool_ports.specs.Taking.{Took};
ghost use Rattle.cool_classes.specs.Chains.{Class};
ghost use Rattle.cool_classes.specs.ClimbedChains.{chain};
ghost use Rattle.cool_classes.specs.Features.{implementation};
ghost use Rattle.cool_syntax.specs.declared.place.Place as places;
ghost use Rattle.cool_syntax.specs.Tree.{of_list};
ghost use Rattle.cool_meaning.specs.Lookups.{formal_names, located, method_at};
ghost use Rattle.cool_meaning.specs.Meters.{given as given_of};
ghost use Rattle.cool_meaning.specs.Values as values;
ghost use Rattle.cool_eval.specs.Configurations.{class_name, class_of_call, env_of, frames_of, locals_of, name_of_call, place_of_call, receiver_of_call, state_of, Comes};
ghost use Rattle.cool_eval.specs.Counts.{Counted, FaultsInCalls, IsInner};
ghost use Rattle.cool_eval.specs.Devices.{OnDevices, Reaches};
ghost use Rattle.cool_eval.specs.StackMachine.{begin_args as args_begun, begin_call as call_begun, begin_method as method_begun, call_class, class_called, Begin, Continue, Receiver};
ghost use Rattle.cool_eval.specs.Ready.{IsReady};
ghost use Rattle.cool_eval.specs.Values.{locations_from, value_of};

use crate::basic::basic;
use crate::ending::{Ending, RunError};
use crate::frame::{Focus, Frame};
use crate::machine::{Machine, add, room, share, shared};
use crate::part::{Call, Part, Parts, part_at};
use crate::scene::{Local, RunSetting, Scene};
use crate::store::location_after;
use crate::value::Value;
use cool_classes::{ClassId, MethodRef};
use cool_ports::{Sink, Source};
use cool_syntax::{Feature, Formal, MethodDef, Name, Node, Place};
use std::alloc::Global;
use std::rc::Rc;

/// The next argument, or else the receiver.
#[inline(always)]
#[tactic(auto, unfolding(crate::specs::StackMachine::begin_args))]
pub(crate) fn begin_args<'a>(
    machine: &mut Machine<'a>,
    scene: Rc<Scene<'a>>,
    given: Vec<Value>,
    args: Parts<'a>,
    call: Call<'a>,
) -> Result<Focus<'a>, Ending>
    ensures comes { (p : List Class) (input output : List ℕ) → Comes p result machine.new input output
        (args_begun (value_of scene.entry.value.me) (env_of p scene.entry.value) (map value_of given.items) (of_list args.entry) (place_of_call call.entry) (receiver_of_call call.entry) (class_of_call call.entry) (name_of_call call.entry) (frames_of p machine.old) (state_of machine.old input output) machine.old.left) }
    ensures ended { machine.new.ended ≡ machine.old.ended }
    ensures inner { IfErr result IsInner }
{
    match args.split() {
        None => begin_receiver(machine, scene, given, call),
        Some((part, rest)) => {
            let copy = share(&scene)?;
            machine.wait(Frame::Argument {
                scene,
                given,
                rest,
                call,
            })?;
            Ok(Focus::Begin { scene: copy, part })
        }
    }
}

/// The receiver, where all arguments are given.
#[inline(always)]
fn begin_receiver<'a>(
    machine: &mut Machine<'a>,
    scene: Rc<Scene<'a>>,
    given: Vec<Value>,
    call: Call<'a>,
) -> Result<Focus<'a>, Ending>
    ensures comes { (p : List Class) (input output : List ℕ) → Comes p result machine.new input output
        (Continue (Begin (value_of scene.entry.value.me) (env_of p scene.entry.value) (receiver_of_call call.entry)) (Receiver (place_of_call call.entry) (class_of_call call.entry) (name_of_call call.entry) (map value_of given.items) ∷ frames_of p machine.old) (state_of machine.old input output) machine.old.left) }
    ensures ended { machine.new.ended ≡ machine.old.ended }
    ensures inner { IfErr result IsInner }
{
    let (body, node) = call.open();
    let (at, receiver, class, name) = match node {
        Node::Dispatch {
            at,
            receiver,
            name,
            ..
        } => (*at, part_at(body, *receiver), None, name),
        Node::StaticDispatch {
            at,
            receiver,
            class,
            name,
            ..
        } => (*at, part_at(body, *receiver), Some(&class.name), name),
        _ => unreachable!(),
    };
    machine.wait(Frame::Receiver {
        at,
        class,
        name,
        given,
    })?;
    Ok(Focus::Begin {
        scene,
        part: receiver,
    })
}

/// A call of a method on a receiver.
#[tactic(auto, using(crate::proofs::QuietSteps::quiet_counts, crate::proofs::QuietSteps::spent_faults, cool_ports::proofs::InputsInParts::took_nothing))]
pub(crate) fn call<'a, S: Source, K: Sink>(
    setting: &RunSetting<'a>,
    machine: &mut Machine<'a>,
    at: Place,
    class: Option<&Name>,
    name: &Name,
    me: Value,
    given: Vec<Value>,
    source: &mut S,
    sink: &mut K,
) -> Result<Focus<'a>, Ending>
    requires ready { IsReady setting.now.table.now setting.now.layouts.now }
    ensures reaches { OnDevices machine.old.ended (S.past source.old) (S.past source.new) (seen (K.held sink.old) (K.puts sink.old)) (λ first output input rest. Reaches setting.now.table.now result machine.new first output input rest (seen (K.held sink.new) (K.puts sink.new))
        (call_class setting.now.table.now at name.now (value_of me) (map value_of given.items) (class_called setting.now.table.now at (class_name class.entry) (value_of me) (state_of machine.old input output) machine.old.left).outcome (frames_of setting.now.table.now machine.old))) }
    ensures took { Took machine.old.ended machine.new.ended (S.past source.old) (S.past source.new) (S.left source.old) (S.left source.new) }
    ensures spent { FaultsInCalls result machine.old.left machine.new.left }
    ensures counts { Counted result (S.faults source.old) (S.faults source.new) (K.faults sink.old) (K.faults sink.new) }
{
    let Some(own) = setting.class_of(&me) else {
        return Err(Ending::Error(RunError::DispatchVoid { at }));
    };
    let Some(called) = called_class(setting, class, own) else {
        return Err(Ending::Stuck);
    };
    machine.spend()?;
    let method = method_of(setting, called, name);
    begin_call(setting, machine, at, method, me, given, source, sink)
}

/// The class in which a method is looked up, for a receiver of a class: this one, or the one that the source names. None comes where there
/// is none of that name.
#[tactic(auto, using(crate::proofs::MethodsCalled::own_called, crate::proofs::MethodsCalled::named_called))]
fn called_class(setting: &RunSetting<'_>, class: Option<&Name>, own: ClassId) -> Option<ClassId>
    requires ready { IsReady setting.now.table.now setting.now.layouts.now }
    ensures called { (at : places.Place) (v : values.Value) (s : values.State) (n : ℕ) → values.class_of v ≡ Some own
        → (class_called setting.now.table.now at (class_name class.entry) v s n).outcome ≡ (given_of result s n).outcome }
{
    match class {
        None => Some(own),
        Some(name) => setting.table.id(name),
    }
}

/// The method of a name that a class has; none where there is no such class.
fn method_of(setting: &RunSetting<'_>, class: ClassId, name: &Name) -> Option<MethodRef>
    ensures method { result ≡ implementation setting.now.table.now (chain setting.now.table.now class) name.now }
{
    if class.0 >= setting.table.count() {
        return None;
    }
    setting.table.find_method(class, name)
}

/// A method on a receiver, where the class has it.
#[tactic(auto, using(crate::proofs::QuietSteps::quiet_counts, cool_ports::proofs::InputsInParts::took_nothing))]
fn begin_call<'a, S: Source, K: Sink>(
    setting: &RunSetting<'a>,
    machine: &mut Machine<'a>,
    at: Place,
    method: Option<MethodRef>,
    me: Value,
    given: Vec<Value>,
    source: &mut S,
    sink: &mut K,
) -> Result<Focus<'a>, Ending>
    requires ready { IsReady setting.now.table.now setting.now.layouts.now }
    ensures reaches { OnDevices machine.old.ended (S.past source.old) (S.past source.new) (seen (K.held sink.old) (K.puts sink.old)) (λ first output input rest. Reaches setting.now.table.now result machine.new first output input rest (seen (K.held sink.new) (K.puts sink.new))
        (call_begun setting.now.table.now at (value_of me) (map value_of given.items) method (frames_of setting.now.table.now machine.old) (state_of machine.old input output) machine.old.left)) }
    ensures took { Took machine.old.ended machine.new.ended (S.past source.old) (S.past source.new) (S.left source.old) (S.left source.new) }
    ensures left { machine.new.left ≡ machine.old.left }
    ensures counts { Counted result (S.faults source.old) (S.faults source.new) (K.faults sink.old) (K.faults sink.new) }
{
    let Some(found) = method else {
        return Err(Ending::Stuck);
    };
    match found {
        MethodRef::Basic(method) => {
            let value = basic(
                setting,
                &mut machine.store,
                &mut machine.ended,
                method,
                at,
                me,
                given,
                source,
                sink,
            )?;
            Ok(Focus::Return(value))
        }
        MethodRef::User { owner, index } => begin_method(setting, machine, owner, index, me, given),
    }
}

/// The body of a method, with its arguments at new locations.
fn begin_method<'a>(
    setting: &RunSetting<'a>,
    machine: &mut Machine<'a>,
    owner: ClassId,
    index: u32,
    me: Value,
    given: Vec<Value>,
) -> Result<Focus<'a>, Ending>
    requires ready { IsReady setting.now.table.now setting.now.layouts.now }
    ensures comes { (input output : List ℕ) → Comes setting.now.table.now result machine.new input output
        (method_begun setting.now.table.now (value_of me) (map value_of given.items) (method_at setting.now.table.now owner index) (frames_of setting.now.table.now machine.old) (state_of machine.old input output) machine.old.left) }
    ensures left { machine.new.left ≡ machine.old.left }
    ensures ended { machine.new.ended ≡ machine.old.ended }
    ensures inner { IfErr result IsInner }
{
    let Some(method) = user_method(setting, owner, index) else {
        return Err(Ending::Stuck);
    };
    let first = machine.store.len();
    let count = given.len();
    machine.store.locate_all(given)?;
    let formals = method.formals.as_slice();
    let locals = arguments(setting.alloc, formals, first, count)?;
    let scene = shared(setting.alloc, Scene { me, locals })?;
    let part = Part::whole(&method.body);
    Ok(Focus::Begin { scene, part })
}

/// The method at an index among the features of a class, if there is one.
fn user_method<'a>(setting: &RunSetting<'a>, owner: ClassId, index: u32) -> Option<&'a MethodDef>
    ensures { option_map (λ found. found.now) result ≡ method_at setting.now.table.now owner index }
{
    if owner.0 >= setting.table.count() {
        return None;
    }
    match setting.table.features(owner).get(index as usize) {
        Some(Feature::Method(found)) => Some(found),
        _ => None,
    }
}

/// Arguments at locations that follow one another, as variables with the names of formals, the latest last. `Memory` comes where memory
/// or locations run out.
fn arguments<'a>(
    alloc: Global,
    formals: &'a [Formal],
    first: usize,
    count: usize,
) -> Result<Vec<Local<'a>>, Ending>
    ensures locals { IfOk result (λ locals. locals_of locals.items ≡ located (formal_names formals.now) (locations_from first count)) }
    ensures memory { IfErr result (λ e. e ≡ Ending.Memory) }
{
    let mut locals = room(alloc, count)?;
    for index in (0..formals.len().min(count)).rev() {
        let location = location_after(first, index)?;
        let name = &formals[index].name;
        add(&mut locals, Local { name, location })?;
    }
    Ok(locals)
}
