//! Creates objects: first with default values, and then with the initial values of their attributes.

ghost use Rattle.std.specs.Prelude.{◌≡◌, ℕ, List, IfErr, length};
ghost use Rattle.cool_meaning.specs.Values as values;
ghost use Rattle.cool_meaning.specs.Lookups.{attributes, default_values};
ghost use Rattle.cool_eval.specs.Configurations.{frames_of, state_of, Comes};
ghost use Rattle.cool_eval.specs.Counts.{IsInner};
ghost use Rattle.cool_eval.specs.StackMachine.{begin_new as new_begun, begin_object as object_begun, start_values as values_started};
ghost use Rattle.cool_eval.specs.Ready.{IsReady};
ghost use Rattle.cool_eval.specs.Values.{locations_from};
ghost use Rattle.cool_meaning.specs.BasicMethods.{locate_all};

use crate::basic::string;
use crate::ending::Ending;
use crate::frame::{Focus, Frame};
use crate::machine::{Machine, shared};
use crate::part::Part;
use crate::scene::{RunSetting, Scene};
use crate::store::location_after;
use crate::value::{Object, Value};
use cool_classes::{AttributeRef, BOOL, ClassId, INT, STRING};

/// Begins a new value of a class.
#[tactic(auto, unfolding(crate::specs::StackMachine::begin_new))]
pub(crate) fn begin_new<'a>(
    setting: &RunSetting<'a>,
    machine: &mut Machine<'a>,
    class: Option<ClassId>,
) -> Result<Focus<'a>, Ending>
    requires ready { IsReady setting.now.table.now setting.now.layouts.now }
    ensures comes { (input output : List ℕ) → Comes setting.now.table.now result machine.new input output
        (new_begun setting.now.table.now class (frames_of setting.now.table.now machine.old) (state_of machine.old input output) machine.old.left) }
    ensures ended { machine.new.ended ≡ machine.old.ended }
    ensures inner { IfErr result IsInner }
{
    let Some(class) = class else {
        return Err(Ending::Stuck);
    };
    machine.spend()?;
    if class == INT {
        return Ok(Focus::Return(Value::Int(0)));
    }
    if class == BOOL {
        return Ok(Focus::Return(Value::Bool(false)));
    }
    if class == STRING {
        let empty = string(setting.alloc, Vec::new(setting.alloc))?;
        return Ok(Focus::Return(empty));
    }
    begin_object(setting, machine, class)
}

/// A new object with the defaults of its attributes, and then its initial values.
#[tactic(auto, using(crate::proofs::NewObjects::object_begins))]
fn begin_object<'a>(
    setting: &RunSetting<'a>,
    machine: &mut Machine<'a>,
    class: ClassId,
) -> Result<Focus<'a>, Ending>
    requires ready { IsReady setting.now.table.now setting.now.layouts.now }
    ensures comes { (input output : List ℕ) → Comes setting.now.table.now result machine.new input output
        (object_begun setting.now.table.now class (locate_all (default_values setting.now.table.now (attributes setting.now.table.now class)) (state_of machine.old input output) machine.old.left).outcome (frames_of setting.now.table.now machine.old)) }
    ensures ended { machine.new.ended ≡ machine.old.ended }
    ensures inner { IfErr result IsInner }
{
    let attributes = setting.attributes(class);
    let first = machine.store.len();
    let defaults = setting.defaults(attributes)?;
    machine.store.locate_all(defaults)?;
    let identity = machine.store.draw()?;
    let object = Object {
        class,
        identity,
        first,
        count: attributes.len(),
    };
    Ok(Focus::Start {
        object,
        location: first,
        rest: attributes,
    })
}

/// Begins the next initial value of an object.
#[tactic(auto, unfolding(crate::specs::StackMachine::start_values, crate::specs::StackMachine::start_value))]
pub(crate) fn start_values<'a>(
    setting: &RunSetting<'a>,
    machine: &mut Machine<'a>,
    object: Object,
    location: usize,
    attributes: &'a [AttributeRef],
) -> Result<Focus<'a>, Ending>
    requires ready { IsReady setting.now.table.now setting.now.layouts.now }
    ensures comes { (input output : List ℕ) → Comes setting.now.table.now result machine.new input output
        (values_started setting.now.table.now (values.Obj object.class object.identity (locations_from object.first object.count)) attributes.now (locations_from location (length attributes.now)) (frames_of setting.now.table.now machine.old) (state_of machine.old input output) machine.old.left) }
    ensures ended { machine.new.ended ≡ machine.old.ended }
    ensures inner { IfErr result IsInner }
{
    let Some((attribute, rest)) = attributes.split_first() else {
        return Ok(Focus::Return(Value::Object(object)));
    };
    match setting.initial(*attribute) {
        None => Ok(Focus::Start {
            object,
            location: location_after(location, 1)?,
            rest,
        }),
        Some(body) => {
            machine.wait(Frame::Fill {
                object,
                location,
                rest,
            })?;
            let scene = Scene {
                me: Value::Object(object),
                locals: Vec::new(setting.alloc),
            };
            Ok(Focus::Begin {
                scene: shared(setting.alloc, scene)?,
                part: Part::whole(body),
            })
        }
    }
}
