//! Implements the methods of the basic classes (the Cool manual, section 8).

ghost use Rattle.std.specs.Prelude.{◌≡◌, ℕ, List, IfOk, IfErr, map, option_map};
ghost use Rattle.cool_classes.specs.Chains.{Class};
ghost use Rattle.cool_ports.specs.SinkPuts.{seen};
ghost use Rattle.cool_ports.specs.Taking.{Took};
ghost use Rattle.cool_meaning.specs.BasicMethods.{basic as basic_of, copy as copy_of, part as part_of};
ghost use Rattle.cool_meaning.specs.Values as values;
ghost use Rattle.cool_meaning.specs.Values.{Str};
ghost use Rattle.cool_eval.specs.Configurations.{IsResultOf};
ghost use Rattle.cool_eval.specs.Counts.{Counted, IsInner};
ghost use Rattle.cool_eval.specs.Devices.{Acts, OnDevices, state_at};
ghost use Rattle.cool_eval.specs.Methods.{IsStringOf, IsOne, AreTwo, Makes, ActsOnSink, ActsOnSource};
ghost use Rattle.cool_eval.specs.Values.{value_of, locations_from};

use crate::console::{print, take_line};
use crate::ending::{Ending, RunError};
use crate::numbers::number;
use crate::numeral::number_of;
use crate::scene::RunSetting;
use crate::store::Store;
use crate::value::{Object, Value};
use cool_classes::BasicMethod;
use cool_ports::{Sink, Source};
use cool_syntax::Place;
use std::alloc::Global;
use std::rc::Rc;

/// A new string.
pub(crate) fn string(alloc: Global, bytes: Vec<u8>) -> Result<Value, Ending>
    ensures string { IfOk result (λ v. value_of v ≡ Str bytes.items) }
    ensures memory { IfErr result (λ e. e ≡ Ending.Memory) }
{
    match Rc::new(alloc, bytes) {
        Ok(shared) => Ok(Value::Str(shared)),
        Err(_) => Err(Ending::Memory),
    }
}

/// The bytes of the string that a value is.
fn bytes_of(value: &Value) -> Result<&[u8], Ending>
    ensures bytes { IsStringOf result (value_of value.now) }
    ensures inner { IfErr result IsInner }
{
    match value {
        Value::Str(bytes) => Ok(bytes.as_slice()),
        _ => Err(Ending::Stuck),
    }
}

/// The one argument of a call.
fn one(given: &[Value]) -> Result<&Value, Ending>
    ensures one { IsOne result (map value_of given.now) }
    ensures inner { IfErr result IsInner }
{
    match given {
        [value] => Ok(value),
        _ => Err(Ending::Stuck),
    }
}

/// The two arguments of a call.
fn two(given: &[Value]) -> Result<(&Value, &Value), Ending>
    ensures two { AreTwo result (map value_of given.now) }
    ensures inner { IfErr result IsInner }
{
    match given {
        [first, second] => Ok((first, second)),
        _ => Err(Ending::Stuck),
    }
}

/// A new string with a copy of bytes.
pub(crate) fn copied(alloc: Global, bytes: &[u8]) -> Result<Value, Ending>
    ensures string { IfOk result (λ v. value_of v ≡ Str bytes.now) }
    ensures memory { IfErr result (λ e. e ≡ Ending.Memory) }
{
    match Vec::from_slice(alloc, bytes) {
        Ok(copy) => string(alloc, copy),
        Err(_) => Err(Ending::Memory),
    }
}

/// `abort`: the run ends with an error that names the class.
fn abort(setting: &RunSetting<'_>, me: &Value) -> Result<Value, Ending>
    ensures value { (p : List Class) (at : Place) (vs : List values.Value) → IsResultOf result (basic_of p BasicMethod.Abort at (value_of me.now) vs) }
    ensures inner { IfErr result IsInner }
{
    match setting.class_of(me) {
        Some(class) => Err(Ending::Error(RunError::Aborted { class })),
        None => Err(Ending::Stuck),
    }
}

/// `type_name`: the name of the class.
fn type_name(setting: &RunSetting<'_>, me: &Value) -> Result<Value, Ending>
    ensures value { (at : Place) (vs : List values.Value) → IsResultOf result (basic_of setting.now.table.now BasicMethod.TypeName at (value_of me.now) vs) }
    ensures inner { IfErr result IsInner }
{
    match setting.class_of(me) {
        Some(class) => copied(setting.alloc, setting.class_name(class)),
        None => Err(Ending::Stuck),
    }
}

/// A copy of an object, with locations of its own.
fn copy_object(alloc: Global, store: &mut Store, object: &Object) -> Result<Value, Ending>
    ensures value { (p : List Class) (input output : List ℕ) (n : ℕ) → Makes result store.new input output n
        (copy_of p (values.Obj object.now.class object.now.identity (locations_from object.now.first object.now.count)) (state_at store.old input output) n).outcome }
    ensures inner { IfErr result IsInner }
{
    let values = store.load_all(alloc, object.first, object.count)?;
    let first = store.len();
    store.locate_all(values)?;
    let identity = store.draw()?;
    Ok(Value::Object(Object {
        class: object.class,
        identity,
        first,
        count: object.count,
    }))
}

/// `copy`: an equal value, or a copy of an object.
fn copy(alloc: Global, store: &mut Store, me: &Value) -> Result<Value, Ending>
    ensures value { (p : List Class) (input output : List ℕ) (n : ℕ) → Makes result store.new input output n (copy_of p (value_of me.now) (state_at store.old input output) n).outcome }
    ensures inner { IfErr result IsInner }
{
    match me {
        Value::Void => Err(Ending::Stuck),
        Value::Object(object) => copy_object(alloc, store, object),
        _ => Ok(me.copy()?),
    }
}

/// `out_string`: the string is put.
fn out_string<K: Sink>(sink: &mut K, me: Value, given: &[Value]) -> Result<Value, Ending>
    ensures acts { (p : List Class) (at : Place) → ActsOnSink result (seen (K.held sink.old) (K.puts sink.old)) (seen (K.held sink.new) (K.puts sink.new)) (basic_of p BasicMethod.OutString at (value_of me) (map value_of given.now)) }
    ensures counts { Counted result 0 0 (K.faults sink.old) (K.faults sink.new) }
{
    let bytes = bytes_of(one(given)?)?;
    print(sink, bytes)?;
    Ok(me)
}

/// `out_int`: the digits of the number are put.
fn out_int<K: Sink>(
    alloc: Global,
    sink: &mut K,
    me: Value,
    given: &[Value],
) -> Result<Value, Ending>
    ensures acts { (p : List Class) (at : Place) → ActsOnSink result (seen (K.held sink.old) (K.puts sink.old)) (seen (K.held sink.new) (K.puts sink.new)) (basic_of p BasicMethod.OutInt at (value_of me) (map value_of given.now)) }
    ensures counts { Counted result 0 0 (K.faults sink.old) (K.faults sink.new) }
{
    let shown = number(one(given)?)?;
    let text = format!(in alloc; "{shown}")?;
    print(sink, text.as_bytes())?;
    Ok(me)
}

/// `in_string`: a line is taken.
fn in_string<S: Source>(alloc: Global, ended: &mut bool, source: &mut S) -> Result<Value, Ending>
    ensures took { Took ended.old ended.new (S.past source.old) (S.past source.new) (S.left source.old) (S.left source.new) }
    ensures acts { (p : List Class) (at : Place) (v : values.Value) (vs : List values.Value) → ActsOnSource result ended.old (S.past source.old) (S.past source.new) (basic_of p BasicMethod.InString at v vs) }
    ensures counts { Counted result (S.faults source.old) (S.faults source.new) 0 0 }
{
    let line = take_line(alloc, ended, source)?;
    string(alloc, line)
}

/// `in_int`: a line is taken, and the number at its front.
fn in_int<S: Source>(alloc: Global, ended: &mut bool, source: &mut S) -> Result<Value, Ending>
    ensures took { Took ended.old ended.new (S.past source.old) (S.past source.new) (S.left source.old) (S.left source.new) }
    ensures acts { (p : List Class) (at : Place) (v : values.Value) (vs : List values.Value) → ActsOnSource result ended.old (S.past source.old) (S.past source.new) (basic_of p BasicMethod.InInt at v vs) }
    ensures counts { Counted result (S.faults source.old) (S.faults source.new) 0 0 }
{
    let line = take_line(alloc, ended, source)?;
    Ok(Value::Int(i64::from(number_of(line.as_slice()))))
}

/// `length`: how many bytes the string has, of which the low 32 bits count.
fn length(me: &Value) -> Result<Value, Ending>
    ensures value { (p : List Class) (at : Place) (vs : List values.Value) → IsResultOf result (basic_of p BasicMethod.Length at (value_of me.now) vs) }
    ensures inner { IfErr result IsInner }
{
    let bytes = bytes_of(me)?;
    let low = (bytes.len() % 0x1_0000_0000) as u32;
    Ok(Value::Int(i64::from(low.cast_signed())))
}

/// `concat`: the string with another after it.
fn concat(alloc: Global, me: &Value, given: &[Value]) -> Result<Value, Ending>
    ensures value { (p : List Class) (at : Place) → IsResultOf result (basic_of p BasicMethod.Concat at (value_of me.now) (map value_of given.now)) }
    ensures inner { IfErr result IsInner }
{
    let first = bytes_of(me)?;
    let second = bytes_of(one(given)?)?;
    let mut whole = Vec::from_slice(alloc, first)?;
    whole.extend_from_slice(second)?;
    string(alloc, whole)
}

/// The part of a string from a position, of a length, where the string has it.
fn part(bytes: &[u8], start: i64, len: i64) -> Option<&[u8]>
    ensures { option_map (λ found. found.now) result ≡ part_of bytes.now start len }
{
    let start = usize::try_from(start).ok()?;
    let len = usize::try_from(len).ok()?;
    let end = start.checked_add(len)?;
    bytes.get(start..end)
}

/// `substr`: a part of the string, where it has it.
fn substr(alloc: Global, at: Place, me: &Value, given: &[Value]) -> Result<Value, Ending>
    ensures value { (p : List Class) → IsResultOf result (basic_of p BasicMethod.Substr at (value_of me.now) (map value_of given.now)) }
    ensures inner { IfErr result IsInner }
{
    let bytes = bytes_of(me)?;
    let (start, len) = two(given)?;
    match part(bytes, number(start)?, number(len)?) {
        Some(found) => copied(alloc, found),
        None => Err(Ending::Error(RunError::Substring { at })),
    }
}

/// Calls a method of a basic class.
pub(crate) fn basic<S: Source, K: Sink>(
    setting: &RunSetting<'_>,
    store: &mut Store,
    ended: &mut bool,
    method: BasicMethod,
    at: Place,
    me: Value,
    given: Vec<Value>,
    source: &mut S,
    sink: &mut K,
) -> Result<Value, Ending>
    ensures took { Took ended.old ended.new (S.past source.old) (S.past source.new) (S.left source.old) (S.left source.new) }
    ensures acts { OnDevices ended.old (S.past source.old) (S.past source.new) (seen (K.held sink.old) (K.puts sink.old)) (λ first output input rest. (n : ℕ) → Acts result store.new first output input rest (seen (K.held sink.new) (K.puts sink.new)) n
        (basic_of setting.now.table.now method at (value_of me) (map value_of given.items) (state_at store.old input output) n).outcome) }
    ensures counts { Counted result (S.faults source.old) (S.faults source.new) (K.faults sink.old) (K.faults sink.new) }
{
    let alloc = setting.alloc;
    let given = given.as_slice();
    match method {
        BasicMethod::Abort => abort(setting, &me),
        BasicMethod::TypeName => type_name(setting, &me),
        BasicMethod::Copy => copy(alloc, store, &me),
        BasicMethod::OutString => out_string(sink, me, given),
        BasicMethod::OutInt => out_int(alloc, sink, me, given),
        BasicMethod::InString => in_string(alloc, ended, source),
        BasicMethod::InInt => in_int(alloc, ended, source),
        BasicMethod::Length => length(&me),
        BasicMethod::Concat => concat(alloc, &me, given),
        BasicMethod::Substr => substr(alloc, at, &me, given),
    }
}
