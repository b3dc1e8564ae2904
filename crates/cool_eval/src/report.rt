//! Writes how a run ended, with the text of a run-time error.

ghost use Rattle.std.specs.Prelude.{◌≡◌, ◌++◌, ℕ, List, IfOk, codes, map, string_bytes};
ghost use Rattle.cool_ports.specs.SinkPuts.{SinkSeen, seen};
ghost use Rattle.cool_classes.specs.Chains.{name_of};
ghost use Rattle.cool_meaning.specs.SourceRun as runs;
ghost use Rattle.cool_eval.specs.Configurations.{error_of};
ghost use Rattle.cool_eval.specs.Counts.{CountedFinish};
ghost use Rattle.cool_eval.specs.Ends.{Evaluates};
ghost use Rattle.cool_eval.specs.Puts.{PutByRun};
ghost use Rattle.cool_eval.specs.Running.{outcome_of, Ended, IsNeverStuck};

use crate::console::print;
use crate::ending::{Ending, RunError};
use crate::evaluation::EvalEnd;
use crate::scene::RunSetting;
use cool_classes::ClassId;
use cool_ports::Sink;
use cool_syntax::Place;
use std::alloc::{AllocError, Global};

/// Writes how a run ended.
pub(crate) fn finish<K: Sink>(
    setting: &RunSetting<'_>,
    names: &[String],
    end: Result<(), Ending>,
    sink: &mut K,
) -> EvalEnd
    ensures ends { (input : List ℕ) (steps : ℕ) (start : SinkSeen) (rest : List ℕ) → IsNeverStuck (outcome_of setting.now.table.now input)
        → Ended (outcome_of setting.now.table.now input) steps start end rest (seen (K.held sink.old) (K.puts sink.old))
        → Evaluates setting.now.table.now (map string_bytes names.now) input steps start.held result rest (K.held sink.new) }
    ensures puts { (input : List ℕ) (steps : ℕ) (start : SinkSeen) (rest : List ℕ) → IsNeverStuck (outcome_of setting.now.table.now input)
        → Ended (outcome_of setting.now.table.now input) steps start end rest (seen (K.held sink.old) (K.puts sink.old))
        → PutByRun setting.now.table.now (map string_bytes names.now) input steps result rest start.puts (K.puts sink.new) }
    ensures counts { CountedFinish end result (K.faults sink.old) (K.faults sink.new) }
{
    match end {
        Ok(()) => match print(sink, b"COOL program successfully executed\n") {
            Ok(()) => EvalEnd::Done,
            Err(_) => EvalEnd::WriteFault,
        },
        Err(Ending::Error(error)) => {
            let Ok(text) = error_text(setting, names, error) else {
                return EvalEnd::Memory;
            };
            match print(sink, text.as_slice()) {
                Ok(()) => EvalEnd::Error,
                Err(_) => EvalEnd::WriteFault,
            }
        }
        Err(Ending::StepLimit) => EvalEnd::StepLimit,
        Err(Ending::ReadFault) => EvalEnd::ReadFault,
        Err(Ending::WriteFault) => EvalEnd::WriteFault,
        Err(Ending::Memory) => EvalEnd::Memory,
        Err(Ending::Stuck) => EvalEnd::Memory,
    }
}

/// `F:L: text` and a newline.
fn placed(alloc: Global, names: &[String], at: Place, text: &[u8]) -> Result<Vec<u8>, AllocError>
    ensures { IfOk result (λ line. line.items ≡ runs.place_text (map string_bytes names.now) at ++ text.now) }
{
    let mut line = Vec::new(alloc);
    if let Some(name) = names.get(at.file as usize) {
        line.extend_from_slice(name.as_bytes())?;
    }
    let place = format!(in alloc; ":{}: ", at.line)?;
    line.extend_from_slice(place.as_bytes())?;
    line.extend_from_slice(text)?;
    Ok(line)
}

/// The text of an error, with its newline.
fn error_text(
    setting: &RunSetting<'_>,
    names: &[String],
    error: RunError,
) -> Result<Vec<u8>, AllocError>
    ensures { IfOk result (λ line. line.items ≡ runs.error_text setting.now.table.now (map string_bytes names.now) (error_of error)) }
{
    let mut line = error_words(setting, names, error)?;
    line.push(b'\n')?;
    Ok(line)
}

/// The text of an error without its newline.
fn error_words(
    setting: &RunSetting<'_>,
    names: &[String],
    error: RunError,
) -> Result<Vec<u8>, AllocError>
    ensures { IfOk result (λ words. runs.line words.items ≡ runs.error_text setting.now.table.now (map string_bytes names.now) (error_of error)) }
{
    let alloc = setting.alloc;
    match error {
        RunError::DispatchVoid { at } => placed(alloc, names, at, b"Dispatch to void."),
        RunError::CaseVoid { at } => placed(alloc, names, at, b"Case on void."),
        RunError::NoBranch { at, class } => no_branch(setting, names, at, class),
        RunError::DivisionByZero { at } => placed(alloc, names, at, b"Division by zero."),
        RunError::Overflow { at } => placed(alloc, names, at, b"Arithmetic overflow."),
        RunError::Substring { at } => placed(alloc, names, at, b"Substring out of range."),
        RunError::Aborted { class } => {
            let mut words = Vec::from_slice(alloc, b"Abort called from class ")?;
            words.extend_from_slice(setting.class_name(class))?;
            Ok(words)
        }
    }
}

/// The text for a case without a branch for a class.
fn no_branch(
    setting: &RunSetting<'_>,
    names: &[String],
    at: Place,
    class: ClassId,
) -> Result<Vec<u8>, AllocError>
    ensures { IfOk result (λ words. words.items ≡ runs.place_text (map string_bytes names.now) at ++ (codes "No matching branch for class " ++ (name_of setting.now.table.now class ++ codes "."))) }
{
    let mut words = placed(setting.alloc, names, at, b"No matching branch for class ")?;
    words.extend_from_slice(setting.class_name(class))?;
    words.extend_from_slice(b".")?;
    Ok(words)
}
