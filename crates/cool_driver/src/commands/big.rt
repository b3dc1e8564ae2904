//! The command `big`: generates a large program, compiles and runs it, and writes one line with its sizes and outcome.

ghost use Rattle.std.specs.Prelude.{◌≡◌, ◌≤◌, [], length, IfOk, string_bytes};
ghost use Rattle.std.specs.List.{AllByRecursion};
ghost use Rattle.cool_faults.specs.Files.{total};
ghost use Rattle.lists.specs.Bytes.{AreBytes};
ghost use Rattle.cool_syntax.specs.declared.TheConstants.{MOST_SOURCE_BYTES};
ghost use Rattle.cool_words.specs.Numbers.{IsWithin};
ghost use Rattle.cool_words.specs.Plans.{usual_limits};
ghost use Rattle.cool_driver.specs.Does.{Does};
ghost use Rattle.cool_driver.specs.Execution.{run_of};
ghost use Rattle.cool_driver.specs.Contents.{texts};
ghost use Rattle.cool_driver.specs.Outside.{ShelfState, SourceState, SinkState, outside, sink_at};
ghost use Rattle.cool_driver.specs.Statuses.{code_of};
ghost use Rattle.cool_driver.specs.commands.Big.{ComesOut, RunsTo, IsBigLine, summing};

use crate::MOST_BIG_OUTPUT;
use crate::execution::machine_limits;
use crate::growing_sink::GrowingSink;
use crate::status::Status;
use crate::writing::write_pieces;
use cool_big::big_program;
use cool_emit::build;
use cool_faults::{Verdict, accept};
use cool_ports::{Sink, SureSource};
use cool_sources::byte_count;
use cool_words::USUAL_LIMITS;
use mips_isa::Image;
use spim_machine::{Halt, Machine};
use std::alloc::{AllocError, Global};

/// The outcome of a program.
#[derive(Clone, Copy)]
struct Outcome {
    /// The bytes of its output, at most `MOST_BIG_OUTPUT`.
    output: u64,
    status: Status,
}

/// Writes the line about the large program of n, or nothing, where memory ran out for it.
pub fn sum_up<O: Sink>(alloc: Global, n: u32, out: &mut O) -> Status
    requires { IsWithin 1 300 n }
    ensures { (shelf : ShelfState) (input : SourceState) (notes : SinkState)
        → Does (summing n) (outside shelf input (sink_at O.Sink out.old) notes)
        (outside shelf input (sink_at O.Sink out.new) notes) (code_of result) }
{
    match big_line(alloc, n) {
        Ok(line) => write_pieces(out, line.as_bytes()),
        Err(AllocError) => Status::Memory,
    }
}

/// The line about the large program of n: its bytes and classes, and those of its output and the status with which it ends when it is compiled and run
/// within the usual limits over no input. Returns `Err` only if memory runs out.
fn big_line(alloc: Global, n: u32) -> Result<String, AllocError>
    requires { IsWithin 1 300 n }
    ensures { IfOk result (λ line. IsBigLine n (string_bytes line)) }
{
    let text = big_program(alloc, n)?;
    let source = byte_count(&text);
    let files = vec![in alloc; text]?;
    let outcome = run_files(alloc, &files)?;
    let (classes, output, status) = (n + 2, outcome.output, outcome.status.code());
    format!(in alloc;
        "big {n}: {source} source bytes, {classes} classes, {output} output bytes, status {status}\n"
    )
}

/// The outcome of files of these bytes. Returns `Err` only if memory runs out.
fn run_files(alloc: Global, files: &[Vec<u8>]) -> Result<Outcome, AllocError>
    requires one { length files.now ≡ 1 }
    requires bytes { AllByRecursion AreBytes (texts files.now) }
    requires small { total (texts files.now) ≤ MOST_SOURCE_BYTES }
    ensures { IfOk result (λ outcome. ComesOut (texts files.now) outcome.output (code_of outcome.status)) }
{
    match accept(alloc, files)? {
        Verdict::Accepted(program) => {
            let names = vec![in alloc; String::from_str(alloc, "big.cl")?]?;
            run_to_end(alloc, &build(alloc, &program, &names)?)
        }
        Verdict::Refused(_) => Ok(Outcome {
            output: 0,
            status: Status::Refused,
        }),
    }
}

/// The outcome of an image. Returns `Err` only if memory runs out.
fn run_to_end(alloc: Global, image: &Image) -> Result<Outcome, AllocError>
    ensures { IfOk result (λ outcome. RunsTo (run_of usual_limits image.now []) outcome.output (code_of outcome.status)) }
{
    let mut machine = Machine::load(alloc, image, machine_limits(USUAL_LIMITS))?;
    let mut nothing = SureSource::new(Vec::new(alloc));
    let mut out = GrowingSink::new(alloc);
    let status = match machine.run(USUAL_LIMITS.steps, &mut nothing, &mut out) {
        Halt::WriteFault => return Err(AllocError),
        halt => Status::of_halt(halt),
    };
    let output = out.len() as u64;
    if output > MOST_BIG_OUTPUT {
        return Ok(Outcome {
            output: MOST_BIG_OUTPUT,
            status: Status::WriteFault,
        });
    }
    Ok(Outcome { output, status })
}
