//! The compiler correctness theorems, as laws that the prover checks: the image of an accepted program behaves as the program.

ghost use Rattle.cool_simulation.specs.Shown.{ProgramsShown, RowsAreVisits, VisitsShown};
ghost use Rattle.cool_simulation.specs.SpansLoaded.{InitialValuesStand, MethodsStand};
ghost use Rattle.cool_simulation.specs.Theorem.{AcceptedCompile, CallsMean, FoldedImagesMean, ImagesMean, ProgramsRun, RunsAreMet, TypedImagesMean};

/// The image of a program, given by files of bytes whose names are texts of at most 4,096 bytes, means the program: for each input and all limits of heap,
/// stack and instructions, its output and the input that it leaves accord with the runs of the source.
pub fn law_means()
    ensures { ImagesMean }
{}

/// The image of the folded program of such files, if it is within the limits, means the folded program, and means their program itself, none of whose runs
/// has a smaller meter.
pub fn law_folded_means()
    ensures { FoldedImagesMean }
{}

/// The same for each program that is typed and within the limits, that has no empty block and no empty case, and whose strings are texts: accepted files
/// are such a program.
pub fn law_typed_means()
    ensures accepted { AcceptedCompile }
    ensures means { TypedImagesMean }
{}

/// If a run of the source goes on, so does the machine, if heap and stack hold the run's words and nesting. It takes at least as many instructions as the
/// run has steps, and at most 64 for each unit of its work. Then it goes on with the same output and the same input left. So it is wherever the program is
/// loaded.
pub fn law_always_runs()
    ensures met { RunsAreMet }
    ensures anywhere { ProgramsRun }
{}

/// The code of each method and of each initializer does what its call means, in each machine in which the program is loaded.
pub fn law_calls_mean()
    ensures { CallsMean }
{}

/// In the machine of a loaded program the code of each expression stands where its span says.
pub fn law_spans_stand()
    ensures methods { MethodsStand }
    ensures initial_values { InitialValuesStand }
{}

/// A debugger shows what the rules say. For each expression that a run of the source begins, the machine comes to the first word of its row of the table of
/// code, unless it ends by a limit of heap or stack that the run exceeds. There the names in scope are at home in the words that its span tells, and these
/// picture the values of the names. So it is wherever the program is loaded. Conversely, wherever a run comes to the first word of a row, on all its way,
/// it is at an expression that the run of the source begins, which it pictures so.
pub fn law_shown()
    ensures met { VisitsShown }
    ensures anywhere { ProgramsShown }
    ensures visited { RowsAreVisits }
{}
