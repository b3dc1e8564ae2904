//! The exit statuses of a call of `cool`, each with its number.

ghost use Rattle.std.specs.Prelude.{◌≡◌};
ghost use Rattle.cool_driver.specs.Execution.{status_of_halt};
ghost use Rattle.cool_driver.specs.Statuses.{code_of};

use spim_machine::Halt;

/// The exit status of a call.
#[derive(Clone, Copy)]
pub enum Status {
    /// The run ended well, or the files were accepted.
    Done = 0,
    /// The files are no program.
    Refused = 1,
    /// The words are no command line.
    Usage = 2,
    /// The program exited with a code that is none of 0, 4 and 5, or ended with a run-time error.
    Failed = 3,
    /// The program ended at its heap's limit.
    HeapLimit = 4,
    /// The program ended at its stack's limit.
    StackLimit = 5,
    /// The run did not end within its steps.
    StepLimit = 6,
    /// The input failed.
    ReadFault = 7,
    /// A write failed.
    WriteFault = 8,
    /// Memory ran out.
    Memory = 9,
    /// A file was not read, or there are too many.
    FileFault = 10,
    /// The machine trapped.
    Trapped = 11,
    /// The file, the script or the input of a session has a fault.
    Unfit = 12,
}

impl Status {
    /// The status of a halted run.
    pub fn of_halt(halt: Halt) -> Status
        ensures { code_of result ≡ status_of_halt halt }
    {
        match halt {
            Halt::Exit(0) => Status::Done,
            Halt::Exit(4) => Status::HeapLimit,
            Halt::Exit(5) => Status::StackLimit,
            Halt::Exit(_) => Status::Failed,
            Halt::Trap(_) => Status::Trapped,
            Halt::StepLimit => Status::StepLimit,
            Halt::ReadFault => Status::ReadFault,
            Halt::WriteFault => Status::WriteFault,
        }
    }

    /// The program's exit status.
    pub fn code(self) -> u8
        ensures { result ≡ code_of self }
    {
        self as u8
    }
}
