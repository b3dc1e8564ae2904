//! The plan (parsed command line): which command to execute, with its files and limits.

/// The limits of a run.
#[derive(Clone, Copy)]
pub struct RunLimits {
    /// The most KiB of the heap.
    pub heap_kib: u32,
    /// The most KiB of the stack.
    pub stack_kib: u32,
    /// The most instructions that run.
    pub steps: u64,
}

/// The limits of a run if the words do not say.
pub const USUAL_LIMITS: RunLimits = RunLimits {
    heap_kib: 32_768,
    stack_kib: 8_192,
    steps: 1_000_000_000,
};

/// The plan of `run`. Names are those of files, as the words have them.
#[derive(Drop)]
pub struct RunPlan {
    /// The files of the program.
    pub files: Vec<String>,
    /// The limits of its run.
    pub limits: RunLimits,
    /// Whether the folded program is compiled.
    pub fold: bool,
}

/// The plan that a command line asks for. Names are those of files, as the words have them.
#[derive(Drop)]
pub enum Plan {
    /// To say whether the files are a program.
    Check {
        files: Vec<String>,
    },
    /// To compile the files, or the folded program of them, and run that within the limits.
    Run(RunPlan),
    /// To evaluate the program that the files are, with so many steps.
    Eval {
        files: Vec<String>,
        steps: u64,
    },
    /// To write the program's assembly.
    Asm {
        files: Vec<String>,
    },
    /// To write the program's image.
    Build {
        files: Vec<String>,
    },
    /// To run the image that the file is within the limits.
    Exec {
        file: String,
        limits: RunLimits,
    },
    /// To compile the files, and run the program within the limits under the debugger, as the script says.
    Debug {
        script: String,
        files: Vec<String>,
        limits: RunLimits,
    },
    /// To write a program of size `n`.
    Big {
        n: u32,
    },
    /// To tell the faults of files after edits, as the input says.
    Session,
}
