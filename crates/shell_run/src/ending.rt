// How a run ends.
ghost use Rattle.std.specs.Prelude.{◌≡◌};
ghost use Rattle.shell_run.specs.declared.ending.Halt.TheVariants.{NoMemory as OutOfMemory};
ghost use Rattle.shell_run.specs.Endings.{ending_of, status_of};

use std::alloc::AllocError;

/// Why a run is over.
#[derive(Clone, Copy)]
pub(crate) enum Ending {
    /// The script was read to its end.
    Done,
    /// The command line is faulty.
    Usage,
    /// The line of this number is no line of the language, with the place where.
    BadLine { number: u32, at: u32 },
    /// The script couldn't be read.
    ReadFault,
    /// A reply couldn't be written.
    WriteFault,
    /// An allocation was refused.
    NoMemory,
}

impl Ending {
    /// The status of the program.
    pub(crate) fn status(self) -> u8
        ensures { result ≡ status_of self }
    {
        match self {
            Ending::Done => 0,
            Ending::Usage => 2,
            Ending::BadLine { .. } => 3,
            Ending::ReadFault => 4,
            Ending::WriteFault => 5,
            Ending::NoMemory => 12,
        }
    }
}

/// Why a run is over in the midst of a line.
#[derive(Clone, Copy)]
pub(crate) enum Halt {
    /// The line of this number, which it is itself or takes at a prompt, is bad at this place.
    BadLine { number: u32, at: u32 },
    /// The script couldn't be read at a prompt.
    ReadFault,
    /// An allocation was refused.
    NoMemory,
}

impl Halt {
    /// How the run ends.
    pub(crate) fn ending(self) -> Ending
        ensures { result ≡ ending_of self }
    {
        match self {
            Halt::BadLine { number, at } => Ending::BadLine { number, at },
            Halt::ReadFault => Ending::ReadFault,
            Halt::NoMemory => Ending::NoMemory,
        }
    }
}

impl From<AllocError> for Halt {
    ghost from_gives = { λ _ halt. halt ≡ OutOfMemory };

    fn from(_error: AllocError) -> Halt {
        Halt::NoMemory
    }
}
