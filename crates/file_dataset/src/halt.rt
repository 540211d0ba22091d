// What ends a call before its answer.
ghost use Rattle.std.specs.Prelude.{◌≡◌};
ghost use Rattle.file_dataset.specs.declared.halt.Halt.TheVariants as halts;
ghost use Rattle.file_dataset.specs.Steps.{halt_in, halt_of, stop_of};

use dataset_tree::{Refusal, Stop};
use indirect_macs::MacError;
use shelf_store::SHELF_BYTES;
use std::alloc::{AllocError, AllocFailed};

/// Why a call ends without its answer. A failure of the shelf is no refusal yet, so that it is told from
/// the refusals that follow from what the shelf holds.
#[derive(Clone, Copy, Debug, PartialEq, Eq)]
pub(crate) enum Halt {
    Refused(Refusal),
    ShelfFault,
    NoMemory,
}

impl From<Refusal> for Halt {
    ghost from_gives = { λ why halt. halt ≡ halts.Refused why };

    fn from(why: Refusal) -> Halt {
        Halt::Refused(why)
    }
}

impl From<AllocError> for Halt {
    ghost from_gives = { λ _ halt. halt ≡ halts.NoMemory };

    fn from(_error: AllocError) -> Halt {
        Halt::NoMemory
    }
}

impl<T: Drop> From<AllocFailed<T>> for Halt {
    ghost from_gives = { λ _ halt. halt ≡ halts.NoMemory };

    fn from(_error: AllocFailed<T>) -> Halt {
        Halt::NoMemory
    }
}

/// What ends a call where the blocks of this object couldn't be read.
pub(crate) fn halt_in(object: u32, stop: MacError) -> Halt
    ensures { result ≡ halt_in object stop }
{
    match stop {
        MacError::MacFailed { level, index } => Halt::Refused(Refusal::MacFailed {
            object: u64::from(object),
            level: u64::from(level),
            index: u64::from(index),
        }),
        MacError::ShelfFault => Halt::ShelfFault,
        MacError::Full => Halt::Refused(Refusal::Full { limit: SHELF_BYTES }),
        MacError::NoMemory => Halt::NoMemory,
    }
}

/// What ends a call where a step that touches no shelf stopped.
pub(crate) fn halt_of(stop: Stop) -> Halt
    ensures { result ≡ halt_of stop }
{
    match stop {
        Stop::Refused(why) => Halt::Refused(why),
        Stop::NoMemory => Halt::NoMemory,
    }
}

/// What the call then answers.
pub(crate) fn stop_of(halt: Halt) -> Stop
    ensures { result ≡ stop_of halt }
{
    match halt {
        Halt::Refused(why) => Stop::Refused(why),
        Halt::ShelfFault => Stop::Refused(Refusal::ShelfFault),
        Halt::NoMemory => Stop::NoMemory,
    }
}
