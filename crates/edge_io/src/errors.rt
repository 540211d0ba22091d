// Why a call on the outside has no answer.
ghost use Rattle.std.specs.Prelude.{◌≡◌};
ghost use Rattle.edge_io.specs.declared.errors.FetchError.TheVariants as fetch_error;
ghost use Rattle.edge_io.specs.declared.errors.LineError.TheVariants as line_error;

use std::alloc::AllocError;
use thiserror::Error;

/// The call on the outside failed, and a fault was counted.
#[derive(Clone, Copy, Debug, PartialEq, Eq, Error)]
#[error("an input or output call failed")]
pub struct Failed;

/// There is no memory.
pub type NoMemory = AllocError;

/// Why no line was taken.
#[derive(Clone, Copy, Debug, PartialEq, Eq, Error)]
pub enum LineError {
    #[error("the source failed")]
    Failed,
    #[error("the line is too long")]
    Long,
    #[error("no memory")]
    NoMemory,
}

/// Why no key file was fetched.
#[derive(Clone, Copy, Debug, PartialEq, Eq, Error)]
pub enum FetchError {
    /// The call failed, and a fault was counted.
    #[error("the key file can't be read")]
    Failed,
    /// There is no such file.
    #[error("there is no such key file")]
    Missing,
    #[error("no memory")]
    NoMemory,
}

impl From<AllocError> for LineError {
    ghost from_gives = { λ _ error. error ≡ line_error.NoMemory };

    fn from(_: AllocError) -> Self {
        LineError::NoMemory
    }
}

impl From<Failed> for LineError {
    ghost from_gives = { λ _ error. error ≡ line_error.Failed };

    fn from(_: Failed) -> Self {
        LineError::Failed
    }
}

impl From<AllocError> for FetchError {
    ghost from_gives = { λ _ error. error ≡ fetch_error.NoMemory };

    fn from(_: AllocError) -> Self {
        FetchError::NoMemory
    }
}

impl From<Failed> for FetchError {
    ghost from_gives = { λ _ error. error ≡ fetch_error.Failed };

    fn from(_: Failed) -> Self {
        FetchError::Failed
    }
}
