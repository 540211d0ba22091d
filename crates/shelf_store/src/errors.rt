// Why a call has no answer.
ghost use Rattle.std.specs.Prelude.{◌≡◌};
ghost use Rattle.shelf_store.specs.declared.errors.ShelfError.TheVariants as shelf_error;

use std::alloc::AllocError;

/// A call failed.
#[derive(Clone, Copy, Debug, PartialEq, Eq)]
pub struct Failed;

/// There is no memory.
pub type NoMemory = AllocError;

/// Why a block wasn't put.
#[derive(Clone, Copy, Debug, PartialEq, Eq)]
pub enum ShelfError {
    /// The call was the one whose failure was armed.
    Fault,
    /// The sizes would pass the limit.
    Full,
    /// Memory ran out.
    NoMemory,
}

impl From<AllocError> for ShelfError {
    ghost from_gives = { λ _ error. error ≡ shelf_error.NoMemory };

    fn from(_: AllocError) -> Self {
        ShelfError::NoMemory
    }
}
