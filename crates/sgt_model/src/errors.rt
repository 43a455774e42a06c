//! Errors that every layer shares.
ghost use Rattle.std.specs.Prelude.{◌≡◌};

use std::alloc::{AllocError, AllocFailed};
use thiserror::Error;

/// An allocation failed. Nothing visible to a caller has changed, and no history has an entry for the call.
#[derive(Clone, Copy, Debug, PartialEq, Eq, Error)]
#[error("no memory")]
pub struct NoMemory;

impl From<AllocError> for NoMemory {
    fn from(_: AllocError) -> Self {
        NoMemory
    }
}

impl<T: Drop> From<AllocFailed<T>> for NoMemory {
    fn from(_: AllocFailed<T>) -> Self {
        NoMemory
    }
}

/// Why an engine could not be made.
#[derive(Clone, Copy, Debug, PartialEq, Eq, Error)]
pub enum MakeError {
    /// A limit is out of its range: `Limits::are_in_range` returns false.
    #[error("a limit is out of its range")]
    BadLimits,
    /// An allocation failed.
    #[error("no memory")]
    NoMemory,
}

impl From<NoMemory> for MakeError {
    ghost use Rattle.sgt_model.specs.declared.errors.MakeError.TheVariants.{NoMemory};

    ghost from_gives = { λ _ error. error ≡ NoMemory };

    fn from(_: NoMemory) -> Self {
        MakeError::NoMemory
    }
}

impl From<AllocError> for MakeError {
    ghost use Rattle.sgt_model.specs.declared.errors.MakeError.TheVariants.{NoMemory};

    ghost from_gives = { λ _ error. error ≡ NoMemory };

    fn from(_: AllocError) -> Self {
        MakeError::NoMemory
    }
}
