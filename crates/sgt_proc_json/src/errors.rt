//! Why a tree is no procedure.
ghost use Rattle.std.specs.Prelude.{◌≡◌, []};
ghost use Rattle.sgt_proc_json.specs.declared.errors.ReadError.TheVariants as read_error;

use crate::place::Place;
use std::alloc::{AllocError, AllocFailed};
use thiserror::Error;

/// Why a tree is no procedure.
#[derive(Debug, Drop, Error)]
pub enum ReadError {
    /// The tree spells no procedure, and its first shape error is at this position.
    #[error("shape at {0}")]
    Shape(Place),
    /// An allocation failed.
    #[error("no memory")]
    NoMemory,
}

impl From<AllocError> for ReadError {
    ghost from_gives = { λ _ error. error ≡ read_error.NoMemory };

    fn from(_: AllocError) -> Self {
        ReadError::NoMemory
    }
}

impl<T: Drop> From<AllocFailed<T>> for ReadError {
    ghost from_gives = { λ _ error. error ≡ read_error.NoMemory };

    fn from(_: AllocFailed<T>) -> Self {
        ReadError::NoMemory
    }
}

impl ReadError {
    ghost use Rattle.sgt_proc_json.specs.Refusals.{error_under};

    /// A shape error of the tree itself.
    pub(crate) fn here() -> Self
        ensures { result ≡ read_error.Shape [] }
    {
        ReadError::Shape(Place::top())
    }

    /// The same error, seen from the list that has the item at this position.
    pub(crate) fn under(self, position: u64) -> Self
        ensures { result ≡ error_under position self }
    {
        match self {
            ReadError::Shape(place) => ReadError::Shape(place.under(position)),
            ReadError::NoMemory => ReadError::NoMemory,
        }
    }
}
