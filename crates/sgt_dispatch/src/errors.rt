//! Why a queue could not be made.
use std::alloc::AllocError;
use thiserror::Error;

/// Why a queue could not be made.
#[derive(Clone, Copy, Debug, PartialEq, Error)]
pub enum FeedError {
    /// The capacity is not from 1 to [`MOST_CAPACITY`](crate::MOST_CAPACITY).
    #[error("the room is out of its range")]
    BadRoom,
    /// The number of consumers is not from 1 to [`MOST_CONSUMERS`](crate::MOST_CONSUMERS).
    #[error("the number of takers is out of its range")]
    BadTakers,
    /// An allocation failed.
    #[error("no memory")]
    NoMemory,
}

impl From<AllocError> for FeedError {
    ghost use Rattle.std.specs.Prelude.{◌≡◌};
    ghost use Rattle.sgt_dispatch.specs.declared.errors.FeedError.TheVariants.{NoMemory};

    ghost from_gives = { λ _ error. error ≡ NoMemory };

    fn from(_: AllocError) -> Self {
        FeedError::NoMemory
    }
}
