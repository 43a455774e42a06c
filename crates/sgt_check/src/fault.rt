//! The errors that can end a check.
ghost use Rattle.std.specs.Prelude.{◌≡◌};
ghost use Rattle.sgt_check.specs.declared.fault.CheckFault.TheVariants as fault;

use sgt_notation::NotationFault;
use thiserror::Error;

/// Why a check ended without a report.
#[derive(Debug, Drop, Error)]
pub enum CheckFault {
    /// The text is not a history.
    #[error("{0}")]
    Notation(NotationFault),
    /// The text has no operation: there is nothing to judge.
    #[error("no operations")]
    NoOperations,
    /// The input is longer than 268,435,456 bytes.
    #[error("input too long")]
    TooLong,
    /// A read failed.
    #[error("reading failed")]
    Reading,
    /// A write failed, or wrote nothing.
    #[error("writing failed")]
    Writing,
    /// An allocation failed.
    #[error("no memory")]
    NoMemory,
}

impl From<sgt_model::NoMemory> for CheckFault {
    ghost from_gives = { λ _ f. f ≡ fault.NoMemory };

    fn from(_: sgt_model::NoMemory) -> Self {
        CheckFault::NoMemory
    }
}

impl From<NotationFault> for CheckFault {
    ghost from_gives = { λ f g. g ≡ fault.Notation f };

    fn from(fault: NotationFault) -> Self {
        CheckFault::Notation(fault)
    }
}
