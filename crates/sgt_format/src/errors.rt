//! Why a line spells no event, no job or no opening.
ghost use Rattle.std.specs.Prelude.{◌≡◌};
ghost use Rattle.sgt_format.specs.declared.errors.LineError.TheVariants as line_error;
ghost use Rattle.sgt_format.specs.declared.errors.OpeningError.TheVariants as opening_error;

use sgt_model::NoMemory;
use sgt_proc::Flaw;
use sgt_proc_json::Place;
use sgt_smallbank::{BadOpening, OpeningFault};
use std::alloc::AllocError;

/// Why a line spells no event, or no job.
#[derive(Clone, Copy, Debug)]
pub enum LineError {
    /// The line is not JSON.
    NotJson,
    /// The line is JSON of another form.
    BadLine,
    /// An allocation failed.
    NoMemory,
}

impl From<NoMemory> for LineError {
    ghost from_gives = { λ _ error. error ≡ line_error.NoMemory };

    fn from(_: NoMemory) -> Self {
        LineError::NoMemory
    }
}

/// Why a line spells no opening.
#[derive(Debug, Drop)]
pub enum OpeningError {
    /// The line is not JSON.
    NotJson,
    /// The line is JSON, but does not have the shape of an opening.
    BadLine,
    /// A limit is out of its range.
    BadLimits,
    /// An account has this fault.
    BadOpening(OpeningFault),
    /// The procedure of this number has its first shape error at this position.
    ProcShape(u64, Place),
    /// The procedure of this number has this flaw, and none with a smaller number.
    ProcFlaw(u64, Flaw),
    /// An allocation failed.
    NoMemory,
}

impl From<NoMemory> for OpeningError {
    ghost from_gives = { λ _ error. error ≡ opening_error.NoMemory };

    fn from(_: NoMemory) -> Self {
        OpeningError::NoMemory
    }
}

impl From<AllocError> for OpeningError {
    ghost from_gives = { λ _ error. error ≡ opening_error.NoMemory };

    fn from(_: AllocError) -> Self {
        OpeningError::NoMemory
    }
}

impl From<BadOpening> for OpeningError {
    ghost use Rattle.sgt_format.specs.Openings.{error_of};

    ghost from_gives = { λ bad error. error ≡ error_of bad };

    fn from(bad: BadOpening) -> Self {
        match bad {
            BadOpening::Fault(fault) => OpeningError::BadOpening(fault),
            BadOpening::NoMemory => OpeningError::NoMemory,
        }
    }
}
