//! The faults that end a run early.
ghost use Rattle.std.specs.Prelude.{◌≡◌};
ghost use Rattle.sgt_input.specs.declared.fault.Fault.TheVariants as fault;

use crate::shape_error::ShapeError;
use sgt_proc::Flaw;
use std::fmt;
use thiserror::Error;

/// Why a run ended early. Lines are numbered from 1, and the opening is line 1.
#[derive(Debug, Drop, Error)]
pub enum Fault {
    /// The input is empty.
    NoOpening,
    /// The line is not JSON text.
    NotJson(u64),
    /// The line is JSON text, but no opening or no event.
    BadLine(u64),
    /// The line adds a record whose key or value is out of range, or whose key already has a value.
    BadRecord(u64),
    /// A limit of the opening is out of its range.
    BadLimits,
    /// An account of the opening is refused, for a fault of this kind.
    BadOpening(u8),
    /// The procedure of this number in line 1 has its first shape error at this position.
    ProcShape(u64, ShapeError),
    /// The procedure of this number in the opening has a flaw; this one has the least number.
    ProcFlaw(u64, Flaw),
    /// The line has more than 65,536 bytes before its newline.
    LongLine(u64),
    /// The input is longer than its limit.
    TooLong,
    /// There are more than 1,000,000 jobs.
    TooManyJobs,
    /// The threads of the workers could not all be started.
    Spawn,
    /// The replies that the workers got are not those of the history.
    Mismatch,
    /// A read failed.
    Reading,
    /// A write failed, or took nothing.
    Writing,
    /// An allocation failed.
    NoMemory,
}

impl From<sgt_model::NoMemory> for Fault {
    ghost from_gives = { λ _ f. f ≡ fault.NoMemory };

    fn from(_: sgt_model::NoMemory) -> Self {
        Fault::NoMemory
    }
}

impl Fault {
    // The line that the fault names.
    fn line(&self) -> Option<u64> {
        match self {
            Fault::NotJson(line) => Some(*line),
            Fault::BadLine(line) => Some(*line),
            Fault::BadRecord(line) => Some(*line),
            Fault::LongLine(line) => Some(*line),
            _ => None,
        }
    }

    // The words of the message after the line, before any details.
    fn words(&self) -> &'static str {
        match self {
            Fault::NoOpening => "line 1: no opening",
            Fault::NotJson(_) => "not JSON",
            Fault::BadLine(_) => "bad line",
            Fault::BadRecord(_) => "bad record",
            Fault::BadLimits => "line 1: bad limits",
            Fault::BadOpening(_) => "line 1: bad opening ",
            Fault::ProcShape(_, _) => "line 1: procedure ",
            Fault::ProcFlaw(_, _) => "line 1: procedure ",
            Fault::LongLine(_) => "long line",
            Fault::TooLong => "input too long",
            Fault::TooManyJobs => "too many jobs",
            Fault::Spawn => "workers not started",
            Fault::Mismatch => "receipts differ",
            Fault::Reading => "reading failed",
            Fault::Writing => "writing failed",
            Fault::NoMemory => "no memory",
        }
    }
}

impl fmt::Display for Fault {
    fn fmt<W: fmt::Write>(&self, f: &mut fmt::Formatter<W>) -> fmt::Result {
        if let Some(line) = self.line() {
            write!(f, "line {line}: ")?;
        }
        f.write_str(self.words())?;
        match self {
            Fault::BadOpening(kind) => write!(f, "{kind}"),
            Fault::ProcShape(number, place) => write!(f, "{number} shape {place}"),
            Fault::ProcFlaw(number, flaw) => write!(f, "{number} flaw {}", flaw.number()),
            _ => Ok(()),
        }
    }
}
