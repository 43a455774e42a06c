//! The opening that the first line of an input spells.
ghost use Rattle.std.specs.Prelude.{◌≡◌, ◌≢◌, IfOk, IfErr, Err};
ghost use Rattle.sgt_format.specs.Openings.{Opens, Refuses};
ghost use Rattle.sgt_format.specs.declared.errors.OpeningError.{OpeningError};
ghost use Rattle.sgt_input.specs.Ends.{IsOfInput, fault_of_opening};

use crate::fault::Fault;
use crate::lines::Lines;
use crate::shape_error::ShapeError;
use sgt_format::{Opening, OpeningError, read_opening};
use std::alloc::Global;

/// The opening that the last line returned spells, as line 1. Its limits must allow at least this many live
/// transactions.
pub fn opening_of(alloc: Global, least: u32, lines: &Lines) -> Result<Opening, Fault>
    ensures opening { IfOk result (Opens least lines.now.line) }
    ensures fault { IfErr result (λ f. IsOfInput f → (e : OpeningError)
        × Refuses least lines.now.line e × (e ≢ OpeningError.NoMemory) × (f ≡ fault_of_opening e)) }
    ensures own { (result ≢ Err Fault.Reading) × (result ≢ Err Fault.Writing) }
{
    match read_opening(alloc, least, lines.line()) {
        Ok(opening) => Ok(opening),
        Err(OpeningError::NotJson) => Err(Fault::NotJson(1)),
        Err(OpeningError::BadLine) => Err(Fault::BadLine(1)),
        Err(OpeningError::BadLimits) => Err(Fault::BadLimits),
        Err(OpeningError::BadOpening(kind)) => Err(Fault::BadOpening(kind.number())),
        Err(OpeningError::ProcShape(number, place)) => match ShapeError::at(alloc, place) {
            Ok(shape_error) => Err(Fault::ProcShape(number, shape_error)),
            Err(_) => Err(Fault::NoMemory),
        },
        Err(OpeningError::ProcFlaw(number, flaw)) => Err(Fault::ProcFlaw(number, flaw)),
        Err(OpeningError::NoMemory) => Err(Fault::NoMemory),
    }
}
