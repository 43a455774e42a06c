//! The fault of a line: the error of its reader, with the number of the line.
ghost use Rattle.std.specs.Prelude.{◌≡◌};
ghost use Rattle.sgt_input.specs.Spelled.{at_line};

use crate::fault::Fault;
use sgt_format::LineError;

/// What was read of the line of this number, or the fault of that line.
#[inline(always)]
pub fn at_line<T>(number: u64, read: Result<T, LineError>) -> Result<T, Fault>
    ensures { result ≡ at_line number read }
{
    match read {
        Ok(spelled) => Ok(spelled),
        Err(LineError::NotJson) => Err(Fault::NotJson(number)),
        Err(LineError::BadLine) => Err(Fault::BadLine(number)),
        Err(LineError::NoMemory) => Err(Fault::NoMemory),
    }
}
