//! The input of a bank: its opening (the first line) with the records, and its jobs.
ghost use Rattle.std.specs.Prelude.{◌≡◌, ◌≢◌, IfOk, IfErr, IfSome, Err, ◌+◌, ◌^◌, ◌<◌, ◌≤◌};
ghost use Rattle.sgt_workers.specs.Banks.{AreLimitsFor, AreJobs};
ghost use Rattle.sgt_bank.specs.Inputs.{InputRequests, InputFails};
ghost use Rattle.sgt_input.specs.Ends.{IsOfInput};

use crate::jobs::read_jobs;
use sgt_format::Opening;
use sgt_input::{Fault, Lines, Source, opening_of, read_records};
use sgt_workers::Job;
use std::alloc::Global;

/// Reads an input of at most `most` bytes: its opening, the records after it, and its jobs. The opening must allow as
/// many live transactions as there are workers. `line` gets a copy of the line of the fault, if the fault has one, and of
/// line 1 otherwise: for a second look that explains the fault. It gets none if memory runs out.
///
/// # Errors
///
/// The first fault of the input, `Reading` and `NoMemory`.
pub fn read_input<S: Source>(
    alloc: Global,
    source: &mut S,
    workers: u32,
    most: usize,
    line: &mut Option<Vec<u8>>,
) -> Result<(Opening, Vec<Job>), Fault>
    requires countable { S.failures source.old + 1 < 2 ^ 64 }
    requires most { most ≤ 4294967296 }
    ensures input { IfOk result (λ input. IfSome (S.rest source.old) (λ bytes.
        InputRequests workers most bytes input.0 input.1.items)) }
    ensures limits { IfOk result (λ input. AreLimitsFor workers input.0.limits) }
    ensures numbered { IfOk result (λ input. AreJobs input.1.items) }
    ensures fault { IfErr result (λ f. IsOfInput f → IfSome (S.rest source.old) (λ bytes.
        InputFails workers most bytes f)) }
    ensures bounded { S.given source.new ≤ S.given source.old + (most + 1) }
    ensures writing { result ≢ Err Fault.Writing }
    ensures well { result ≢ Err Fault.Reading →
        S.failures source.new ≡ S.failures source.old }
    ensures failed { result ≡ Err Fault.Reading →
        S.failures source.new ≡ S.failures source.old + 1 }
{
    let mut lines = Lines::new(alloc, most)?;
    if !lines.next_line(source)? {
        return Err(Fault::NoOpening);
    }
    *line = Vec::from_slice(alloc, lines.line()).ok();
    let opening = opening_of(alloc, workers, &lines)?;
    let opening = match read_records(alloc, &mut lines, source, opening) {
        Ok(opening) => opening,
        Err(fault) => {
            *line = Vec::from_slice(alloc, lines.line()).ok();
            return Err(fault);
        }
    };
    match read_jobs(alloc, &mut lines, source) {
        Ok(jobs) => Ok((opening, jobs)),
        Err(fault) => {
            *line = Vec::from_slice(alloc, lines.line()).ok();
            Err(fault)
        }
    }
}
