//! The jobs of the lines after the opening.
ghost use Rattle.std.specs.Prelude.{◌≡◌, ◌≢◌, ℕ, List, IfOk, IfErr, IfSome, IsNone, Err, Ok, [], ◌+◌, ◌^◌, ◌<◌, ◌≤◌};
ghost use Rattle.sgt_input.specs.Lines.{AtEnd};
ghost use Rattle.sgt_input.specs.Intake.{EndsAs, come, cut_left};
ghost use Rattle.sgt_input.specs.Ends.{IsOfInput};
ghost use Rattle.sgt_workers.specs.Banks.{AreJobs};
ghost use Rattle.sgt_input.specs.Spelled.{spelled, end_of};
ghost use Rattle.sgt_bank.specs.Jobs.{job_at, numbered};
ghost use Rattle.sgt_bank.specs.Taking.{TakesCall, EndsWith};

use json::Scratch;
use sgt_format::read_job;
use sgt_input::{Fault, Lines, Source, at_line};
use sgt_model::Call;
use sgt_workers::{Job, MOST_JOBS};
use std::alloc::Global;

/// For how many jobs there is capacity at first. A list of this capacity grows without being copied.
const AT_FIRST: usize = 4_096;

/// The call that the next line requests, if there is a line.
fn next_call<S: Source>(
    alloc: Global,
    scratch: &mut Scratch,
    lines: &mut Lines,
    source: &mut S,
) -> Result<Option<Call>, Fault>
    requires { S.failures source.old + 1 < 2 ^ 64 }
    ensures call { IfOk result (λ next. IfSome next (λ call.
        TakesCall (cut_left lines.old (S.rest source.old)) call (cut_left lines.new (S.rest source.new)))) }
    ensures end { IfOk result (λ next. IsNone next →
        EndsAs AtEnd (cut_left lines.old (S.rest source.old))) }
    ensures fault { IfErr result (λ f. IsOfInput f →
        (first : ℕ) → EndsWith first (lines.old.number + 1) (Err f) (cut_left lines.old (S.rest source.old))) }
    ensures number { IfOk result (λ next. IfSome next (λ _. lines.new.number ≡ lines.old.number + 1)) }
    ensures nearer { IfOk result (λ next. IfSome next (λ _. lines.new.within < lines.old.within)) }
    ensures come { S.given source.new + come lines.old ≤ S.given source.old + come lines.new }
    ensures few { come lines.new ≤ 4294967297 }
    ensures writing { result ≢ Err Fault.Writing }
    ensures well { result ≢ Err Fault.Reading →
        S.failures source.new ≡ S.failures source.old }
    ensures failed { result ≡ Err Fault.Reading →
        S.failures source.new ≡ S.failures source.old + 1 }
{
    if !lines.next_line(source)? {
        return Ok(None);
    }
    let call = at_line(lines.number(), read_job(alloc, scratch, lines.line()))?;
    Ok(Some(call))
}

/// The jobs of the lines after the opening, numbered from 0. It reads to the end of the input.
///
/// # Errors
///
/// - The fault of the first line that is no job or is too long, or the fault of the input.
/// - `TooManyJobs` at the job after the 1,000,000th.
/// - `Reading` and `NoMemory`.
pub(crate) fn read_jobs<S: Source>(
    alloc: Global,
    lines: &mut Lines,
    source: &mut S,
) -> Result<Vec<Job>, Fault>
    requires reading { S.failures source.old + 1 < 2 ^ 64 }
    requires few { come lines.old ≤ 4294967297 }
    ensures jobs { IfOk result (λ jobs. IfSome (cut_left lines.old (S.rest source.old)) (λ c.
        (jobs.items ≡ numbered 0 (spelled (job_at (lines.old.number + 1)) (lines.old.number + 1) c.given))
        × (end_of (job_at (lines.old.number + 1)) (lines.old.number + 1) c.given c.ending ≡ Ok tt))) }
    ensures numbered { IfOk result (λ jobs. AreJobs jobs.items) }
    ensures fault { IfErr result (λ f. IsOfInput f →
        EndsWith (lines.old.number + 1) (lines.old.number + 1) (Err f) (cut_left lines.old (S.rest source.old))) }
    ensures bounded { S.given source.new + come lines.old ≤ S.given source.old + 4294967297 }
    ensures writing { result ≢ Err Fault.Writing }
    ensures well { result ≢ Err Fault.Reading →
        S.failures source.new ≡ S.failures source.old }
    ensures failed { result ≡ Err Fault.Reading →
        S.failures source.new ≡ S.failures source.old + 1 }
{
    let mut scratch = Scratch::new(alloc);
    let mut jobs = Vec::new(alloc);
    // If this fails, the list grows as it needs.
    let _ = jobs.reserve(AT_FIRST);
    while let Some(call) = next_call(alloc, &mut scratch, lines, source)? {
        if jobs.len() == MOST_JOBS {
            return Err(Fault::TooManyJobs);
        }
        let Call { procedure, args } = call;
        let job = Job {
            number: jobs.len() as u32,
            procedure,
            args,
        };
        if jobs.push(job).is_err() {
            return Err(Fault::NoMemory);
        }
    }
    Ok(jobs)
}
