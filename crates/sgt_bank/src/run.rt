//! Runs of the jobs of an input, from bytes to bytes.
ghost use Rattle.std.specs.Prelude.{◌≡◌, ◌≢◌, ℕ, IfOk, IfErr, OnOk, OnErr, IfSome, Err, length, take, ◌+◌, ◌^◌, ◌<◌, ◌≤◌};
ghost use Rattle.std.specs.Io.KnownBytes.{Appends};
ghost use Rattle.sgt_workers.specs.Banks.{AreWorkers, AreTries, AreLimitsFor, AreJobs};
ghost use Rattle.sgt_bank.specs.Inputs.{IsOfText};
ghost use Rattle.sgt_bank.specs.Banks.{AreRun, IsRun};
ghost use Rattle.sgt_bank.specs.Outputs.{WritesAll, WritesPart, IsFirstFault, CountsReads, CountsWrites};

use crate::bank::bank_of;
use crate::command::{Explanations, Options};
use crate::gate::{Failures, OpenGate};
use crate::input::read_input;
use crate::output::{Output, output_text};
use sgt_assembly::{SgtAccesses, SgtGraph, SgtRecords, opened_is_bank};
use sgt_format::Opening;
use sgt_input::{DEFAULT_BYTES, Fault, Sink, Source, write_all};
use sgt_notation::transcripts_spell_textbooks;
use sgt_textbook::{legal_are_commit_ordered, legal_are_recoverable, legal_are_serializable};
use sgt_workers::{Gate, Job, PoolError, Report, run};
use std::alloc::Global;
use std::convert::Infallible;
use std::sync::Wait;
use std::thread::Threads;

/// Runs the jobs after an opening, each worker in a thread of its own. The gate is called as by `run` of
/// `sgt_workers`.
///
/// # Errors
///
/// `Spawn`, `Mismatch` and `NoMemory`.
fn run_after_opening<G: Gate<Note = Infallible> + Sync, W: Threads + Wait + Sync>(
    rt: &W,
    alloc: Global,
    opening: Opening,
    jobs: &[Job],
    options: Options,
    gate: &G,
) -> Result<Report<Infallible>, Fault>
    requires workers { AreWorkers options.workers }
    requires tries { AreTries options.tries }
    requires limits { AreLimitsFor options.workers opening.limits }
    requires jobs { AreJobs jobs.now }
    ensures report { IfOk result (λ r.
        AreRun opening jobs.now options.workers options.tries r.history.entries r.outcomes.items r.database) }
    ensures fault { IfErr result (λ f. ¬ IsOfText f) }
    ensures own { (result ≢ Err Fault.Reading) × (result ≢ Err Fault.Writing) }
{
    let Options { workers, tries, .. } = options;
    let bank = bank_of(alloc, opening)?;
    match run::<SgtRecords, SgtAccesses, SgtGraph, G, W>(
        rt, alloc, bank, jobs, workers, tries, gate,
    ) {
        Ok(report) => Ok(report),
        Err(PoolError::NoMemory) => Err(Fault::NoMemory),
        Err(PoolError::Spawn) => Err(Fault::Spawn),
        Err(PoolError::Mismatch) => Err(Fault::Mismatch),
        Err(_) => unreachable!(),
    }
}

/// Runs the jobs of an input. The gate is called as by `run` of `sgt_workers`.
///
/// # Errors
///
/// The first fault of the input, `Reading`, `Spawn`, `Mismatch` and `NoMemory`.
fn run_input<S: Source, G: Gate<Note = Infallible> + Failures + Sync, W: Threads + Wait + Sync>(
    rt: &W,
    alloc: Global,
    source: &mut S,
    options: Options,
    gate: &G,
    line: &mut Option<Vec<u8>>,
) -> Result<Report<Infallible>, Fault>
    requires reading { S.failures source.old + 1 < 2 ^ 64 }
    requires most { options.most ≤ 4294967296 }
    requires workers { AreWorkers options.workers }
    requires tries { AreTries options.tries }
    ensures run { IfOk result (λ r. IfSome (S.rest source.old) (λ bytes.
        IsRun options.workers options.tries options.most bytes r.history.entries r.outcomes.items r.database)) }
    ensures few { IfOk result (λ r. length r.outcomes.items ≤ 1000000) }
    ensures fault { IfErr result (IsFirstFault options.workers options.most (S.rest source.old)) }
    ensures reads { CountsReads result options.most (S.given source.old) (S.given source.new) (S.failures source.old) (S.failures source.new) }
    ensures writing { result ≢ Err Fault.Writing }
{
    // In every legal history after the opening SmallBank's procedures did the bank's arithmetic.
    opened_is_bank();
    let (opening, jobs) = read_input(alloc, source, options.workers, options.most, line)?;
    gate.opened(opening.procedures.as_slice());
    let report = run_after_opening(rt, alloc, opening, jobs.as_slice(), options, gate)?;
    Ok(report)
}

/// Writes the text of a run.
fn write_text<T: Sink>(sink: &mut T, text: &[u8]) -> Result<(), Fault>
    requires { T.failures sink.old + 1 < 2 ^ 64 }
    ensures all { OnOk result (Appends (T.held sink.old) (T.held sink.new) text.now) }
    ensures part { OnErr result ((k : ℕ) × Appends (T.held sink.old) (T.held sink.new) (take k text.now)) }
    ensures err { IfErr result (λ f. f ≡ Fault.Writing) }
    ensures well { OnOk result (T.failures sink.new ≡ T.failures sink.old) }
    ensures failed { OnErr result (T.failures sink.new ≡ T.failures sink.old + 1) }
{
    if write_all(sink, text).is_err() {
        return Err(Fault::Writing);
    }
    Ok(())
}

/// Runs the jobs of an input and writes the output. The gate is called as by `run` of `sgt_workers`. `line` is as of
/// `read_input`.
///
/// # Errors
///
/// As of `run_jobs`.
pub(crate) fn write_run<
    S: Source,
    T: Sink,
    G: Gate<Note = Infallible> + Failures + Sync,
    W: Threads + Wait + Sync,
>(
    rt: &W,
    alloc: Global,
    source: &mut S,
    sink: &mut T,
    options: Options,
    gate: &G,
    line: &mut Option<Vec<u8>>,
) -> Result<Report<Infallible>, Fault>
    requires reading { S.failures source.old + 1 < 2 ^ 64 }
    requires writing { T.failures sink.old + 1 < 2 ^ 64 }
    requires most { options.most ≤ 4294967296 }
    requires workers { AreWorkers options.workers }
    requires tries { AreTries options.tries }
    ensures output { OnOk result
        (WritesAll options.output options.workers options.tries options.most (S.rest source.old) (T.held sink.old) (T.held sink.new)) }
    ensures part { result ≡ Err Fault.Writing →
        WritesPart options.output options.workers options.tries options.most (S.rest source.old) (T.held sink.old) (T.held sink.new) }
    ensures nothing { IfErr result (λ f. f ≢ Fault.Writing → sink.new ≡ sink.old) }
    ensures fault { IfErr result (IsFirstFault options.workers options.most (S.rest source.old)) }
    ensures reads { CountsReads result options.most (S.given source.old) (S.given source.new) (S.failures source.old) (S.failures source.new) }
    ensures writes { CountsWrites result (T.failures sink.old) (T.failures sink.new) }
{
    let report = run_input(rt, alloc, source, options, gate, line)?;
    // The laws of every legal history in the textbook's own classes; and that its transcript spells it.
    legal_are_commit_ordered();
    legal_are_serializable();
    legal_are_recoverable();
    transcripts_spell_textbooks();
    let failed = match options.output {
        Output::Json => gate.failures(alloc, report.outcomes.len())?,
        _ => Vec::new(alloc),
    };
    let text = output_text(alloc, options.output, &report, failed.as_slice())?;
    write_text(sink, text.as_slice())?;
    Ok(report)
}

/// Runs the jobs of an input on worker threads and writes the report: a line for each job's outcome, by number, and
/// then the committed database.
///
/// Line 1 of the input is the opening, as in a script. It must allow at least as many live transactions as there are
/// workers. Record lines may follow it, and each later line is a job. All input is read before the first thread is
/// made, and nothing is written before all jobs have ended.
///
/// The text written is a report on a legal history that has each outcome. Run one after another in commit order, the
/// committed jobs' procedures return the answers that were reported, and leave that database.
///
/// # Errors
///
/// - The first fault of the input.
/// - `Reading` if a read failed, and `NoMemory`.
/// - `Spawn` if a thread could not be made.
/// - `Mismatch` if the replies that the workers received differ from the history.
/// - `Writing` if a write failed.
///
/// Nothing is written then, except the part before a failed write.
pub fn run_jobs<S: Source, T: Sink, W: Threads + Wait + Sync>(
    rt: &W,
    alloc: Global,
    source: &mut S,
    sink: &mut T,
    workers: u32,
    tries: u32,
) -> Result<(), Fault>
    requires reading { S.failures source.old + 1 < 2 ^ 64 }
    requires writing { T.failures sink.old + 1 < 2 ^ 64 }
    requires workers { AreWorkers workers }
    requires tries { AreTries tries }
    ensures report { OnOk result (WritesAll Output.Report workers tries 16777216 (S.rest source.old) (T.held sink.old) (T.held sink.new)) }
    ensures part { result ≡ Err Fault.Writing →
        WritesPart Output.Report workers tries 16777216 (S.rest source.old) (T.held sink.old) (T.held sink.new) }
    ensures nothing { IfErr result (λ f. f ≢ Fault.Writing → sink.new ≡ sink.old) }
    ensures fault { IfErr result (IsFirstFault workers 16777216 (S.rest source.old)) }
    ensures reads { CountsReads result 16777216 (S.given source.old) (S.given source.new) (S.failures source.old) (S.failures source.new) }
    ensures writes { CountsWrites result (T.failures sink.old) (T.failures sink.new) }
{
    let options = Options {
        workers,
        tries,
        most: DEFAULT_BYTES,
        output: Output::Report,
        explanations: Explanations::Off,
        shows_progress: false,
    };
    write_run(rt, alloc, source, sink, options, &OpenGate, &mut None)?;
    Ok(())
}
