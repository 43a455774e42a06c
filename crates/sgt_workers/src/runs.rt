//! A run of jobs: a new engine, its sessions, the threads, and the report.
ghost use Rattle.std.specs.Prelude.{◌≡◌, ◌↔◌, [], Err, IfOk, IfErr};
ghost use Rattle.sgt_engine.specs.EngineView.{configuration_of as made_with};
ghost use Rattle.sgt_workers.specs.declared.errors.PoolError.TheVariants as PoolError;
ghost use Rattle.sgt_workers.specs.Banks.{engine_configuration, AreWorkers, AreTries, AreLimitsFor, AreJobs};
ghost use Rattle.sgt_workers.specs.Crews.{IsRunError};
ghost use Rattle.sgt_workers.specs.Reports.{IsReportOf};

use crate::bank::{Bank, check};
use crate::errors::PoolError;
use crate::gate::Gate;
use crate::pool::run_sessions;
use crate::report::{Report, report_of};
use crate::worker::Workload;
use sgt_access::Accesses;
use sgt_audit::{Job, Outcome};
use sgt_engine::Engine;
use sgt_graph::Graph;
use sgt_records::Records;
use sgt_session::{Closed, Named, Shared};
use std::alloc::Global;
use std::marker::Brand;
use std::sync::ledger::Blank;
use std::sync::{Mutex, Wait};
use std::thread::Threads;

/// How many calls of each job get capacity in advance: a start, six steps, a commit.
const CALLS_OF_A_JOB: usize = 8;

/// Runs the jobs as transactions of a new engine, each worker in a thread of its own, and reports what became of them.
///
/// A worker takes a job, starts a transaction for it, steps until its procedure ends, and commits. If an attempt is
/// aborted by a cycle or in cascade, the worker tries again, up to `tries` in all. The gate is called before each of
/// these calls. If an allocation fails in a call, the transaction is aborted, the job has the outcome `NoMemory`, and
/// the worker continues with the next job.
///
/// These errors are tested first, in this order, before any allocation:
/// - `BadWorkers`: the workers are not from 1 to `MOST_WORKERS`.
/// - `BadTries`: the tries are not from 1 to `MOST_TRIES`.
/// - `BadLimits`: a limit is out of its range, or fewer transactions may be live than there are workers.
/// - `BadJobs`: there are over `MOST_JOBS` jobs, or a job's number is not its index.
///
/// Then:
/// - `NoMemory`: an allocation of the run itself failed.
/// - `Spawn`: a thread could not be made.
/// - `Mismatch`: the receipts are not the history's entries, a worker got a reply that no legal history has there, or
///   an outcome is not true of it.
pub fn run<R: Records, A: Accesses, G: Graph, T: Gate + Sync, W: Threads + Wait + Sync>(
    rt: &W,
    alloc: Global,
    bank: Bank,
    jobs: &[Job],
    workers: u32,
    tries: u32,
    gate: &T,
) -> Result<Report<T::Note>, PoolError>
    ensures report { IfOk result (λ r. IsReportOf (engine_configuration bank) jobs.now workers tries r) }
    ensures bad_workers { (result ≡ Err PoolError.BadWorkers) ↔ (¬ AreWorkers workers) }
    ensures bad_tries { (result ≡ Err PoolError.BadTries) ↔ (AreWorkers workers × (¬ AreTries tries)) }
    ensures bad_limits { (result ≡ Err PoolError.BadLimits)
        ↔ (AreWorkers workers × AreTries tries × (¬ AreLimitsFor workers bank.limits)) }
    ensures bad_jobs { (result ≡ Err PoolError.BadJobs)
        ↔ (AreWorkers workers × AreTries tries × AreLimitsFor workers bank.limits × (¬ AreJobs jobs.now)) }
{
    if let Err(fault) = check(&bank.limits, jobs, workers, tries) {
        return Err(fault);
    }
    let ran = run_bank::<R, A, G, T, W>(rt, alloc, bank, jobs, workers, tries, gate)?;
    let (engine, outcomes) = ran;
    report_of(
        alloc,
        Box::into_inner(engine),
        outcomes,
        jobs,
        workers,
        tries,
    )
}

/// The engine that the jobs were run on, and the outcomes.
fn run_bank<R: Records, A: Accesses, G: Graph, T: Gate + Sync, W: Threads + Wait + Sync>(
    rt: &W,
    alloc: Global,
    bank: Bank,
    jobs: &[Job],
    workers: u32,
    tries: u32,
    gate: &T,
) -> Result<(Box<Engine<R, A, G>>, Vec<Outcome<T::Note>>), PoolError>
    requires { AreWorkers workers }
    ensures configuration { IfOk result (λ r. made_with r.0.value ≡ engine_configuration bank) }
    ensures error { IfErr result IsRunError }
{
    let outcomes = Mutex::new(all_untaken::<T::Note>(alloc, jobs.len())?);
    let Bank {
        opening,
        procedures,
        limits,
    } = bank;
    let Ok(mut engine) = Engine::<R, A, G>::new(alloc, opening, procedures, limits) else {
        return Err(PoolError::NoMemory);
    };
    // With capacity reserved, no list moves while several threads run; a move stops each of their processors. If the
    // reservation fails, the lists grow as they need.
    let calls = jobs.len().saturating_mul(CALLS_OF_A_JOB);
    let _ = engine.reserve(calls);
    let workload = Workload { jobs, tries, calls };
    let Ok(engine) = Box::new(alloc, engine) else {
        return Err(PoolError::NoMemory);
    };
    let blank = Blank::new(u64::from(workers));
    let engine = run_named::<Brand, R, A, G, T, W>(
        rt,
        alloc,
        engine,
        blank,
        &outcomes,
        workload,
        workers as u16,
        gate,
    )?;
    Ok((engine, outcomes.into_inner()))
}

/// Runs the jobs under a name for the engine. Its workers share the calls of the workload. Returns the engine.
fn run_named<
    N: Named + Send + Sync,
    R: Records,
    A: Accesses,
    G: Graph,
    T: Gate + Sync,
    W: Threads + Wait + Sync,
>(
    rt: &W,
    alloc: Global,
    engine: Box<Engine<R, A, G>>,
    blank: Blank,
    outcomes: &Mutex<Vec<Outcome<T::Note>>>,
    workload: Workload<'_>,
    workers: u16,
    gate: &T,
) -> Result<Box<Engine<R, A, G>>, PoolError>
    requires engine { (made_with engine.value ≡ N.configuration) × (engine.value.past ≡ []) }
    requires blank { (blank.name ≡ N.name) × (blank.parts ≡ N.parts) × (blank.parts ≡ workers) × (N.sessions ≡ workers) }
    requires workers { AreWorkers workers }
    ensures configuration { IfOk result (λ e. made_with e.value ≡ N.configuration) }
    ensures error { IfErr result IsRunError }
{
    let Ok((shared, sessions)) = Shared::<N, R, A, G>::new(alloc, engine, blank, workers) else {
        return Err(PoolError::NoMemory);
    };
    let calls = workload.calls / usize::from(workers);
    let share = Workload { calls, ..workload };
    let (_producer, sessions) = run_sessions(rt, alloc, &shared, gate, outcomes, share, sessions)?;
    let Ok(
        Closed {
            engine,
            sessions: _,
        },
    ) = shared.close(sessions)
    else {
        return Err(PoolError::Mismatch);
    };
    Ok(engine)
}

/// An outcome for each job: no worker has taken it yet.
fn all_untaken<X: Drop>(alloc: Global, jobs: usize) -> Result<Vec<Outcome<X>>, PoolError>
    ensures error { IfErr result IsRunError }
{
    let Ok(mut outcomes) = Vec::with_capacity(alloc, jobs) else {
        return Err(PoolError::NoMemory);
    };
    for _ in 0..jobs {
        outcomes.push_reserved(Outcome::Untaken);
    }
    Ok(outcomes)
}
