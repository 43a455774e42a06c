//! One worker.
ghost use Rattle.std.specs.Prelude.{◌≡◌};

use crate::caller::{Caller, Unexpected};
use crate::gate::Gate;
use sgt_access::Accesses;
use sgt_audit::{Job, Outcome};
use sgt_dispatch::{Stub, Take, Taker};
use sgt_graph::Graph;
use sgt_records::Records;
use sgt_session::{Named, Session, Shared};
use std::alloc::Global;
use std::snapshot::Snapshot;
use std::sync::{Mutex, Wait};
use std::thread::Promise;

/// The jobs of a run, and how they are run.
#[derive(Clone, Copy)]
pub struct Workload<'a> {
    /// The jobs, by their numbers.
    pub jobs: &'a [Job],
    /// The most attempts at a job.
    pub tries: u32,
    /// For how many calls capacity is reserved in advance, if it can be.
    pub calls: usize,
}

/// The input of one worker.
#[derive(Drop)]
pub struct Worker<'a, N: Named> {
    pub number: u8,
    pub workload: Workload<'a>,
    /// How many jobs a batch has. The queue holds the numbers of batches.
    pub batch: usize,
    /// Where it stores the attempts at a job.
    pub alloc: Global,
    pub session: Session<N>,
    pub consumer: Taker,
}

/// What a worker leaves when it ends.
#[derive(Drop)]
pub struct Ended<N: Named> {
    pub session: Session<N>,
    pub stub: Stub,
    /// Whether each reply that it got was one that a legal history may have there.
    pub is_expected: bool,
}

/// A worker's promise: what it leaves belongs to its queue.
#[derive(Drop)]
pub struct SameQueue(pub Snapshot<Taker>);

impl<N: Named> Promise<Ended<N>> for SameQueue {
    ghost kept_by = { λ p r. r.stub.queue ≡ p.0.value.queue };
}

/// Takes batches of jobs and runs their jobs until it receives a stop, the gate makes it leave, or a reply is unexpected.
/// A worker that ends leaves its queue at once.
pub fn work<N: Named, R: Records, A: Accesses, G: Graph, T: Gate, W: Wait>(
    rt: &W,
    shared: &Shared<N, R, A, G>,
    gate: &T,
    outcomes: &Mutex<Vec<Outcome<T::Note>>>,
    worker: Worker<'_, N>,
) -> Ended<N>
    ensures { result.stub.queue ≡ worker.entry.consumer.queue }
{
    let Worker {
        number,
        workload,
        batch,
        alloc,
        mut session,
        mut consumer,
    } = worker;
    let _ = session.reserve(workload.calls);
    let mut caller = Caller {
        rt,
        shared,
        gate,
        number,
        session,
    };
    let mut is_expected = true;
    for _ in rt.forever() {
        let Some(taken) = next_batch(rt, &mut consumer, workload.jobs, batch) else {
            break;
        };
        let Ok(goes_on) = run_batch(&mut caller, alloc, outcomes, taken, workload.tries) else {
            is_expected = false;
            break;
        };
        if !goes_on {
            break;
        }
    }
    Ended {
        session: caller.session,
        stub: consumer.leave(),
        is_expected,
    }
}

/// The batch whose number is taken next, if it is not a stop.
fn next_batch<'a, W: Wait>(
    rt: &W,
    consumer: &mut Taker,
    jobs: &'a [Job],
    batch: usize,
) -> Option<&'a [Job]>
    ensures { consumer.new.queue ≡ consumer.old.queue }
{
    match consumer.take(rt) {
        Take::Job(number) => Some(batch_at(jobs, batch, number)),
        Take::Stop | Take::Gone => None,
    }
}

/// The jobs of the batch with this number. Each batch has `batch` jobs, but for the last one.
fn batch_at(jobs: &[Job], batch: usize, number: u32) -> &[Job] {
    let from = (number as usize).saturating_mul(batch);
    if from >= jobs.len() {
        return &[];
    }
    let rest = &jobs[from..];
    &rest[..batch.min(rest.len())]
}

/// Runs jobs one after another. Writes each job's outcome at the job's number among the outcomes. Returns whether the
/// worker goes on: it leaves if the gate makes it.
fn run_batch<N: Named, R: Records, A: Accesses, G: Graph, T: Gate, W: Wait>(
    caller: &mut Caller<'_, N, R, A, G, T, W>,
    alloc: Global,
    outcomes: &Mutex<Vec<Outcome<T::Note>>>,
    jobs: &[Job],
    tries: u32,
) -> Result<bool, Unexpected> {
    for job in jobs {
        let outcome = caller.run_job(alloc, job, tries)?;
        caller.gate.finished(caller.number, job.number, &outcome);
        let leaves = matches!(outcome, Outcome::Left(_));
        if let Some(blank) = outcomes.lock(caller.rt).get_mut(job.number as usize) {
            *blank = outcome;
        }
        if leaves {
            return Ok(false);
        }
    }
    Ok(true)
}
