//! The pool of workers of a run: their threads, their queue of jobs, and what they leave when they end.
ghost use Rattle.std.specs.Prelude.{◌≡◌, ◌<◌, ◌≤◌, [], All, IfOk, IfErr, length, vec_len, vec_capacity};
ghost use Rattle.sgt_workers.specs.Crews.{IsRunError, KeepsConsumers};

use crate::errors::PoolError;
use crate::gate::Gate;
use crate::worker::{Ended, SameQueue, Worker, Workload, work};
use sgt_access::Accesses;
use sgt_audit::Outcome;
use sgt_dispatch::{Feed, Putter, Taker};
use sgt_graph::Graph;
use sgt_records::Records;
use sgt_session::{Named, Session, Shared};
use std::alloc::Global;
use std::snapshot::Snapshot;
use std::sync::{Mutex, Wait};
use std::thread;
use std::thread::{PromisedHandle, Scope, Threads};

/// Runs the jobs in a thread for each session. Returns the sessions, with the producer of the jobs, which has joined
/// what each worker received.
///
/// `NoMemory` if an allocation failed; `Spawn` if a thread could not be made: then no job was put; `Mismatch` if a
/// worker got an unexpected reply.
pub fn run_sessions<
    N: Named + Send + Sync,
    R: Records,
    A: Accesses,
    G: Graph,
    T: Gate + Sync,
    W: Threads + Wait + Sync,
>(
    rt: &W,
    alloc: Global,
    shared: &Shared<N, R, A, G>,
    gate: &T,
    outcomes: &Mutex<Vec<Outcome<T::Note>>>,
    workload: Workload<'_>,
    sessions: Vec<Session<N>>,
) -> Result<(Putter, Vec<Session<N>>), PoolError>
    requires { vec_len sessions ≤ 16 }
    ensures joined { IfOk result (λ r. r.0.unjoined ≡ 0) }
    ensures error { IfErr result IsRunError }
{
    // The queue holds the numbers of all batches at once, so that sending one never waits for capacity.
    let batch = batch_size(sessions.len(), gate.most_at_once());
    let batches = workload.jobs.len().div_ceil(batch);
    let Ok((producer, consumers)) = Feed::make_for(alloc, batches, sessions.len()) else {
        return Err(PoolError::NoMemory);
    };
    let team = team_of(alloc, workload, batch, &producer, sessions, consumers)?;
    let (producer, ended) = run_pool(rt, alloc, shared, gate, outcomes, batches, producer, team)?;
    join_passes(alloc, producer, ended)
}

/// How many jobs a worker takes at once, at most `most`: one, if there are several workers, so that the jobs begin in
/// their order.
fn batch_size(workers: usize, most: usize) -> usize
    ensures { 0 < result }
{
    if workers > 1 {
        return 1;
    }
    most.max(1)
}

/// A worker for each session and consumer.
fn team_of<'a, N: Named>(
    alloc: Global,
    workload: Workload<'a>,
    batch: usize,
    producer: &Putter,
    sessions: Vec<Session<N>>,
    consumers: Vec<Taker>,
) -> Result<Vec<Worker<'a, N>>, PoolError>
    requires few { vec_len sessions ≤ 16 }
    requires same { vec_len consumers ≡ vec_len sessions }
    requires queue { All (λ t. t.queue ≡ producer.now.queue) consumers.items }
    ensures count { IfOk result (λ team. vec_len team ≡ vec_len sessions) }
    ensures queue { IfOk result (λ team. All (λ w. w.consumer.queue ≡ producer.now.queue) team.items) }
    ensures error { IfErr result IsRunError }
{
    let Ok(mut team) = Vec::with_capacity(alloc, sessions.len()) else {
        return Err(PoolError::NoMemory);
    };
    let mut sessions = sessions;
    let mut number = 0u8;
    for consumer in consumers {
        let Some(session) = sessions.pop() else {
            break;
        };
        team.push_reserved(Worker {
            number,
            workload,
            batch,
            alloc,
            session,
            consumer,
        });
        number += 1;
    }
    Ok(team)
}

/// Runs the batches of jobs in a thread for each worker, and waits until all have ended.
///
/// `NoMemory` if an allocation failed; `Spawn` if a thread could not be made: then no job was put.
fn run_pool<
    N: Named + Send + Sync,
    R: Records,
    A: Accesses,
    G: Graph,
    T: Gate + Sync,
    W: Threads + Wait + Sync,
>(
    rt: &W,
    alloc: Global,
    shared: &Shared<N, R, A, G>,
    gate: &T,
    outcomes: &Mutex<Vec<Outcome<T::Note>>>,
    batches: usize,
    producer: Putter,
    team: Vec<Worker<'_, N>>,
) -> Result<(Putter, Vec<Ended<N>>), PoolError>
    requires { All (λ w. w.consumer.queue ≡ producer.queue) team.items }
    ensures producer { IfOk result (λ r. KeepsConsumers producer r.0) }
    ensures count { IfOk result (λ r. vec_len r.1 ≡ vec_len team.entry) }
    ensures queue { IfOk result (λ r. All (λ e. e.stub.queue ≡ producer.queue) r.1.items) }
    ensures error { IfErr result IsRunError }
{
    let count = team.len();
    let Ok(running) = Vec::with_capacity(alloc, count) else {
        return Err(PoolError::NoMemory);
    };
    let Ok(ended) = Vec::with_capacity(alloc, count) else {
        return Err(PoolError::NoMemory);
    };
    let (producer, ended) = thread::scope(
        thread::scope_env(),
        rt,
        move |scope| -> (Putter, Vec<Ended<N>>)
            requires queue { All (λ w. w.consumer.queue ≡ producer.queue) team.items }
            requires running { (running.items ≡ []) × (vec_len team ≤ vec_capacity running) }
            requires ended { (ended.items ≡ []) × (vec_len team ≤ vec_capacity ended) }
            ensures producer { KeepsConsumers producer result.0 }
            ensures ended { (vec_len result.1 ≤ vec_len team.entry) × All (λ e. e.stub.queue ≡ producer.queue) result.1.items }
        {
            let running = start_all(scope, rt, shared, gate, outcomes, &producer, running, team);
            let all_run = running.len() == count;
            let producer = put_all(rt, producer, batches, all_run, running.len());
            let ended = join_all(rt, &producer, running, ended);
            (producer, ended)
        },
    );
    if ended.len() < count {
        return Err(PoolError::Spawn);
    }
    Ok((producer, ended))
}

/// Starts a thread for each worker, until one cannot be made.
fn start_all<
    's,
    E,
    N: Named + Send + Sync + 's,
    R: Records + 's,
    A: Accesses + 's,
    G: Graph + 's,
    T: Gate + Sync + 's,
    W: Threads + Wait + Sync + 's,
>(
    scope: &Scope<'s, E>,
    rt: &'s W,
    shared: &'s Shared<N, R, A, G>,
    gate: &'s T,
    outcomes: &'s Mutex<Vec<Outcome<T::Note>>>,
    producer: &Putter,
    running: Vec<PromisedHandle<Ended<N>, SameQueue>>,
    team: Vec<Worker<'s, N>>,
) -> Vec<PromisedHandle<Ended<N>, SameQueue>>
    requires capacity { (running.items ≡ []) × (vec_len team ≤ vec_capacity running) }
    requires queue { All (λ w. w.consumer.queue ≡ producer.now.queue) team.items }
    ensures count { vec_len result ≤ vec_len team.entry }
    ensures queue { All (λ h. h.promise.0.value.queue ≡ producer.now.queue) result.items }
{
    let mut running = running;
    for worker in team {
        let promise = SameQueue(Snapshot::of(&worker.consumer));
        let Ok(handle) = scope.spawn_with(promise, move || work(rt, shared, gate, outcomes, worker))
        else {
            break;
        };
        running.push_reserved(handle);
    }
    running
}

/// Puts the numbers of the batches in their order, if all workers run, and then a stop for each that does. Returns early if
/// all workers have left.
fn put_all<W: Wait>(rt: &W, producer: Putter, batches: usize, all_run: bool, stops: usize) -> Putter
    ensures { KeepsConsumers producer result }
{
    let mut producer = producer;
    for number in 0..batches {
        let Ok(number) = u32::try_from(number) else {
            break;
        };
        if !all_run || !producer.put(rt, number) {
            break;
        }
    }
    for _ in 0..stops {
        if !producer.stop(rt) {
            break;
        }
    }
    producer
}

/// Waits until each thread ends.
fn join_all<N: Named, W: Threads>(
    rt: &W,
    producer: &Putter,
    running: Vec<PromisedHandle<Ended<N>, SameQueue>>,
    ended: Vec<Ended<N>>,
) -> Vec<Ended<N>>
    requires capacity { (ended.items ≡ []) × (vec_len running ≤ vec_capacity ended) }
    requires queue { All (λ h. h.promise.0.value.queue ≡ producer.now.queue) running.items }
    ensures count { vec_len result ≡ vec_len running }
    ensures queue { All (λ e. e.stub.queue ≡ producer.now.queue) result.items }
{
    let mut ended = ended;
    for handle in running {
        ended.push_reserved(handle.join(rt));
    }
    ended
}

/// Joins the passes of the queue one by one. Returns the sessions with the producer, all of whose consumers are joined.
///
/// `NoMemory` if an allocation failed; `Mismatch` if a worker got an unexpected reply.
fn join_passes<N: Named>(
    alloc: Global,
    producer: Putter,
    ended: Vec<Ended<N>>,
) -> Result<(Putter, Vec<Session<N>>), PoolError>
    requires queue { All (λ e. e.stub.queue ≡ producer.queue) ended.items }
    requires all { vec_len ended ≡ producer.unjoined }
    ensures joined { IfOk result (λ r. r.0.unjoined ≡ 0) }
    ensures error { IfErr result IsRunError }
{
    if ended.iter().any(|one| !one.is_expected) {
        return Err(PoolError::Mismatch);
    }
    let Ok(mut sessions) = Vec::with_capacity(alloc, ended.len()) else {
        return Err(PoolError::NoMemory);
    };
    let mut producer = producer;
    for one in ended {
        let Ended { session, stub, .. } = one;
        producer = producer.join(stub);
        sessions.push_reserved(session);
    }
    Ok((producer, sessions))
}
