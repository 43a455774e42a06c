//! Workers that gates block until the others have arrived: this shows that workers run concurrently, that the lock is
//! freed between two calls, and that the gate is asked.
use crate::accounts::{BALANCE, DEPOSIT_CHECKING, LIMITS, TRANSACT_SAVING, WRITE_CHECK, job, run};
use crate::banks::Pool;
use crate::gates::{Gates, Plan};
use crate::printed::Printed;
use sgt_model::{Asks, Limits};
use sgt_workers::Job;
use std::alloc::Global;
use std::io;
use std::io::Print;
use std::sync::Wait;
use std::thread::Threads;

/// Runs that are refused, each by the number of the first of two jobs, the limit of live transactions, the workers and
/// the tries; and two that are not.
const REFUSALS: [(u32, u32, u32, u32); 9] = [
    (1, 0, 17, 0),
    (1, 0, 0, 1),
    (1, 0, 1, 1001),
    (1, 0, 1, 0),
    (1, 33, 1, 1),
    (1, 1, 2, 1),
    (1, 1, 1, 1),
    (0, 16, 16, 1000),
    (0, 1, 1, 1),
];

/// Two deposits to different customers. The second worker makes all its calls between two calls of the first.
pub fn second_commits_first<W: Threads + Wait + Sync + Print>(
    rt: &W,
    alloc: Global,
) -> io::Result<()> {
    println!(rt; "second commits first:")?;
    let jobs = [
        job(0, DEPOSIT_CHECKING, &[1, 10]),
        job(1, DEPOSIT_CHECKING, &[2, 20]),
    ];
    let pool = Pool {
        workers: 2,
        tries: 100,
    };
    let gates = Gates::new(Plan::SecondFirst);
    run(rt, alloc, LIMITS, &jobs, pool, &gates, Printed::Order)
}

/// Two checks of one customer, each of which reads what the other writes: one of them is aborted.
pub fn one_gives_up<W: Threads + Wait + Sync + Print>(
    rt: &W,
    alloc: Global,
    tries: u32,
) -> io::Result<()> {
    println!(rt; "two checks, each tried up to {tries} times:")?;
    let jobs = [
        job(0, WRITE_CHECK, &[1, 100]),
        job(1, WRITE_CHECK, &[1, 100]),
    ];
    let pool = Pool { workers: 2, tries };
    let gates = Gates::new(Plan::BothRead);
    run(rt, alloc, LIMITS, &jobs, pool, &gates, Printed::Counts)
}

/// A job that aborts with a code, two that are refused, one that is committed, and two more.
fn jobs_of_each_outcome() -> [Job; 6] {
    [
        job(0, TRANSACT_SAVING, &[2, -501]),
        job(1, 99, &[]),
        job(2, BALANCE, &[]),
        job(3, BALANCE, &[1]),
        job(4, DEPOSIT_CHECKING, &[1, 10]),
        job(5, DEPOSIT_CHECKING, &[1, 10]),
    ]
}

/// One worker, which the gate makes leave after this many calls, during its fifth job.
pub fn each_outcome<W: Threads + Wait + Sync + Print>(
    rt: &W,
    alloc: Global,
    limits: Limits,
    calls: u64,
) -> io::Result<()> {
    println!(rt; "one worker, which leaves after {calls} calls:")?;
    let jobs = jobs_of_each_outcome();
    let pool = Pool {
        workers: 1,
        tries: 100,
    };
    let gates = Gates::new(Plan::LeavesAt(calls));
    run(rt, alloc, limits, &jobs, pool, &gates, Printed::Counts)?;
    println!(rt; "told of {} jobs", gates.finished())?;
    for number in 0..jobs.len() {
        match gates.finish_of(number) {
            Some((count, worker, finish)) => {
                println!(rt; "job {number}: told {count} times, worker {worker}, {finish:?}")?;
            }
            None => println!(rt; "job {number}: told of nothing")?,
        }
    }
    Ok(())
}

/// Two deposits by two workers. Each, when notified of its finished job, waits there until the other is notified too.
pub fn finish_together<W: Threads + Wait + Sync + Print>(rt: &W, alloc: Global) -> io::Result<()> {
    println!(rt; "two workers finish together:")?;
    let jobs = [
        job(0, DEPOSIT_CHECKING, &[1, 10]),
        job(1, DEPOSIT_CHECKING, &[2, 20]),
    ];
    let pool = Pool {
        workers: 2,
        tries: 100,
    };
    let gates = Gates::new(Plan::FinishTogether(2));
    run(rt, alloc, LIMITS, &jobs, pool, &gates, Printed::Counts)?;
    let workers = match (gates.finish_of(0), gates.finish_of(1)) {
        (Some(first), Some(second)) => first.1 != second.1,
        _ => false,
    };
    println!(rt;
        "each in time: {}, by two workers: {workers}",
        gates.all_in_time()
    )
}

/// The errors found before any allocation, the first fault before the others.
pub fn refusals<W: Threads + Wait + Sync + Print>(rt: &W, alloc: Global) -> io::Result<()> {
    for (first, live, workers, tries) in &REFUSALS {
        print!(rt; "job {first}, {live} live, {workers} workers, {tries} tries: ")?;
        let pool = Pool {
            workers: *workers,
            tries: *tries,
        };
        run_refusal(rt, alloc, *first, *live, pool)?;
    }
    Ok(())
}

/// The error of a run of two jobs. Its first job has this number.
fn run_refusal<W: Threads + Wait + Sync + Print>(
    rt: &W,
    alloc: Global,
    first: u32,
    live: u32,
    pool: Pool,
) -> io::Result<()> {
    let jobs = [job(first, BALANCE, &[1]), job(1, BALANCE, &[1])];
    let limits = Limits {
        live,
        begins: 100,
        asks: Asks::AtStep,
    };
    let gates = Gates::new(Plan::Open);
    run(rt, alloc, limits, &jobs, pool, &gates, Printed::Report)
}
