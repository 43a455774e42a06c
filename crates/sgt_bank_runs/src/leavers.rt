//! Workers that leave, and the state after that.
use crate::accounts::{DEPOSIT_CHECKING, LIMITS, job, run};
use crate::banks::Pool;
use crate::gates::{Gates, Plan};
use crate::printed::Printed;
use sgt_workers::Job;
use std::alloc::{AllocError, Global};
use std::io;
use std::io::Print;
use std::sync::Wait;
use std::thread::Threads;

/// A worker that leaves before each call of a job, before the very first call, and not at all.
pub fn leave_at_each_call<W: Threads + Wait + Sync + Print>(
    rt: &W,
    alloc: Global,
) -> io::Result<()> {
    println!(rt; "one deposit, whose worker leaves:")?;
    for calls in 0..=6 {
        leaves_after(rt, alloc, calls)?;
    }
    Ok(())
}

/// One deposit of 100 by one worker, which leaves after this many calls.
fn leaves_after<W: Threads + Wait + Sync + Print>(
    rt: &W,
    alloc: Global,
    calls: u64,
) -> io::Result<()> {
    print!(rt; "after {calls} calls: ")?;
    let jobs = [job(0, DEPOSIT_CHECKING, &[1, 100])];
    let pool = Pool {
        workers: 1,
        tries: 1,
    };
    let gates = Gates::new(Plan::LeavesAt(calls));
    run(rt, alloc, LIMITS, &jobs, pool, &gates, Printed::Leaver)
}

/// Sixteen workers: each reads what the previous one has written, and the first leaves.
pub fn deep_fall<W: Threads + Wait + Sync + Print>(rt: &W, alloc: Global) -> io::Result<()> {
    println!(rt; "the first of sixteen leaves, and the others have read from it:")?;
    run_deposits(rt, alloc, 16, 16, &Gates::new(Plan::DeepFall(16)))
}

/// Four workers that leave before their first call.
pub fn all_leave<W: Threads + Wait + Sync + Print>(rt: &W, alloc: Global) -> io::Result<()> {
    println!(rt; "all of four leave at once:")?;
    run_deposits(rt, alloc, 100, 4, &Gates::new(Plan::LeavesAt(0)))
}

/// Prints the result of a run of deposits, and the end of its history.
fn run_deposits<W: Threads + Wait + Sync + Print>(
    rt: &W,
    alloc: Global,
    count: u32,
    workers: u32,
    gates: &Gates,
) -> io::Result<()> {
    let jobs = deposits(alloc, count)?;
    let pool = Pool { workers, tries: 1 };
    run(
        rt,
        alloc,
        LIMITS,
        jobs.as_slice(),
        pool,
        gates,
        Printed::Aborts,
    )
}

/// This many deposits of 1 to the first account.
fn deposits(alloc: Global, count: u32) -> Result<Vec<Job>, AllocError> {
    let mut jobs = Vec::with_capacity(alloc, count as usize)?;
    for number in 0..count {
        jobs.push(job(number, DEPOSIT_CHECKING, &[1, 1]))?;
    }
    Ok(jobs)
}
