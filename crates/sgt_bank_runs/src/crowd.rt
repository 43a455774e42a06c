//! Many workers on few accounts, and the same jobs on one worker.
use crate::accounts::{ACCOUNTS, AMALGAMATE, BALANCE, DEPOSIT_CHECKING, held, job, run, run_on};
use crate::banks::Pool;
use crate::gates::{Gates, Plan};
use crate::printed::Printed;
use sgt_access::OneList;
use sgt_graph::PairGraph;
use sgt_log::History;
use sgt_model::{Limits, Reply};
use sgt_records::ListRecords;
use sgt_workers::{Job, Outcome, Report};
use std::alloc::{AllocError, Global};
use std::io;
use std::io::Print;
use std::sync::Wait;
use std::thread::Threads;

/// The number of jobs.
const JOBS: u32 = 1000;

/// Runs sixteen workers on five accounts, and prints the result.
pub fn run_crowd<W: Threads + Wait + Sync + Print>(
    rt: &W,
    alloc: Global,
    limits: Limits,
) -> io::Result<()> {
    println!(rt; "{JOBS} jobs:")?;
    let jobs = many_jobs(alloc)?;
    let jobs = jobs.as_slice();
    let pool = Pool {
        workers: 16,
        tries: 1000,
    };
    let gates = Gates::new(Plan::Open);
    run(
        rt,
        alloc,
        limits,
        jobs,
        pool,
        &gates,
        Printed::Compared { limits, jobs },
    )
}

/// Runs the committed jobs by one worker over other implementations of the layers, in commit order. Prints the result
/// of the crowd and whether it is the same.
pub fn run_compared<W: Threads + Wait + Sync + Print>(
    rt: &W,
    alloc: Global,
    limits: Limits,
    jobs: &[Job],
    crowd: &Report<u64>,
) -> io::Result<()> {
    let done = done_jobs(alloc, jobs, crowd)?;
    run_alone(rt, alloc, limits, done.as_slice(), crowd)
}

fn run_alone<W: Threads + Wait + Sync + Print>(
    rt: &W,
    alloc: Global,
    limits: Limits,
    done: &[Job],
    crowd: &Report<u64>,
) -> io::Result<()> {
    let pool = Pool {
        workers: 1,
        tries: 1,
    };
    let gates = Gates::new(Plan::Open);
    match run_on::<ListRecords, OneList, PairGraph, W>(rt, alloc, limits, done, pool, &gates) {
        Ok(alone) => print_same(rt, alloc, done.len(), crowd, &alone),
        Err(error) => println!(rt; "{error}"),
    }
}

/// Prints how many jobs were committed, what all customers hold at the end, and whether one worker leaves the same
/// database and gets the same answers.
fn print_same<W: Print>(
    rt: &W,
    alloc: Global,
    done: usize,
    crowd: &Report<u64>,
    alone: &Report<u64>,
) -> io::Result<()> {
    let held = held(&crowd.database);
    let rows = crowd.database.rows() == alone.database.rows();
    let answers = same_answers(alloc, &crowd.history, &alone.history)?;
    println!(rt; "done {done}, held {held}, alone the same: rows {rows}, answers {answers}")
}

/// Whether the commits have the same answers, in order.
fn same_answers(alloc: Global, one: &History, other: &History) -> Result<bool, AllocError> {
    let answers = answers_in(alloc, one)?;
    Ok(answers == answers_in(alloc, other)?)
}

fn many_jobs(alloc: Global) -> Result<Vec<Job>, AllocError> {
    let mut jobs = Vec::with_capacity(alloc, JOBS as usize)?;
    for number in 0..JOBS {
        jobs.push(job_of(number))?;
    }
    Ok(jobs)
}

/// The job of this number: a deposit, a query of a balance, or a transfer of all that a name has to the next name.
fn job_of(number: u32) -> Job {
    let index = number % ACCOUNTS;
    let name = i64::from(index).wrapping_add(1);
    let next = i64::from((index + 1) % ACCOUNTS).wrapping_add(1);
    match number % 3 {
        0 => job(number, DEPOSIT_CHECKING, &[name, 7]),
        1 => job(number, BALANCE, &[name]),
        _ => job(number, AMALGAMATE, &[name, next]),
    }
}

/// The committed jobs, in commit order, renumbered.
fn done_jobs(alloc: Global, jobs: &[Job], report: &Report<u64>) -> Result<Vec<Job>, AllocError> {
    let by_index = jobs_by_index(alloc, report)?;
    let mut done = Vec::with_capacity(alloc, jobs.len())?;
    for number in &by_index {
        push_done(&mut done, jobs, *number)?;
    }
    Ok(done)
}

/// Adds the job of this number, if there is one.
fn push_done(done: &mut Vec<Job>, jobs: &[Job], number: Option<u32>) -> Result<(), AllocError> {
    let Some(number) = number else {
        return Ok(());
    };
    if let Some(of) = jobs.get(number as usize) {
        let next = u32::try_from(done.len()).unwrap_or(u32::MAX);
        done.push(job(next, of.procedure, of.args.as_slice()))?;
    }
    Ok(())
}

/// For each index of the history, the job that was committed there.
fn jobs_by_index(alloc: Global, report: &Report<u64>) -> Result<Vec<Option<u32>>, AllocError> {
    let mut by_index = Vec::from_elem(alloc, None, report.history.len())?;
    let mut number = 0u32;
    for outcome in &report.outcomes {
        if let Outcome::Done(index) = outcome {
            if let Some(at) = by_index.get_mut(*index as usize) {
                *at = Some(number);
            }
        }
        number = number.wrapping_add(1);
    }
    Ok(by_index)
}

/// The replies of the commits, in order.
fn answers_in(alloc: Global, history: &History) -> Result<Vec<Reply>, AllocError> {
    let mut answers = Vec::with_capacity(alloc, history.len())?;
    for place in 0..history.len() {
        let reply = history.reply_at(place);
        if matches!(reply, Reply::Committed(_)) {
            answers.push(reply)?;
        }
    }
    Ok(answers)
}
