//! Runs banks on workers, for the test command and the measurements in `bench`, and prints what they check from
//! outside. The first argument selects the run:
//!
//! - `bank WORKERS TRIES [SEED ODDS]`: the bank of standard input; one call in ODDS makes its worker leave.
//! - `scripts`: the scripts of standard input, each after its length in four bytes.
//!
//! Without an argument it makes many runs, whose output does not depend on the schedule, and then runs the bank of
//! standard input by one worker. `stdout` has the expected output. The first runs have gates, which block each worker
//! until the others have arrived. So these runs test, without proof, that workers run concurrently, that the lock is
//! freed between two calls, and that the gate is asked. Then workers leave: one at each call of a job, the first of
//! sixteen that have read from each other, and all at once. The last run has sixteen workers on five accounts, and
//! compares the result with its jobs run by one worker in commit order.
#![tactic(auto)]

mod accounts;
mod banks;
mod crowd;
mod gates;
mod held;
mod leavers;
mod printed;
mod scripts;

use crate::accounts::{LIMITS, LIMITS_AT_COMMIT};
use crate::banks::{Pool, run_input_bank};
use crate::crowd::run_crowd;
use crate::gates::{Gates, Plan};
use crate::held::{each_outcome, finish_together, one_gives_up, refusals, second_commits_first};
use crate::leavers::{all_leave, deep_fall, leave_at_each_call};
use crate::scripts::run_scripts;
use std::alloc::Global;
use std::io::{Input, Print};
use std::sync::Wait;
use std::thread::Threads;
use std::{env, io};

/// The number of this argument, or the other number if it is none.
fn number(words: &[String], place: usize, other: u32) -> u32 {
    match words.get(place) {
        Some(word) => word.as_str().parse::<u32>().unwrap_or(other),
        None => other,
    }
}

/// Runs the bank of standard input with these arguments.
fn run_named_bank<W: Print + Input + Threads + Wait + Sync>(
    rt: &W,
    alloc: Global,
    words: &[String],
) -> io::Result<()> {
    let pool = Pool {
        workers: number(words, 2, 4),
        tries: number(words, 3, 100),
    };
    let plan = Plan::Random {
        seed: number(words, 4, 0),
        odds: number(words, 5, 0),
    };
    run_input_bank(rt, alloc, pool, &Gates::new(plan))
}

/// The runs whose schedule is fixed, or does not matter.
fn run_schedules<W: Print + Threads + Wait + Sync>(rt: &W, alloc: Global) -> io::Result<()> {
    second_commits_first(rt, alloc)?;
    finish_together(rt, alloc)?;
    one_gives_up(rt, alloc, 1)?;
    one_gives_up(rt, alloc, 2)?;
    each_outcome(rt, alloc, LIMITS, 13)?;
    each_outcome(rt, alloc, LIMITS_AT_COMMIT, 14)?;
    leave_at_each_call(rt, alloc)?;
    deep_fall(rt, alloc)?;
    all_leave(rt, alloc)?;
    refusals(rt, alloc)?;
    run_crowd(rt, alloc, LIMITS)?;
    run_crowd(rt, alloc, LIMITS_AT_COMMIT)
}

/// The runs of the test command.
fn run_all<W: Print + Input + Threads + Wait + Sync>(rt: &W, alloc: Global) -> io::Result<()> {
    run_schedules(rt, alloc)?;
    let pool = Pool {
        workers: 1,
        tries: 100,
    };
    run_input_bank(rt, alloc, pool, &Gates::new(Plan::Open))
}

/// The run of these arguments.
fn run<W: Print + Input + Threads + Wait + Sync>(
    rt: &W,
    alloc: Global,
    words: &[String],
) -> io::Result<()> {
    let Some(word) = words.get(1) else {
        return run_all(rt, alloc);
    };
    match word.as_str() {
        "scripts" => run_scripts(rt, alloc),
        _ => run_named_bank(rt, alloc, words),
    }
}

fn main(rt: HostRuntime) -> io::Result<()> {
    let alloc = rt.alloc();
    let words: Vec<String> = env::args(&rt)?.collect(alloc)?;
    run(&rt, alloc, words.as_slice())
}
