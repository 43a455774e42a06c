//! A bank of five accounts, and jobs for it.
use crate::banks::{Pool, run_bank};
use crate::gates::Gates;
use crate::printed::{Printed, print_report};
use sgt_access::{Accesses, PerKey};
use sgt_format::Opening;
use sgt_graph::{BitGraph, Graph};
use sgt_model::{Args, Asks, Database, Key, Limits};
use sgt_records::{Records, SlabRecords};
use sgt_smallbank::{Account, opening};
use sgt_workers::{Job, PoolError, Report};
use std::alloc::Global;
use std::io;
use std::io::Print;
use std::sync::Wait;
use std::thread::Threads;

pub const BALANCE: u16 = 0;

pub const DEPOSIT_CHECKING: u16 = 1;

pub const TRANSACT_SAVING: u16 = 2;

pub const AMALGAMATE: u16 = 3;

pub const WRITE_CHECK: u16 = 4;

/// How many accounts the bank has. Their names are numbers from 1.
pub const ACCOUNTS: u32 = 5;

pub const LIMITS: Limits = Limits {
    live: 32,
    begins: 4_000_000_000,
    asks: Asks::AtStep,
};

/// The same, with codes reported at commit.
pub const LIMITS_AT_COMMIT: Limits = Limits {
    live: 32,
    begins: 4_000_000_000,
    asks: Asks::AtCommit,
};

/// A call of this procedure with at most four arguments.
pub fn job(number: u32, procedure: u16, args: &[i64]) -> Job {
    Job {
        number,
        procedure,
        args: Args::from_slice(args).unwrap_or(Args::new()),
    }
}

/// The account of this name. All have the same initial balances.
fn account(name: i64) -> Account {
    Account {
        name,
        customer: name.wrapping_add(100),
        saving: 500,
        checking: 1000,
    }
}

/// Runs the jobs on five accounts, over these implementations of the layers.
pub fn run_on<R: Records, A: Accesses, G: Graph, W: Threads + Wait + Sync>(
    rt: &W,
    alloc: Global,
    limits: Limits,
    jobs: &[Job],
    pool: Pool,
    gates: &Gates,
) -> Result<Report<u64>, PoolError> {
    let accounts = [account(1), account(2), account(3), account(4), account(5)];
    let Ok(database) = opening(alloc, &accounts) else {
        return Err(PoolError::NoMemory);
    };
    let opening = Opening {
        limits,
        database,
        procedures: Vec::new(alloc),
    };
    run_bank::<R, A, G, W>(rt, alloc, opening, jobs, pool, gates)
}

/// The same over the implementations that the program uses. Prints this of the report, or why there is none.
pub fn run<W: Threads + Wait + Sync + Print>(
    rt: &W,
    alloc: Global,
    limits: Limits,
    jobs: &[Job],
    pool: Pool,
    gates: &Gates,
    printed: Printed<'_>,
) -> io::Result<()> {
    match run_on::<SlabRecords, PerKey, BitGraph, W>(rt, alloc, limits, jobs, pool, gates) {
        Ok(report) => print_report(rt, alloc, &report, printed),
        Err(error) => println!(rt; "{error}"),
    }
}

/// The checking balance of the customer of this name.
pub fn checking(database: &Database, name: u32) -> i64 {
    match Key::new(2, i64::from(name).wrapping_add(100)) {
        Some(key) => database.get(key).unwrap_or(0),
        None => 0,
    }
}

/// The total of all customers, over both accounts.
pub fn held(database: &Database) -> i64 {
    let mut total = 0i64;
    for (key, value) in database.rows() {
        if key.table() != 0 {
            total = total.wrapping_add(*value);
        }
    }
    total
}
