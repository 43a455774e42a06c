//! The database and limits of a run, and the test of its input.
ghost use Rattle.std.specs.Prelude.{◌≡◌, ◌↔◌, IsTrue, Result, Ok, Err};
ghost use Rattle.sgt_workers.specs.declared.errors.PoolError.TheVariants as PoolError;
ghost use Rattle.sgt_workers.specs.Banks.{AreWorkers, AreTries, AreLimitsFor, AreNumbered, AreJobs};

use crate::errors::PoolError;
use sgt_audit::Job;
use sgt_dispatch::MOST_JOBS;
use sgt_model::{Database, Limits};
use sgt_proc::Checked;

/// The most workers that a run may have.
pub const MOST_WORKERS: u32 = 16;

/// The most tries that a job may have.
pub const MOST_TRIES: u32 = 1000;

/// The database, procedures and limits that jobs run on. The procedures are numbered from 0 in their order.
#[derive(Drop)]
pub struct Bank {
    pub opening: Database,
    pub procedures: Vec<Checked>,
    pub limits: Limits,
}

/// Tests whether a run can be made of these. Else returns the first of `BadWorkers`, `BadTries`, `BadLimits` and
/// `BadJobs` that applies.
pub fn check(limits: &Limits, jobs: &[Job], workers: u32, tries: u32) -> Result<(), PoolError>
    ensures bad_workers { (result ≡ Err PoolError.BadWorkers) ↔ (¬ AreWorkers workers) }
    ensures bad_tries { (result ≡ Err PoolError.BadTries) ↔ (AreWorkers workers × (¬ AreTries tries)) }
    ensures bad_limits { (result ≡ Err PoolError.BadLimits)
        ↔ (AreWorkers workers × AreTries tries × (¬ AreLimitsFor workers limits.now)) }
    ensures bad_jobs { (result ≡ Err PoolError.BadJobs)
        ↔ (AreWorkers workers × AreTries tries × AreLimitsFor workers limits.now × (¬ AreJobs jobs.now)) }
{
    if workers < 1 || workers > MOST_WORKERS {
        return Err(PoolError::BadWorkers);
    }
    if tries < 1 || tries > MOST_TRIES {
        return Err(PoolError::BadTries);
    }
    if !limits.are_in_range() || limits.live < workers {
        return Err(PoolError::BadLimits);
    }
    if jobs.len() > MOST_JOBS || !are_numbered(jobs) {
        return Err(PoolError::BadJobs);
    }
    Ok(())
}

/// Whether each job's number is its index.
fn are_numbered(jobs: &[Job]) -> bool
    ensures { IsTrue result ↔ AreNumbered jobs.now }
{
    for i in 0..jobs.len() {
        if jobs[i].number as usize != i {
            return false;
        }
    }
    true
}
