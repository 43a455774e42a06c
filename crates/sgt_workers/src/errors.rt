//! Why a run of jobs returns no report.
use thiserror::Error;

/// Why a run of jobs returns no report.
#[derive(Clone, Copy, Debug, PartialEq, Eq, Error)]
pub enum PoolError {
    /// The workers are not from 1 to 16.
    #[error("the workers are not from 1 to 16")]
    BadWorkers,
    /// The tries are not from 1 to 1,000.
    #[error("the tries are not from 1 to 1000")]
    BadTries,
    /// A limit is out of its range, or fewer transactions may be live than there are workers.
    #[error("a limit is out of its range, or fewer may be live than there are workers")]
    BadLimits,
    /// There are over 1,000,000 jobs, or one has a number that is not its index.
    #[error("the jobs are too many, or not numbered from 0")]
    BadJobs,
    /// An allocation of the run itself failed. If an allocation fails in a worker's call, that is the job's outcome
    /// instead.
    #[error("no memory")]
    NoMemory,
    /// A thread could not be made.
    #[error("workers not started")]
    Spawn,
    /// The receipts are not the history's entries, a worker got a reply that no legal history has there, or an outcome
    /// is not true of the history.
    #[error("receipts differ")]
    Mismatch,
}
