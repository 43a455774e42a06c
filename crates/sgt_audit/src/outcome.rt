//! The outcomes of a job.
use sgt_model::Tid;

/// The outcome of a job. Entries of the history are named by their numbers, counted from 0.
#[derive(Debug, Drop)]
pub enum Outcome<N> {
    /// This entry committed the job's transaction.
    Done(u64),
    /// This entry aborted the job's transaction, whose procedure raised a code.
    Asked(u64),
    /// `Gave`, the job gave up: it used all its attempts, one after another. Each attempt was a transaction that was
    /// aborted by a cycle or in cascade.
    Gave(Vec<Tid>),
    /// This entry refused to start a transaction for the job.
    Refused(u64),
    /// The gate made the worker leave while it had the job.
    Left(N),
    /// No worker took the job.
    Untaken,
    /// An allocation failed in a call for the job. Its transaction, if it had one, was aborted, and the worker
    /// continued.
    NoMemory,
}
