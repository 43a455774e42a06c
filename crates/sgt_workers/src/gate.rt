//! The gate: called before each call of a worker, and notified of what becomes of each job.
use sgt_audit::Outcome;
use sgt_model::Tid;

/// A gate's answer.
pub enum Pass<N> {
    /// The worker makes its next call.
    Go,
    /// The worker gives up its job and ends. The job's outcome has this note.
    Leave(N),
}

/// Called before each call that a worker makes to its session, and notified of each job that the worker took. A gate
/// may block a worker: no lock is held during these calls.
pub trait Gate {
    /// The note in the outcome of a job that was left. Only a gate makes notes, so no worker can leave a job unless its
    /// gate says so.
    type Note: Drop + Send;

    /// The most jobs that a worker takes from the queue at once. Those that it has not begun when it leaves stay untaken, so
    /// a gate that makes workers leave must not return more than 1, the default.
    fn most_at_once(&self) -> usize {
        1
    }

    /// Whether the worker goes on. The workers are numbered from 0; `calls` is how many calls this one has made.
    fn pass(&self, worker: u8, calls: u64) -> Pass<Self::Note>;

    /// An attempt at the job with this number failed: its transaction was aborted by a cycle or in cascade. Called
    /// once, before the next attempt. No clause says so, since a gate stores what it learns behind its own locks; tests
    /// check it. The default does nothing.
    fn failed(&self, _worker: u8, _job: u32, _t: Tid) {}

    /// The worker has made its last call for the job with this number. This is the outcome.
    fn finished(&self, worker: u8, job: u32, outcome: &Outcome<Self::Note>);
}
