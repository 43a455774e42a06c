//! A job: one call of a procedure.
use sgt_model::Args;

/// One call of a procedure, for a worker to run as a transaction of its own.
#[derive(Drop)]
pub struct Job {
    /// Its index among the jobs of a run, from 0.
    pub number: u32,
    /// The procedure, by its index in the list of procedures.
    pub procedure: u16,
    /// The arguments of the call.
    pub args: Args,
}
