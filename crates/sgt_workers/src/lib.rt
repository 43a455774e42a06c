//! Workers that run jobs as transactions of one engine.
//!
//! A job is one call of a procedure. [`run`] has up to 16 threads, which take jobs from a queue and make their calls to
//! one engine. Each call holds the engine's lock once. A [`Gate`] is called before each call, and notified of each
//! failed attempt and of each job's end. A job's result is an [`Outcome`], which names entries of the engine's history
//! or transactions in it. `run` returns no report with an outcome that is not true.
//!
//! It knows nothing of procedures, accesses and conflicts: the engine promises that the history is legal. It promises
//! neither that a run ends, nor which worker takes which job.
//!
//! ```
//! /// Lets every worker go on.
//! #[derive(Drop)]
//! struct Open;
//!
//! impl Gate for Open {
//!     type Note = Infallible;
//!
//!     fn pass(&self, _worker: u8, _calls: u64) -> Pass<Infallible> {
//!         Pass::Go
//!     }
//!
//!     fn finished(&self, _worker: u8, _job: u32, _outcome: &Outcome<Infallible>) {}
//! }
//!
//! /// One job, on four workers, tried up to 100 times. Its outcome is `Done(4)` if entry 4 of the history commits its
//! /// transaction.
//! fn run_one<W: Threads + Wait + Sync>(
//!     rt: &W,
//!     alloc: Global,
//!     bank: Bank,
//!     args: Args,
//! ) -> Result<Report<Infallible>, PoolError> {
//!     let jobs = [Job { number: 0, procedure: 1, args }];
//!     run::<ListRecords, OneList, PairGraph, Open, _>(rt, alloc, bank, &jobs, 4, 100, &Open)
//! }
//! ```
#![tactic(auto)]

mod bank;
mod caller;
mod errors;
mod gate;
mod pool;
mod report;
mod runs;
mod worker;

pub use bank::{Bank, MOST_TRIES, MOST_WORKERS};
pub use errors::PoolError;
pub use gate::{Gate, Pass};
pub use report::Report;
pub use runs::run;
pub use sgt_audit::{Job, Outcome};
pub use sgt_dispatch::MOST_JOBS;
