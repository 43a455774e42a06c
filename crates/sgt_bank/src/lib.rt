//! The whole of `sgt bank` from a source to a sink: bytes in, jobs, worker threads, outcomes, text out.
//!
//! - [`read_input`] reads an input: an opening (the first line) with its records, and a job for each later line,
//!   numbered from 0. `specs/Inputs.antt` defines this, and the first fault of an input.
//! - [`bank_of`] turns an opening into the `Bank` of `sgt_workers`, which the jobs run on.
//! - [`outcome_line`] is the line of a job's outcome. [`report_text`] is all these lines, and then the database.
//! - [`run_jobs`] runs the jobs with `run` of `sgt_workers`, which makes the threads, and writes the report.
//!   `specs/Banks.antt` says what a run is, and `specs/Outputs.antt` what it guarantees.
//! - [`run_bank`] is the command. Its [`Options`] select the report, as text or as JSON, the history or the records
//!   ([`Output`]), and whether it explains how the jobs ended ([`Explanations`]).
//!
//! ```
//! let mut reader = Reader::new(rt.reader());
//! let mut writer = Writer::new(io::writer(&rt));
//! run_jobs(&rt, alloc, &mut reader, &mut writer, 4, 100)?; // four workers, a hundred tries for each job
//! ```
#![tactic(auto)]

mod bank;
mod codes;
mod command;
mod gate;
mod input;
mod jobs;
mod outcome_json;
mod outcome_text;
mod output;
mod report;
mod run;
mod tries;
mod watch;

pub use bank::bank_of;
pub use command::{Explanations, Options, run_bank};
pub use input::read_input;
pub use outcome_text::outcome_line;
pub use output::Output;
pub use report::report_text;
pub use run::run_jobs;
pub use sgt_workers::{MOST_TRIES, MOST_WORKERS};
