//! The outcomes of jobs that run as transactions, and the test of those outcomes.
//!
//! A job is one call of a procedure. Its result is an [`Outcome`], which names entries of a history or transactions in
//! it. `specs/Outcomes.antt` defines what each outcome says of the history, and `specs/AllOutcomes.antt` what all of
//! them say together. [`audit`] tests whether they are true: each of its job, none of what another names, and none too
//! few.
//!
//! It runs nothing, and depends on no engine and no threads: its input is a legal history, jobs and outcomes, from any
//! source.
//!
//! ```
//! // Entry 4 commits the one job of this history. The first outcome says so; the second names entry 3, a step.
//! assert!(audit(alloc, history, &jobs, &[Outcome::<Infallible>::Done(4)], 1, 100)?);
//! assert!(!audit(alloc, history, &jobs, &[Outcome::<Infallible>::Done(3)], 1, 100)?);
//! ```
#![tactic(auto)]

mod all_outcomes;
mod attempts;
mod counts;
mod events;
mod job;
mod lives;
mod names;
mod outcome;
mod stands;
mod survey;

pub use all_outcomes::audit;
pub use job::Job;
pub use outcome::Outcome;
