//! The audit: whether the outcomes of all jobs are true of a legal history.
ghost use Rattle.std.specs.Prelude.{◌≡◌, ◌↔◌, IsTrue, IfOk, reverse};
ghost use Rattle.sgt_model.specs.Configurations.{Configuration};
ghost use Rattle.sgt_model.specs.Legality.{Legal};
ghost use Rattle.sgt_audit.specs.AllOutcomes.{OutcomesStand};

use crate::counts::counts_agree;
use crate::job::Job;
use crate::names::{entries_named, none_twice, transactions_named};
use crate::outcome::Outcome;
use crate::stands::all_stand;
use crate::survey::{Survey, make_survey};
use sgt_log::History;
use sgt_model::NoMemory;
use std::alloc::Global;

/// Whether the outcomes of the jobs are true of a legal history: `OutcomesStand`. It makes a few passes over the
/// history, the jobs and the named transactions, and never searches one for each element of another.
///
/// `NoMemory` if an allocation failed.
pub fn audit<N>(
    alloc: Global,
    history: &History,
    jobs: &[Job],
    outcomes: &[Outcome<N>],
    workers: u32,
    tries: u32,
) -> Result<bool, NoMemory>
    requires { (s : Configuration) × Legal s (reverse history.now.entries) }
    ensures { IfOk result (λ stands.
        IsTrue stands ↔ OutcomesStand history.now.entries jobs.now outcomes.now workers tries) }
{
    let Some(Survey { lives, ends }) = make_survey(alloc, history, workers, jobs.len())? else {
        return Ok(false);
    };
    if !all_stand(history, &lives, jobs, outcomes, tries) {
        return Ok(false);
    }
    let transactions = transactions_named(alloc, history, outcomes)?;
    if !none_twice(alloc, &transactions, lives.len())? {
        return Ok(false);
    }
    let entries = entries_named(alloc, outcomes)?;
    if !none_twice(alloc, &entries, history.len())? {
        return Ok(false);
    }
    Ok(counts_agree(ends, outcomes, workers))
}
