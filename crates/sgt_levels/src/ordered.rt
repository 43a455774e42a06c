//! Snapshot runs in which transactions begin only after others have committed: strong snapshot isolation by real time,
//! and session snapshot isolation by the order of each process. Whether a run keeps the orders, and that a cycle leaves
//! none, is tested, not proved.
ghost use Rattle.std.specs.Prelude.{IfOk};
ghost use Rattle.sgt_levels.specs.Answers.{IsOrderedRight};

use crate::replay::is_snapshot_run;
use crate::search::{Snapshots, search_snapshots};
use crate::survey::Survey;
use crate::tie::{Passage, is_round};
use sgt_appends::{AppendIndex, Before, Transaction};
use sgt_model::NoMemory;
use std::alloc::Global;

/// Whether there is a snapshot run that keeps orders, with the evidence.
#[derive(Drop)]
pub enum Ordered {
    /// There is, if it keeps them: an order of commits, and the start of each.
    Run(Snapshots),
    /// There is none: a cycle without two misses next to one another.
    Cycle(Vec<Passage>),
    /// Not decided.
    Open,
}

/// A snapshot run that keeps the orders, or a cycle, of a history whose reads have no fault and are prefixes of one another.
pub fn ordered_run(
    alloc: Global,
    history: &[Transaction],
    before: Before<'_>,
) -> Result<Ordered, NoMemory>
    ensures { IfOk result (IsOrderedRight history.now) }
{
    let Some(appends) = AppendIndex::of_history(alloc, history)? else {
        return Ok(Ordered::Open);
    };
    let survey = Survey::of_history(alloc, history, &appends)?;
    match search_snapshots(alloc, &survey, before)? {
        Some(Ok(run)) => {
            if is_snapshot_run(alloc, history, run.order.as_slice(), run.starts.as_slice())? {
                return Ok(Ordered::Run(run));
            }
            Ok(Ordered::Open)
        }
        Some(Err(passages)) if is_round(history, passages.as_slice()) => {
            Ok(Ordered::Cycle(passages))
        }
        _ => Ok(Ordered::Open),
    }
}
