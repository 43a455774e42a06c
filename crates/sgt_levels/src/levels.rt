//! Which levels what the clients saw is of, each with its evidence.
ghost use Rattle.std.specs.Prelude.{List, IfOk, IfSome, IsTrue};
ghost use Rattle.sgt_appends.specs.declared.transaction.Transaction.{Transaction};
ghost use Rattle.sgt_appends.specs.Precedences.{AppendsOnce};
ghost use Rattle.sgt_appends.specs.Indexes.{position_of, IsIndex};
ghost use Rattle.sgt_appends.specs.Reads.{HasFault};
ghost use Rattle.sgt_levels.specs.Commits.{IsCommittedRun, IsReadCommitted};
ghost use Rattle.sgt_levels.specs.Answers.{AreRight, IsWritesRight, IsCommittedRight, IsSnapshotRight};

use crate::replay::{is_committed_run, is_snapshot_run};
use crate::search::{Snapshots, search_commits, search_snapshots, ties_in};
use crate::survey::{Partial, Survey};
use crate::tie::{Tie, rules_out_committed, rules_out_partial, rules_out_snapshot};
use crate::write_search::search_writes;
use crate::writes::{is_write_order, rules_out_uncommitted};
use sgt_appends::{
    AppendIndex, Before, Fault, Transaction, first_fault, first_incompatible, unknown_read,
};
use sgt_model::NoMemory;
use std::alloc::Global;

/// Whether there is a run of committed reads, with the evidence.
#[derive(Drop)]
pub enum Committed {
    /// There is: an order of commits.
    Run(Vec<usize>),
    /// There is none: a fault of the read at this position of the reader.
    Fault {
        reader: usize,
        read: usize,
        fault: Fault,
    },
    /// There is none: a read saw one append of a transaction and missed another one at the same key.
    Partial(Partial),
    /// There is none: a cycle of ties.
    Cycle(Vec<Tie>),
    /// Not decided.
    Open,
}

/// Whether there is a snapshot run, with the evidence.
#[derive(Drop)]
pub enum Snapshot {
    /// There is: an order of commits, and the start of each.
    Run(Snapshots),
    /// There is none, since there is no run of committed reads.
    NotCommitted,
    /// There is none: a cycle of ties, without two misses next to one another.
    Cycle(Vec<Tie>),
    /// Not decided.
    Open,
}

/// Whether there is a write order, with the evidence.
#[derive(Drop)]
pub enum Writes {
    /// There is, since there is a run of committed reads.
    Implied,
    /// There is.
    Order(Vec<usize>),
    /// There is none: a cycle of ties.
    Cycle(Vec<Tie>),
    /// Not decided.
    Open,
}

/// The answers for the levels.
#[derive(Drop)]
pub struct Levels {
    pub writes: Writes,
    pub committed: Committed,
    pub snapshot: Snapshot,
}

/// Which of the levels what the clients saw is of. `clean` says that no read is known to have a fault, and that reads of a
/// key are prefixes of one another: then no fault is searched for.
///
/// Each order, each run and each cycle is tested. All are open if a value is appended twice to a key, or if a transaction
/// with an unknown end has a read. Otherwise snapshot isolation is undecided only if transactions append to one key
/// values that no read saw. That is tested, not proved.
pub fn levels_of(alloc: Global, history: &[Transaction], clean: bool) -> Result<Levels, NoMemory>
    ensures { IfOk result (AreRight history.now) }
{
    let Some(appends) = AppendIndex::of_history(alloc, history)? else {
        return Ok(Levels {
            writes: Writes::Open,
            committed: Committed::Open,
            snapshot: Snapshot::Open,
        });
    };
    if unknown_read(history).is_some() {
        return Ok(Levels {
            writes: Writes::Open,
            committed: Committed::Open,
            snapshot: Snapshot::Open,
        });
    }
    if let Some((reader, read, fault)) = fault_of(alloc, history, &appends, clean)? {
        return Ok(Levels {
            writes: search_order(alloc, history, &appends)?,
            committed: Committed::Fault {
                reader,
                read,
                fault,
            },
            snapshot: Snapshot::NotCommitted,
        });
    }
    let survey = Survey::of_history(alloc, history, &appends)?;
    let snapshot = snapshot_of(alloc, history, &survey)?;
    let committed = committed_of(alloc, history, &survey, &snapshot)?;
    let writes = writes_of(alloc, history, &appends, &committed)?;
    Ok(Levels {
        writes,
        snapshot: snapshot_under(&committed, snapshot),
        committed,
    })
}

/// Whether there is a write order, after the answer for committed reads.
fn writes_of(
    alloc: Global,
    history: &[Transaction],
    appends: &AppendIndex,
    committed: &Committed,
) -> Result<Writes, NoMemory>
    requires once { AppendsOnce history.now }
    requires committed { IsCommittedRight history.now committed.now }
    ensures { IfOk result (IsWritesRight history.now) }
{
    if is_run(committed) {
        return Ok(Writes::Implied);
    }
    search_order(alloc, history, appends)
}

/// Whether there is a write order.
fn search_order(
    alloc: Global,
    history: &[Transaction],
    appends: &AppendIndex,
) -> Result<Writes, NoMemory>
    requires { AppendsOnce history.now }
    ensures { IfOk result (IsWritesRight history.now) }
{
    match search_writes(alloc, history, appends)? {
        Some(Ok(order)) if is_write_order(alloc, history, order.as_slice())? => {
            Ok(Writes::Order(order))
        }
        Some(Err(ties)) if rules_out_uncommitted(history, ties.as_slice()) => {
            Ok(Writes::Cycle(ties))
        }
        _ => Ok(Writes::Open),
    }
}

/// Whether the answer is that there is a run of committed reads.
fn is_run(committed: &Committed) -> bool
    ensures { (h : List Transaction) → IsTrue result → IsCommittedRight h committed.now → IsReadCommitted h }
{
    match committed {
        Committed::Run(_) => true,
        _ => false,
    }
}

/// A fault of a read, if there is one, unless none is to be searched for.
fn fault_of(
    alloc: Global,
    history: &[Transaction],
    appends: &AppendIndex,
    clean: bool,
) -> Result<Option<(usize, usize, Fault)>, NoMemory>
    requires { IsIndex history.now (position_of appends.now) }
    ensures { IfOk result (λ found. IfSome found (λ x. HasFault history.now x.0 x.1 x.2)) }
{
    if clean {
        return Ok(None);
    }
    if let Some(found) = first_fault(alloc, history, appends)? {
        return Ok(Some(found));
    }
    first_incompatible(alloc, history)
}

/// The order of commits of a snapshot run, if there is one.
fn order_of(alloc: Global, snapshot: &Snapshot) -> Result<Option<Vec<usize>>, NoMemory>
    ensures { IfOk result (λ found. IfSome found (λ order. (h : List Transaction)
        → IsSnapshotRight h snapshot.now → IsCommittedRun h order.items)) }
{
    match snapshot {
        Snapshot::Run(run) => Ok(Some(Vec::from_slice(alloc, run.order.as_slice())?)),
        _ => Ok(None),
    }
}

/// Whether there is a run of committed reads, after the answer for snapshots: a snapshot run is one.
fn committed_of(
    alloc: Global,
    history: &[Transaction],
    survey: &Survey<'_>,
    snapshot: &Snapshot,
) -> Result<Committed, NoMemory>
    requires once { AppendsOnce history.now }
    requires snapshot { IsSnapshotRight history.now snapshot.now }
    ensures { IfOk result (IsCommittedRight history.now) }
{
    match order_of(alloc, snapshot)? {
        Some(order) => Ok(Committed::Run(order)),
        None => committed_alone(alloc, history, survey),
    }
}

/// Whether there is a run of committed reads.
fn committed_alone(
    alloc: Global,
    history: &[Transaction],
    survey: &Survey<'_>,
) -> Result<Committed, NoMemory>
    requires { AppendsOnce history.now }
    ensures { IfOk result (IsCommittedRight history.now) }
{
    if let Some(partial) = survey.partial {
        if rules_out_partial(history, &partial) {
            return Ok(Committed::Partial(partial));
        }
    }
    match search_commits(alloc, survey)? {
        Some(Ok(order)) if is_committed_run(alloc, history, order.as_slice())? => {
            Ok(Committed::Run(order))
        }
        Some(Err(ties)) if rules_out_committed(history, ties.as_slice()) => {
            Ok(Committed::Cycle(ties))
        }
        _ => Ok(Committed::Open),
    }
}

/// The answer for snapshots, after that for committed reads.
fn snapshot_under(committed: &Committed, snapshot: Snapshot) -> Snapshot
    ensures { (h : List Transaction) → IsCommittedRight h committed.now → IsSnapshotRight h snapshot → IsSnapshotRight h result }
{
    if is_no(committed) {
        return Snapshot::NotCommitted;
    }
    snapshot
}

/// Whether there is a snapshot run. That is left open if a read is partial.
fn snapshot_of(
    alloc: Global,
    history: &[Transaction],
    survey: &Survey<'_>,
) -> Result<Snapshot, NoMemory>
    requires { AppendsOnce history.now }
    ensures { IfOk result (IsSnapshotRight history.now) }
{
    if survey.partial.is_some() {
        return Ok(Snapshot::Open);
    }
    let before = Before {
        pairs: &[],
        barriers: 0,
    };
    match search_snapshots(alloc, survey, before)? {
        Some(Ok(run)) => {
            if is_snapshot_run(alloc, history, run.order.as_slice(), run.starts.as_slice())? {
                return Ok(Snapshot::Run(run));
            }
            Ok(Snapshot::Open)
        }
        Some(Err(passages)) => {
            let ties = ties_in(alloc, passages.as_slice())?;
            if rules_out_snapshot(history, ties.as_slice()) {
                return Ok(Snapshot::Cycle(ties));
            }
            Ok(Snapshot::Open)
        }
        _ => Ok(Snapshot::Open),
    }
}

/// Whether the answer is that there is no run of committed reads.
fn is_no(committed: &Committed) -> bool
    ensures { (h : List Transaction) → IsTrue result → IsCommittedRight h committed.now → ¬ IsReadCommitted h }
{
    match committed {
        Committed::Run(_) | Committed::Open => false,
        Committed::Fault { .. } => true,
        Committed::Partial(_) => true,
        Committed::Cycle(_) => true,
    }
}
