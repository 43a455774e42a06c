//! Whether an order of commits is a run of a level, by replaying it.
ghost use Rattle.std.specs.Prelude.{◌≡◌, ◌≤◌, ◌<◌, ◌++◌, ◌∷◌, [], ℕ, List, get_or, length, IsTrue, IfOk, IfSome};
ghost use Rattle.sgt_appends.specs.Lists.{Has};
ghost use Rattle.sgt_appends.specs.Runs.{operations_of};
ghost use Rattle.sgt_appends.specs.Precedences.{appended};
ghost use Rattle.sgt_levels.specs.Commits.{IsCommittedRun};
ghost use Rattle.sgt_levels.specs.Snapshots.{IsSnapshotRun};
ghost use Rattle.sgt_levels.specs.Replays.{values_in, places_in, IsFront, IsReplayed, StartIs, OperationHolds, HoldOver, AreHeld, IsSnapshotHeld, IsSnapshotReplay};

use crate::columns::Columns;
use sgt_appends::{Operation, Transaction, ends_with, names_each};
use sgt_model::NoMemory;
use std::alloc::Global;

/// Whether the order of commits is a run of committed reads.
pub fn is_committed_run(
    alloc: Global,
    history: &[Transaction],
    order: &[usize],
) -> Result<bool, NoMemory>
    ensures { IfOk result (λ yes. IsTrue yes → IsCommittedRun history.now order.now) }
{
    Ok(names_each(alloc, history, order)? && replays_commits(alloc, history, order)?)
}

/// Whether the order of commits is a snapshot run. `starts` has for each place of the order how many had committed when
/// the transaction there began.
pub fn is_snapshot_run(
    alloc: Global,
    history: &[Transaction],
    order: &[usize],
    starts: &[usize],
) -> Result<bool, NoMemory>
    ensures run { IfOk result (λ yes. IsTrue yes
        → (begin : ℕ → ℕ) × (commit : ℕ → ℕ) × IsSnapshotRun history.now order.now begin commit) }
    ensures replay { IfOk result (λ yes. IsTrue yes → IsSnapshotReplay history.now order.now starts.now) }
{
    Ok(names_each(alloc, history, order)? && replays_snapshots(alloc, history, order, starts)?)
}

/// Whether each read of the order sees what a front of the order has left.
fn replays_commits(
    alloc: Global,
    history: &[Transaction],
    order: &[usize],
) -> Result<bool, NoMemory>
    ensures { IfOk result (λ yes. IsTrue yes → (i : ℕ) → i < length order.now → AreHeld history.now order.now i) }
{
    let mut columns = Columns::new(alloc);
    for place in 0..order.len() {
        let Some(transaction) = history.get(order[place]) else {
            return Ok(false);
        };
        let operations = transaction.operations.as_slice();
        if !reads_hold(alloc, history, order, &columns, place, operations, None)? {
            return Ok(false);
        }
        columns.add_all(alloc, operations, place)?;
    }
    Ok(true)
}

/// Whether each transaction sees what had been left at its start, and no other one has appended to its keys since.
fn replays_snapshots(
    alloc: Global,
    history: &[Transaction],
    order: &[usize],
    starts: &[usize],
) -> Result<bool, NoMemory>
    ensures { IfOk result (λ yes. IsTrue yes → (i : ℕ) → i < length order.now → IsSnapshotHeld history.now order.now i (get_or starts.now i 0)) }
{
    let mut columns = Columns::new(alloc);
    for place in 0..order.len() {
        let Some(transaction) = history.get(order[place]) else {
            return Ok(false);
        };
        let Some(start) = starts.get(place) else {
            return Ok(false);
        };
        let operations = transaction.operations.as_slice();
        if *start > place || !are_free(&columns, operations, *start) {
            return Ok(false);
        }
        if !reads_hold(
            alloc,
            history,
            order,
            &columns,
            place,
            operations,
            Some(*start),
        )? {
            return Ok(false);
        }
        columns.add_all(alloc, operations, place)?;
    }
    Ok(true)
}

/// Whether no other transaction has appended to the keys of the operations' appends since the start.
fn are_free(columns: &Columns, operations: &[Operation], start: usize) -> bool
    ensures { IsTrue result → (k v : ℕ) → Has (appended k operations.now) v
        → IsFront (values_in columns.now k) (places_in columns.now k) (values_in columns.now k) start }
{
    for operation in operations {
        if !is_free(columns, operation, start) {
            return false;
        }
    }
    true
}

/// The same, for one operation.
fn is_free(columns: &Columns, operation: &Operation, start: usize) -> bool
    ensures { IsTrue result → (k v : ℕ) → Has (appended k (operation.now ∷ [])) v
        → IsFront (values_in columns.now k) (places_in columns.now k) (values_in columns.now k) start }
{
    match operation {
        Operation::Append { key, .. } => columns.stays(*key, start),
        Operation::Read { .. } => true,
    }
}

/// Whether each read of the operations, of the transaction at the place, sees what a front of the order has left: the
/// one before the start, or else any.
fn reads_hold(
    alloc: Global,
    history: &[Transaction],
    order: &[usize],
    columns: &Columns,
    place: usize,
    operations: &[Operation],
    start: Option<usize>,
) -> Result<bool, NoMemory>
    requires replayed { IsReplayed history.now order.now place (values_in columns.now) (places_in columns.now) }
    requires early { IfSome start (λ s. s ≤ place) }
    ensures { IfOk result (λ yes. IsTrue yes → HoldOver history.now order.now place start operations.now) }
{
    let mut own = Columns::new(alloc);
    for operation in operations {
        if !holds(history, order, columns, &own, place, operation, start) {
            return Ok(false);
        }
        own.add(alloc, operation, place)?;
    }
    Ok(true)
}

/// Whether the operation, if it is a read, sees such a list with the transaction's own appends.
fn holds(
    history: &[Transaction],
    order: &[usize],
    columns: &Columns,
    own: &Columns,
    place: usize,
    operation: &Operation,
    start: Option<usize>,
) -> bool
    requires replayed { IsReplayed history.now order.now place (values_in columns.now) (places_in columns.now) }
    requires early { IfSome start (λ s. s ≤ place) }
    ensures { IsTrue result → OperationHolds history.now order.now place start (values_in own.now) operation.now }
{
    match operation {
        Operation::Append { .. } => true,
        Operation::Read { key, values } => match own.find(*key) {
            Some(column) => {
                let from = last_start(place, start);
                sees_after(
                    columns,
                    *key,
                    column.values.as_slice(),
                    values.as_slice(),
                    from,
                )
            }
            None => {
                let from = start_of(columns, *key, values.len(), place, start);
                columns.stood(*key, values.as_slice(), from)
            }
        },
    }
}

/// Whether a read of the key saw the list before the place of the order, and then its own appends.
fn sees_after(columns: &Columns, key: u32, own: &[u64], seen: &[u64], from: usize) -> bool
    ensures { IsTrue result → (base : List ℕ) × (seen.now ≡ base ++ own.now) × IsFront (values_in columns.now key) (places_in columns.now key) base from }
{
    ends_with(seen, own) && columns.stood(key, &seen[..seen.len() - own.len()], from)
}

/// The place of the order before which all had committed: the start, if there is one.
fn last_start(place: usize, start: Option<usize>) -> usize
    requires early { IfSome start (λ s. s ≤ place) }
    ensures early { result ≤ place }
    ensures start { (own : List ℕ) → StartIs start place own result }
{
    match start {
        Some(start) => start,
        None => place,
    }
}

/// The place of the order before which the key had this many values: the start, if there is one.
fn start_of(columns: &Columns, key: u32, count: usize, place: usize, start: Option<usize>) -> usize
    requires early { IfSome start (λ s. s ≤ place) }
    ensures early { result ≤ place }
    ensures start { IfSome start (λ s. result ≡ s) }
{
    if let Some(start) = start {
        return start;
    }
    match columns.find(key) {
        Some(column) => match column.places.get(count) {
            Some(next) if *next <= place => *next,
            _ => place,
        },
        None => place,
    }
}
