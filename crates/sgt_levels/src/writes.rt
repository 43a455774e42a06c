//! Whether committed transactions write in one order: read uncommitted, PL-1.
ghost use Rattle.std.specs.Prelude.{◌≡◌, ◌≤◌, ◌∷◌, [], ◌++◌, ℕ, List, length, take, IsTrue, IfOk, IfSome};
ghost use Rattle.sgt_appends.specs.Indexes.{position_of, IsIndex};
ghost use Rattle.sgt_appends.specs.Runs.{Ended};
ghost use Rattle.sgt_appends.specs.Precedences.{AppendsOnce};
ghost use Rattle.sgt_appends.specs.Guides.{appended_by};
ghost use Rattle.sgt_appends.specs.declared.transaction.Status.TheVariants.{Committed};
ghost use Rattle.sgt_levels.specs.Replays.{values_in};
ghost use Rattle.sgt_levels.specs.WriteOrders.{Overwrites, IsWriteOrder, IsReadUncommitted, IsWritten, AreKept, AreFirst, FitsAt, FitsIn, AllFit};

use crate::columns::Columns;
use crate::survey::length_of;
use crate::tie::{Kind, Tie, came_first, is_cycle};
use sgt_appends::{AppendIndex, Status, Transaction, names_each, read_of};
use sgt_model::NoMemory;
use std::alloc::Global;

/// Whether the order is a write order.
pub fn is_write_order(
    alloc: Global,
    history: &[Transaction],
    order: &[usize],
) -> Result<bool, NoMemory>
    ensures { IfOk result (λ yes. IsTrue yes → IsWriteOrder history.now order.now) }
{
    let Some(appends) = AppendIndex::of_history(alloc, history)? else {
        return Ok(false);
    };
    if !names_each(alloc, history, order)? {
        return Ok(false);
    }
    match lists_of(alloc, history, order)? {
        Some(lists) => Ok(all_fit(history, &appends, &lists)),
        None => Ok(false),
    }
}

/// What the transactions of the order append to each key, one after another, if the history has them.
fn lists_of(
    alloc: Global,
    history: &[Transaction],
    order: &[usize],
) -> Result<Option<Columns>, NoMemory>
    ensures { IfOk result (λ found. IfSome found (λ lists. (k : ℕ) → values_in lists k ≡ appended_by history.now k order.now)) }
{
    let mut lists = Columns::new(alloc);
    for place in 0..order.len() {
        let Some(transaction) = history.get(order[place]) else {
            return Ok(None);
        };
        let operations = transaction.operations.as_slice();
        lists.add_all(alloc, operations, place)?;
    }
    Ok(Some(lists))
}

/// Whether each read of a committed transaction fits the lists.
fn all_fit(history: &[Transaction], appends: &AppendIndex, lists: &Columns) -> bool
    requires { IsIndex history.now (position_of appends.now) }
    ensures { IsTrue result → AllFit history.now (values_in lists.now) }
{
    for number in 0..history.len() {
        if !fits_in(history, appends, lists, number) {
            return false;
        }
    }
    true
}

/// Whether each read of the transaction fits, if it committed.
fn fits_in(history: &[Transaction], appends: &AppendIndex, lists: &Columns, number: usize) -> bool
    requires { IsIndex history.now (position_of appends.now) }
    ensures { IsTrue result → FitsIn history.now (values_in lists.now) number }
{
    for position in 0..length_of(history, number) {
        if !fits_at(history, appends, lists, number, position) {
            return false;
        }
    }
    true
}

/// Whether the read at the position fits, if there is one and its transaction committed.
fn fits_at(
    history: &[Transaction],
    appends: &AppendIndex,
    lists: &Columns,
    number: usize,
    position: usize,
) -> bool
    requires { IsIndex history.now (position_of appends.now) }
    ensures { IsTrue result → FitsAt history.now (values_in lists.now) number position }
{
    let Some(read) = read_of(history, number, position) else {
        return true;
    };
    fits(history, appends, lists, read.key, read.seen)
}

/// Whether the values that a read of the key saw fit the list of the key.
fn fits(
    history: &[Transaction],
    appends: &AppendIndex,
    lists: &Columns,
    key: u32,
    seen: &[u64],
) -> bool
    requires { IsIndex history.now (position_of appends.now) }
    ensures { IsTrue result → AreFirst history.now key seen.now (values_in lists.now key) }
{
    match lists.find(key) {
        Some(column) => are_first(history, appends, key, seen, column.values.as_slice()),
        None => are_first(history, appends, key, seen, &[]),
    }
}

/// Whether the values that a read of the key saw, without those that no committed transaction appends, are the first ones
/// of the list.
fn are_first(
    history: &[Transaction],
    appends: &AppendIndex,
    key: u32,
    seen: &[u64],
    list: &[u64],
) -> bool
    requires { IsIndex history.now (position_of appends.now) }
    ensures { IsTrue result → AreFirst history.now key seen.now list.now }
{
    let mut at = 0;
    for value in seen {
        let Some(next) = next_place(history, appends, key, *value, list, at) else {
            return false;
        };
        at = next;
    }
    true
}

/// How many values of the list a read saw with this value, if it saw `at` of them before it. The value is the next one, or
/// no committed transaction appends it.
fn next_place(
    history: &[Transaction],
    appends: &AppendIndex,
    key: u32,
    value: u64,
    list: &[u64],
    at: usize,
) -> Option<usize>
    requires index { IsIndex history.now (position_of appends.now) }
    requires within { at ≤ length list.now }
    ensures within { IfSome result (λ next. next ≤ length list.now) }
    ensures kept { IfSome result (λ next. (xs : List ℕ) → AreKept history.now key xs (take at list.now)
        → AreKept history.now key (xs ++ value ∷ []) (take next list.now)) }
{
    if at < list.len() {
        if list[at] == value {
            return Some(at + 1);
        }
    }
    if is_written(history, appends, key, value) {
        return None;
    }
    Some(at)
}

/// Whether a committed transaction appends the value to the key.
fn is_written(history: &[Transaction], appends: &AppendIndex, key: u32, value: u64) -> bool
    requires { IsIndex history.now (position_of appends.now) }
    ensures { (¬ IsTrue result) → ¬ IsWritten history.now key value }
{
    match appends.find(key, value) {
        Some(found) => has_committed(history, found.0),
        None => false,
    }
}

/// Whether the transaction committed.
pub(crate) fn has_committed(history: &[Transaction], number: usize) -> bool
    ensures yes { IsTrue result → Ended history.now number Committed }
    ensures no { (¬ IsTrue result) → ¬ Ended history.now number Committed }
{
    match history.get(number) {
        Some(transaction) => is_committed(transaction.status),
        None => false,
    }
}

/// Whether the status is that of a transaction that committed.
fn is_committed(status: Status) -> bool
    ensures yes { IsTrue result → status ≡ Committed }
    ensures no { (¬ IsTrue result) → ¬ (status ≡ Committed) }
{
    match status {
        Status::Committed => true,
        Status::Aborted => false,
        Status::Unknown => false,
    }
}

/// Whether the ties are a cycle that leaves no write order.
pub fn rules_out_uncommitted(history: &[Transaction], ties: &[Tie]) -> bool
    requires { AppendsOnce history.now }
    ensures { IsTrue result → ¬ IsReadUncommitted history.now }
{
    is_cycle(history, ties, Kind::Overwrites)
}

/// Whether the later one of the tie overwrites the earlier one, and both committed.
pub(crate) fn overwrites(history: &[Transaction], tie: &Tie) -> bool
    ensures { IsTrue result → Overwrites history.now tie.now.from tie.now.to }
{
    if !has_committed(history, tie.from) || !has_committed(history, tie.to) {
        return false;
    }
    came_first(history, tie)
}
