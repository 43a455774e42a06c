//! Faults of reads, found in one pass over what each read saw.
ghost use Rattle.std.specs.Prelude.{◌≡◌, ◌⊎◌, ℕ, List, Some, IfSome, IsNone, IfOk};
ghost use Rattle.sgt_appends.specs.Runs.{Ended, MayRun};
ghost use Rattle.sgt_appends.specs.Precedences.{Appends};
ghost use Rattle.sgt_appends.specs.Orders.{IsClean, AllClean};
ghost use Rattle.sgt_appends.specs.Indexes.{position_of, IsIndex};
ghost use Rattle.sgt_appends.specs.Reads.{IsReadAt, own_at, HasFault, IsCleanAt, AreCleanIn, Lasts, last_in, IsFaultAt, IsPassedOne};
ghost use Rattle.sgt_appends.specs.Lists.{StandsBefore, IsOnce};
ghost use Rattle.sgt_appends.specs.Tables.{stands};
ghost use Rattle.sgt_appends.specs.declared.fault.Fault.TheVariants.{Twice};
ghost use Rattle.sgt_appends.specs.declared.transaction.Status.TheVariants.{Committed};

use crate::append_index::AppendIndex;
use crate::contents::Contents;
use crate::fault::Fault;
use crate::transaction::{Operation, Status, Transaction};
use sgt_model::NoMemory;
use std::alloc::Global;
use std::collections::{BTreeMap, BTreeSet};

/// A read of a committed transaction, with what it saw.
#[derive(Clone, Copy)]
pub struct Read<'a> {
    /// The transaction.
    pub reader: usize,
    /// The position of the read in it.
    pub position: usize,
    /// The key that was read.
    pub key: u32,
    /// The values that it saw.
    pub seen: &'a [u64],
}

/// The read at the position, if the transaction committed.
pub fn read_of<'a>(history: &'a [Transaction], reader: usize, position: usize) -> Option<Read<'a>>
    ensures place { IfSome result (λ r. (r.reader ≡ reader) × (r.position ≡ position)) }
    ensures some { IfSome result (λ r. Ended history.now r.reader Committed × IsReadAt history.now r.reader r.position r.key r.seen.now) }
    ensures none { IsNone result → (k : ℕ) (seen : List ℕ) → Ended history.now reader Committed
        → ¬ IsReadAt history.now reader position k seen }
{
    let transaction = history.get(reader)?;
    if transaction.status != Status::Committed {
        return None;
    }
    match transaction.operations.get(position)? {
        Operation::Read { key, values } => Some(Read {
            reader,
            position,
            key: *key,
            seen: values.as_slice(),
        }),
        Operation::Append { .. } => None,
    }
}

/// The first fault of a read of a committed transaction, with the reader and the position of the read.
pub fn first_fault(
    alloc: Global,
    history: &[Transaction],
    appends: &AppendIndex,
) -> Result<Option<(usize, usize, Fault)>, NoMemory>
    requires { IsIndex history.now (position_of appends.now) }
    ensures fault { IfOk result (λ found. IfSome found (λ x. HasFault history.now x.0 x.1 x.2)) }
    ensures clean { IfOk result (λ found. IsNone found → AllClean history.now) }
{
    for number in 0..history.len() {
        if let Some((position, fault)) = fault_in(alloc, history, appends, number)? {
            return Ok(Some((number, position, fault)));
        }
    }
    Ok(None)
}

/// The first fault of a read of the transaction, if it committed, with the position of the read.
fn fault_in(
    alloc: Global,
    history: &[Transaction],
    appends: &AppendIndex,
    number: usize,
) -> Result<Option<(usize, Fault)>, NoMemory>
    requires { IsIndex history.now (position_of appends.now) }
    ensures fault { IfOk result (λ found. IfSome found (λ x. HasFault history.now number x.0 x.1)) }
    ensures clean { IfOk result (λ found. IsNone found → AreCleanIn history.now number) }
{
    let Some(transaction) = history.get(number) else {
        return Ok(None);
    };
    let mut own = Contents::new(alloc);
    for (position, operation) in transaction.operations.iter().enumerate() {
        if let Some(fault) = fault_here(alloc, history, appends, &own, number, position)? {
            return Ok(Some((position, fault)));
        }
        own.note(alloc, operation)?;
    }
    Ok(None)
}

/// The fault of the read at the position of the transaction, if it committed. `own` has what the transaction appends
/// before.
fn fault_here(
    alloc: Global,
    history: &[Transaction],
    appends: &AppendIndex,
    own: &Contents,
    number: usize,
    position: usize,
) -> Result<Option<Fault>, NoMemory>
    requires index { IsIndex history.now (position_of appends.now) }
    requires own { (k : ℕ) → stands own.now k ≡ own_at history.now number position k }
    ensures fault { IfOk result (λ found. IfSome found (HasFault history.now number position)) }
    ensures clean { IfOk result (λ found. IsNone found → IsCleanAt history.now number position) }
{
    match read_of(history, number, position) {
        Some(read) => fault_of(alloc, history, appends, own, read),
        None => Ok(None),
    }
}

/// The fault of the read, if any. `own` has what its transaction appends before.
fn fault_of(
    alloc: Global,
    history: &[Transaction],
    appends: &AppendIndex,
    own: &Contents,
    read: Read<'_>,
) -> Result<Option<Fault>, NoMemory>
    requires index { IsIndex history.now (position_of appends.now) }
    requires committed { Ended history.now read.reader Committed }
    requires read { IsReadAt history.now read.reader read.position read.key read.seen.now }
    requires own { stands own.now read.key ≡ own_at history.now read.reader read.position read.key }
    ensures fault { IfOk result (λ found. IfSome found (λ fault. HasFault history.now read.entry.reader read.entry.position fault)) }
    ensures clean { IfOk result (λ found. IsNone found → IsClean history.now read.entry.reader read.entry.key
        (own_at history.now read.entry.reader read.entry.position read.entry.key) read.entry.seen.now) }
{
    if !own.is_end_of(read.key, read.seen) {
        return Ok(Some(Fault::EndsOtherwise));
    }
    let mut last = BTreeMap::new(alloc);
    for value in read.seen {
        if let Some(fault) = fault_at(history, appends, read, &mut last, *value)? {
            return Ok(Some(twice_or(alloc, read.seen, fault)?));
        }
    }
    Ok(None)
}

/// The fault of the read at a value, after those before it. `last` has for each transaction the position of its last
/// one.
fn fault_at(
    history: &[Transaction],
    appends: &AppendIndex,
    read: Read<'_>,
    last: &mut BTreeMap<usize, usize>,
    value: u64,
) -> Result<Option<Fault>, NoMemory>
    requires { IsIndex history.now (position_of appends.now) }
    ensures fault { IfOk result (λ found. IfSome found (λ fault.
        IsFaultAt history.now (position_of appends.now) read.entry.reader read.entry.position read.entry.key
        (last_in last.old) value fault)) }
    ensures none { IfOk result (λ found. IsNone found →
        IsPassedOne history.now (position_of appends.now) read.entry.reader read.entry.position read.entry.key
        (last_in last.old) (last_in last.new) value) }
{
    let Some((by, append)) = written_by(history, appends, read.key, value) else {
        return Ok(Some(unwritten(history, appends, read.key, value)));
    };
    if by == read.reader && append >= read.position {
        return Ok(Some(Fault::Ahead { append }));
    }
    let Some(before) = last.insert(by, append)? else {
        return Ok(None);
    };
    if before == append {
        return Ok(Some(Fault::Twice(value)));
    }
    if before > append {
        return Ok(Some(Fault::Swapped {
            by,
            first: append,
            second: before,
        }));
    }
    Ok(None)
}

/// The fault of a read that saw the value, which no transaction appends that may have taken effect.
fn unwritten(history: &[Transaction], appends: &AppendIndex, key: u32, value: u64) -> Fault
    requires index { IsIndex history.now (position_of appends.now) }
    requires none { (u : ℕ) → Appends history.now u key value → ¬ MayRun history.now u }
    ensures { (t p : ℕ) (last : Lasts) → IsFaultAt history.now (position_of appends.now) t p key last value result }
{
    match appends.find(key, value) {
        Some((by, append)) => Fault::Aborted { by, append },
        None => Fault::Unwritten(value),
    }
}

/// The fault of a read that saw these values. If two of them stand in the wrong order, and one stands there twice, that
/// is the fault.
fn twice_or(alloc: Global, seen: &[u64], fault: Fault) -> Result<Fault, NoMemory>
    ensures { IfOk result (λ reported. (reported ≡ fault) ⊎ ((v : ℕ) × (reported ≡ Twice v) × StandsBefore seen.now v v)) }
{
    match fault {
        Fault::Swapped { .. } => match twice_in(alloc, seen)? {
            Some(value) => Ok(Fault::Twice(value)),
            None => Ok(fault),
        },
        _ => Ok(fault),
    }
}

/// The first value that stands in the list a second time.
fn twice_in(alloc: Global, seen: &[u64]) -> Result<Option<u64>, NoMemory>
    ensures some { IfOk result (λ found. IfSome found (λ v. StandsBefore seen.now v v)) }
    ensures none { IfOk result (λ found. IsNone found → IsOnce seen.now) }
{
    let mut met = BTreeSet::new(alloc);
    for value in seen {
        if !met.insert(*value)? {
            return Ok(Some(*value));
        }
    }
    Ok(None)
}

/// Where a transaction that is not aborted appends the value to the key.
fn written_by(
    history: &[Transaction],
    appends: &AppendIndex,
    key: u32,
    value: u64,
) -> Option<(usize, usize)>
    requires { IsIndex history.now (position_of appends.now) }
    ensures some { IfSome result (λ x. (position_of appends.now key value ≡ Some x) × MayRun history.now x.0) }
    ensures none { IsNone result → (u : ℕ) → Appends history.now u key value → ¬ MayRun history.now u }
{
    let (by, append) = appends.find(key, value)?;
    if history.get(by)?.status == Status::Aborted {
        return None;
    }
    Some((by, append))
}
