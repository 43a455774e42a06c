//! Reads of a key that contradict one another: neither of the two lists is a prefix of the other.
ghost use Rattle.std.specs.Prelude.{IfOk, IfSome};
ghost use Rattle.sgt_appends.specs.Runs.{Ended};
ghost use Rattle.sgt_appends.specs.Reads.{IsReadAt, HasFault};
ghost use Rattle.sgt_appends.specs.declared.transaction.Status.TheVariants.{Committed};

use crate::fault::{Fault, starts_with};
use crate::reads::{Read, read_of};
use crate::transaction::Transaction;
use sgt_model::NoMemory;
use std::alloc::Global;
use std::collections::BTreeMap;

/// The first read that contradicts an earlier one of its key, with the reader and the position of the read.
pub fn first_incompatible(
    alloc: Global,
    history: &[Transaction],
) -> Result<Option<(usize, usize, Fault)>, NoMemory>
    ensures { IfOk result (λ found. IfSome found (λ x. HasFault history.now x.0 x.1 x.2)) }
{
    let mut longest = BTreeMap::new(alloc);
    for number in 0..history.len() {
        if let Some((position, fault)) = incompatible_in(history, &mut longest, number)? {
            return Ok(Some((number, position, fault)));
        }
    }
    Ok(None)
}

/// The first read of the transaction that contradicts the longest one of its key before.
fn incompatible_in(
    history: &[Transaction],
    longest: &mut BTreeMap<u32, (usize, usize)>,
    number: usize,
) -> Result<Option<(usize, Fault)>, NoMemory>
    ensures { IfOk result (λ found. IfSome found (λ x. HasFault history.now number x.0 x.1)) }
{
    let Some(transaction) = history.get(number) else {
        return Ok(None);
    };
    for position in 0..transaction.operations.len() {
        if let Some(fault) = incompatible_at(history, longest, number, position)? {
            return Ok(Some((position, fault)));
        }
    }
    Ok(None)
}

/// The fault of the read at the position of the transaction, if it contradicts the longest one of its key before.
fn incompatible_at(
    history: &[Transaction],
    longest: &mut BTreeMap<u32, (usize, usize)>,
    number: usize,
    position: usize,
) -> Result<Option<Fault>, NoMemory>
    ensures { IfOk result (λ found. IfSome found (HasFault history.now number position)) }
{
    let Some(read) = read_of(history, number, position) else {
        return Ok(None);
    };
    if let Some((other, before)) = longest.get(&read.key).copied() {
        if let Some(fault) = incompatible(history, read, other, before) {
            return Ok(Some(fault));
        }
        if !is_longer(history, read, other, before) {
            return Ok(None);
        }
    }
    longest.insert(read.key, (number, position))?;
    Ok(None)
}

/// The fault of the read, if it contradicts the other transaction's read at the position.
fn incompatible(
    history: &[Transaction],
    read: Read<'_>,
    other: usize,
    position: usize,
) -> Option<Fault>
    requires committed { Ended history.now read.reader Committed }
    requires read { IsReadAt history.now read.reader read.position read.key read.seen.now }
    ensures { IfSome result (λ fault. HasFault history.now read.entry.reader read.entry.position fault) }
{
    let before = read_of(history, other, position)?;
    if before.key != read.key
        || starts_with(before.seen, read.seen)
        || starts_with(read.seen, before.seen)
    {
        return None;
    }
    Some(Fault::Incompatible {
        other,
        read: position,
    })
}

/// Whether the read saw more values than the other transaction's read at the position.
fn is_longer(history: &[Transaction], read: Read<'_>, other: usize, position: usize) -> bool {
    match read_of(history, other, position) {
        Some(before) => read.seen.len() > before.seen.len(),
        None => true,
    }
}
