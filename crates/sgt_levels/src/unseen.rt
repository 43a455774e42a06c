//! What leaves snapshot isolation undecided: two appends to one key that no read saw.
ghost use Rattle.std.specs.Prelude.{IsTrue, IfOk, IfSome};
ghost use Rattle.sgt_appends.specs.Indexes.{AppendAt};
ghost use Rattle.sgt_appends.specs.Runs.{Ended};
ghost use Rattle.sgt_appends.specs.declared.transaction.Status.TheVariants.{Committed};
ghost use Rattle.sgt_levels.specs.Unseen.{NoneSaw, MissesIn, MissesAt, AreUnseen};

use crate::survey::{Survey, length_of};
use crate::writes::has_committed;
use sgt_appends::{AppendIndex, Transaction, append_at, has, read_of};
use sgt_model::NoMemory;
use std::alloc::Global;
use std::collections::BTreeMap;

/// Two committed transactions append to one key, and no read saw either value. The appends are named by their positions.
#[derive(Clone, Copy)]
pub struct Unseen {
    pub one: usize,
    pub first: usize,
    pub other: usize,
    pub second: usize,
}

/// Two such appends, if the search finds some: a read of their key after all else would show which of them came first.
/// The search is for histories whose reads of a key are prefixes of one another.
pub fn unseen_appends(alloc: Global, history: &[Transaction]) -> Result<Option<Unseen>, NoMemory>
    ensures { IfOk result (λ found. IfSome found (AreUnseen history.now)) }
{
    let Some(appends) = AppendIndex::of_history(alloc, history)? else {
        return Ok(None);
    };
    let survey = Survey::of_history(alloc, history, &appends)?;
    match find(alloc, &survey)? {
        Some(found) if are_unseen(history, found) => Ok(Some(found)),
        _ => Ok(None),
    }
}

/// Two appends to one key that are in no line.
fn find(alloc: Global, survey: &Survey<'_>) -> Result<Option<Unseen>, NoMemory> {
    let mut before = BTreeMap::new(alloc);
    for (key, (other, second)) in survey.unseen.as_slice() {
        if has_committed(survey.history, *other) {
            match before.insert(*key, (*other, *second))? {
                Some((one, first)) if one != *other => {
                    return Ok(Some(Unseen {
                        one,
                        first,
                        other: *other,
                        second: *second,
                    }));
                }
                _ => (),
            }
        }
    }
    Ok(None)
}

/// Whether the appends are two of that kind.
fn are_unseen(history: &[Transaction], it: Unseen) -> bool
    ensures { IsTrue result → AreUnseen history.now it }
{
    if it.one == it.other {
        return false;
    }
    let Some((key, value)) = append_of(history, it.one, it.first) else {
        return false;
    };
    let Some((other_key, next)) = append_of(history, it.other, it.second) else {
        return false;
    };
    if key != other_key || !none_saw(history, key, value) {
        return false;
    }
    none_saw(history, key, next)
}

/// The key and the value of the append at the position, if the transaction committed.
fn append_of(history: &[Transaction], number: usize, position: usize) -> Option<(u32, u64)>
    ensures ended { IfSome result (λ x. Ended history.now number Committed) }
    ensures at { IfSome result (λ x. AppendAt history.now number position x.0 x.1) }
{
    if !has_committed(history, number) {
        return None;
    }
    let (key, value) = append_at(history, number, position)?;
    Some((key, value))
}

/// Whether no committed transaction saw the value at the key.
fn none_saw(history: &[Transaction], key: u32, value: u64) -> bool
    ensures { IsTrue result → NoneSaw history.now key value }
{
    for number in 0..history.len() {
        if !misses_in(history, number, key, value) {
            return false;
        }
    }
    true
}

/// Whether no read of the transaction saw the value at the key, if it committed.
fn misses_in(history: &[Transaction], number: usize, key: u32, value: u64) -> bool
    ensures { IsTrue result → MissesIn history.now key value number }
{
    for position in 0..length_of(history, number) {
        if !misses_at(history, number, position, key, value) {
            return false;
        }
    }
    true
}

/// Whether the read at the position, if there is one, did not see the value at the key.
fn misses_at(history: &[Transaction], number: usize, position: usize, key: u32, value: u64) -> bool
    ensures { IsTrue result → MissesAt history.now key value number position }
{
    let Some(read) = read_of(history, number, position) else {
        return true;
    };
    if read.key != key {
        return true;
    }
    !has(read.seen, value)
}
