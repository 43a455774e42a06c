//! The bounds of an index, when a history gets one more entry.
ghost use Rattle.std.specs.Prelude.{◌≡◌, ◌≤◌, ◌<◌, ℕ, Some, length, get_or, OnOk};
ghost use Rattle.sgt_model.specs.ReadFrom.{IsBy};
ghost use Rattle.sgt_model.specs.Accesses.{access_of};
ghost use Rattle.sgt_model.specs.Paths.{Member};
ghost use Rattle.sgt_explain.specs.Indexes.{HasPart, part_in};

use crate::made::made_in;
use sgt_log::EntryRef;
use sgt_model::{NoMemory, Tid};

/// Makes both lists long enough for the transactions in which an entry has a part. What they say of any transaction
/// stays: in the first list one that is missing has the number of entries, in the second it has 0.
///
/// `NoMemory` if an allocation failed.
pub(crate) fn cover_entry(
    firsts: &mut Vec<usize>,
    ends: &mut Vec<usize>,
    len: usize,
    entry: &EntryRef<'_>,
) -> Result<(), NoMemory>
    ensures firsts { (u : ℕ) → get_or firsts.new.items u len ≡ get_or firsts.old.items u len }
    ensures ends { (u : ℕ) → get_or ends.new.items u 0 ≡ get_or ends.old.items u 0 }
    ensures part { OnOk result ((u : ℕ) → HasPart entry.now u → u < length firsts.new.items) }
    ensures by { OnOk result ((u : ℕ) → part_in entry.now ≡ Some u → u < length ends.new.items) }
{
    if let Some(t) = part_of(entry) {
        cover(firsts, t, len)?;
        cover(ends, t, 0)?;
    }
    cover_all(firsts, entry.fell(), len)
}

/// The transaction of which an entry is an access or its own end. A refused event may name any number, and has no part.
fn part_of(entry: &EntryRef<'_>) -> Option<Tid>
    ensures { result ≡ part_in entry.now }
{
    if entry.is_access() || entry.is_ending() {
        entry.named()
    } else {
        None
    }
}

/// Makes a list long enough for a transaction: it appends this number.
fn cover(list: &mut Vec<usize>, t: Tid, number: usize) -> Result<(), NoMemory>
    ensures same { (u : ℕ) → get_or list.new.items u number ≡ get_or list.old.items u number }
    ensures no_less { length list.old.items ≤ length list.new.items }
    ensures long { OnOk result (t < length list.new.items) }
{
    while list.len() <= t.0 as usize {
        list.push(number)?;
    }
    Ok(())
}

/// Makes a list long enough for each of these transactions.
fn cover_all(list: &mut Vec<usize>, tids: &[Tid], number: usize) -> Result<(), NoMemory>
    ensures same { (u : ℕ) → get_or list.new.items u number ≡ get_or list.old.items u number }
    ensures no_less { length list.old.items ≤ length list.new.items }
    ensures long { OnOk result ((u : ℕ) → Member u tids.now → u < length list.new.items) }
{
    for i in 0..tids.len() {
        cover(list, tids[i], number)?;
    }
    Ok(())
}

/// The position after the last access of the transaction whose access the entry is. 0 if it has none, or if the entry is
/// no access.
#[tactic(auto, using(crate::proofs::IndexSteps::by_is, crate::proofs::IndexSteps::by_none))]
pub(crate) fn last_end(ends: &[usize], entry: &EntryRef<'_>) -> usize
    ensures within { (most : ℕ) → ((u : ℕ) → get_or ends.now u 0 ≤ most) → result ≤ most }
    ensures end { (t : ℕ) → IsBy (access_of entry.now) t → result ≡ get_or ends.now t 0 }
{
    match made_in(entry) {
        Some(made) => match ends.get(made.by.0 as usize) {
            Some(end) => *end,
            None => 0,
        },
        None => 0,
    }
}

/// Records that the accesses of the transaction whose access the entry is now end at this position.
#[tactic(auto, using(crate::proofs::IndexSteps::by_is_part, crate::proofs::IndexSteps::by_is, crate::proofs::IndexSteps::by_none))]
pub(crate) fn move_end(ends: &mut Vec<usize>, entry: &EntryRef<'_>, end: usize)
    requires { (u : ℕ) → part_in entry.now ≡ Some u → u < length ends.old.items }
    ensures at { (t : ℕ) → IsBy (access_of entry.now) t → get_or ends.new.items t 0 ≡ end }
    ensures others { (t : ℕ) → (IsBy (access_of entry.now) t → ⊥) → get_or ends.new.items t 0 ≡ get_or ends.old.items t 0 }
{
    if let Some(made) = made_in(entry) {
        ends[made.by.0 as usize] = end;
    }
}
