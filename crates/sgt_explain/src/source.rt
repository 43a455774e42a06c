//! Why a transaction was aborted in cascade: its read from a transaction that was aborted.
ghost use Rattle.std.specs.Prelude.{◌≡◌, ◌<◌, ◌≤◌, ◌↔◌, ℕ, Some, length, reverse, slice_get, IfSome, IfNone, IsSome, IsSomeAnd, IsTrue};
ghost use Rattle.sgt_model.specs.Configurations.{Configuration};
ghost use Rattle.sgt_model.specs.Legality.{Legal};
ghost use Rattle.sgt_explain.specs.Firsts.{NoneBelow};
ghost use Rattle.sgt_model.specs.ReadFrom.{IsBy};
ghost use Rattle.sgt_model.specs.Paths.{Member};
ghost use Rattle.sgt_explain.specs.Indexes.{IsUntouched};
ghost use Rattle.sgt_explain.specs.Places.{placed_access, placed_falls};
ghost use Rattle.sgt_explain.specs.Sources.{IsUndoneAt, ReadsAt, ReadsUndoneAt, ReportsLook, ReportsSource};

use crate::indexed_history::IndexedHistory;
use crate::made::made_at;
use crate::writers::{is_among, newest_writer};
use sgt_model::{Key, Kind, Tid};

/// A read of another transaction's value.
#[derive(Clone, Copy)]
pub struct SourceRead {
    /// The transaction that read.
    pub reader: Tid,
    /// The transaction that wrote the value.
    pub source: Tid,
    /// The key.
    pub key: Key,
    /// The position of the read.
    pub place: usize,
}

/// Explains a cascading abort. Of the transactions that the entry at this position aborts in cascade, it takes number
/// `number`, from 0. It returns the first read by that transaction of a value written by another one that is aborted
/// there.
///
/// None if no transaction is aborted there, if there is none of this number, or if there is no such read. In a legal
/// history each has one.
pub fn fall_source(history: &IndexedHistory, place: usize, number: usize) -> Option<SourceRead>
    ensures reported { IfSome result (λ source. (t : ℕ) → slice_get (placed_falls history.now place) number ≡ Some t
        → ReportsSource history.now place t source) }
    ensures one { IsSome result → number < length (placed_falls history.now place) }
    ensures some { (t n : ℕ) → slice_get (placed_falls history.now place) number ≡ Some t → n < place
        → ReadsUndoneAt history.now place t n → IsSome result }
    ensures all { (s : Configuration) → Legal s (reverse history.now)
        → number < length (placed_falls history.now place) → IsSome result }
{
    let fell = history.get_entry(place)?.fell();
    if number < fell.len() {
        first_source(history, place, fell[number])
    } else {
        None
    }
}

/// The first read by one transaction, before the end, of a value that another one wrote. None if there is none.
pub(crate) fn read_from(
    history: &IndexedHistory,
    end: usize,
    reader: Tid,
    source: Tid,
) -> Option<SourceRead>
    requires { end ≤ length history.now }
    ensures look { IfSome result (λ read. ReportsLook history.now reader read.place read) }
    ensures source { IfSome result (λ read. read.source ≡ source) }
{
    let low = history.first(source);
    for place in history.first(reader).min(end)..end {
        if let Some(read) = source_at(history, low, place, reader) {
            if read.source == source {
                return Some(read);
            }
        }
    }
    None
}

// The transaction's first read before the end from one that is aborted there.
fn first_source(history: &IndexedHistory, end: usize, reader: Tid) -> Option<SourceRead>
    requires { end < length history.now }
    ensures reported { IfSome result (ReportsSource history.now end reader) }
    ensures none { IfNone result (NoneBelow (ReadsUndoneAt history.now end reader) end) }
{
    let low = first_undone(history, end);
    for place in history.first(reader).min(end)..end {
        if let Some(source) = source_at(history, low, place, reader) {
            if is_undone(history, end, source.source) {
                return Some(source);
            }
        }
    }
    None
}

// A position before which none of the transactions that are aborted at the end has an access.
fn first_undone(history: &IndexedHistory, end: usize) -> usize
    requires { end < length history.now }
    ensures { (v n : ℕ) → IsUndoneAt history.now end v → n < result → IsUntouched history.now v n }
{
    let entry = history.entry(end);
    let first = first_if(history, entry.named(), end);
    first_of_all(history, entry.fell(), first)
}

// A position before which the transaction has no access, or this one if there is no transaction.
fn first_if(history: &IndexedHistory, t: Option<Tid>, other: usize) -> usize
    ensures { (v n : ℕ) → t ≡ Some v → n < result → IsUntouched history.now v n }
{
    match t {
        Some(t) => history.first(t),
        None => other,
    }
}

// A position before which none of these transactions has an access, and which is at most this one.
fn first_of_all(history: &IndexedHistory, tids: &[Tid], most: usize) -> usize
    ensures within { result ≤ most }
    ensures none { (v n : ℕ) → Member v tids.now → n < result → IsUntouched history.now v n }
{
    let mut first = most;
    for i in 0..tids.len() {
        first = first.min(history.first(tids[i]));
    }
    first
}

// Whether the entry at the end aborts the transaction, in cascade or not.
fn is_undone(history: &IndexedHistory, end: usize, t: Tid) -> bool
    requires { end < length history.now }
    ensures { IsTrue result ↔ IsUndoneAt history.now end t }
{
    let entry = history.entry(end);
    entry.named() == Some(t) || is_among(entry.fell(), t)
}

// The transaction that is read from at this position, if there is one, and its write is not before the low position.
fn source_at(history: &IndexedHistory, low: usize, place: usize, reader: Tid) -> Option<SourceRead>
    requires { place < length history.now }
    ensures reported { IfSome result (ReportsLook history.now reader place) }
    ensures some { IfSome result (λ source. (v : ℕ) → ReadsAt history.now reader v place → source.source ≡ v) }
    ensures none { IfNone result ((v : ℕ) → ReadsAt history.now reader v place
        → (n : ℕ) × (n < low) × IsBy (placed_access history.now n) v) }
{
    let made = made_at(history, place)?;
    if made.by != reader || made.kind != Kind::Look {
        return None;
    }
    let source = newest_writer(history, low, place, made.key)?;
    if source == reader {
        return None;
    }
    Some(SourceRead {
        reader,
        source,
        key: made.key,
        place,
    })
}
