//! An access that an entry of a history records.
ghost use Rattle.std.specs.Prelude.{◌≡◌, ◌<◌, ◌≤◌, ℕ, Some, length};
ghost use Rattle.sgt_model.specs.Accesses.{access_at, access_of};
ghost use Rattle.sgt_model.specs.ReadFrom.{IsBy};
ghost use Rattle.sgt_explain.specs.Places.{placed_access, is_removal, removes_at};

use crate::indexed_history::IndexedHistory;
use sgt_log::EntryRef;
use sgt_model::{Event, Key, Kind, Reply, Tid};
use std::marker::Model;

/// An access in a history: its transaction, its key, whether it is a read or a write, and the value read or written, if any.
#[derive(Clone, Copy)]
pub(crate) struct Made {
    pub(crate) by: Tid,
    pub(crate) key: Key,
    pub(crate) kind: Kind,
    pub(crate) value: Option<i64>,
}

impl Model for Made {
    ghost use Rattle.sgt_model.specs.Accesses.{Access};

    ghost Value = { Access };

    ghost view = { λ m. record { by = m.by; key = m.key; kind = m.kind; value = m.value } };

    ghost inverse = { λ a. record { by = a.by; key = a.key; kind = a.kind; value = a.value } };
}

impl Made {
    /// Whether it removes the record: it is a write of no value.
    pub(crate) fn is_removal(self) -> bool
        ensures { result ≡ is_removal (Some self) }
    {
        self.kind == Kind::Store && self.value.is_none()
    }
}

/// The access at a position, if the entry there is one.
pub(crate) fn made_at(history: &IndexedHistory, place: usize) -> Option<Made>
    requires { place < length history.now }
    ensures { result ≡ placed_access history.now place }
{
    made_in(&history.entry(place))
}

/// Whether the access at this position, if there is one, removes the record.
pub(crate) fn removes_at(history: &IndexedHistory, place: Option<usize>) -> bool
    ensures { result ≡ removes_at history.now place }
{
    let Some(place) = place else {
        return false;
    };
    match history.get_entry(place) {
        Some(entry) => removes(made_in(&entry)),
        None => false,
    }
}

// Whether the access, if there is one, removes the record.
fn removes(made: Option<Made>) -> bool
    ensures { result ≡ is_removal made }
{
    match made {
        Some(made) => made.is_removal(),
        None => false,
    }
}

/// A position at or before this one, between which the transaction has no access: the next to look at when its accesses
/// are followed back from this position.
pub(crate) fn accesses_before(history: &IndexedHistory, place: usize, t: Tid) -> usize
    requires { place < length history.now }
    ensures within { result ≤ place }
    ensures none { (n : ℕ) → result ≤ n → n < place → IsBy (placed_access history.now n) t → ⊥ }
{
    match made_at(history, place) {
        Some(made) if made.by == t => history.link(place),
        _ => place,
    }
}

/// The access of an entry, if it is one.
pub(crate) fn made_in(entry: &EntryRef<'_>) -> Option<Made>
    ensures { result ≡ access_of entry.now }
{
    if !entry.is_access() {
        return None;
    }
    match entry.reply() {
        Reply::Looked { key, value } => made_by(&entry.event(), key, Kind::Look, value),
        Reply::Wrote { key, value } => made_by(&entry.event(), key, Kind::Store, value),
        _ => None,
    }
}

// A step, or a request of a caller, is an access by its transaction.
fn made_by(event: &Event, key: Key, kind: Kind, value: Option<i64>) -> Option<Made>
    ensures { result ≡ access_at event.now key kind value }
{
    match event {
        Event::Step(by) | Event::Access(by, _) => Some(Made {
            by: *by,
            key,
            kind,
            value,
        }),
        _ => None,
    }
}
