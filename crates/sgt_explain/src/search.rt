//! The first accesses of a transaction that conflict with a later one.
ghost use Rattle.std.specs.Prelude.{◌≡◌, ◌≤◌, ◌<◌, ◌↔◌, true, length, IfSome, IsSome, IsTrue};
ghost use Rattle.sgt_model.specs.Aborts.{IsAccessBy};
ghost use Rattle.sgt_model.specs.Pairs.{one_stores, has_conflicting};
ghost use Rattle.sgt_explain.specs.Firsts.{FirstOrNone};
ghost use Rattle.sgt_explain.specs.Places.{entries_before, placed_access};
ghost use Rattle.sgt_explain.specs.Edges.{ConflictsAt, ReportsEarlier};

use crate::edge::Earlier;
use crate::indexed_history::IndexedHistory;
use crate::made::{accesses_before, made_at, removes_at};
use sgt_model::{Key, Kind, Tid};

/// A transaction's first read and first write of the key, before the end, that conflict with an access of that kind,
/// and whether that write is a removal. None if there is neither.
pub(crate) fn earlier(
    history: &IndexedHistory,
    end: usize,
    by: Tid,
    key: Key,
    kind: Kind,
) -> Option<Earlier>
    requires { end ≤ length history.now }
    ensures reported { IfSome result (ReportsEarlier history.now end by key kind) }
    ensures some { IsSome result ↔ (has_conflicting (entries_before history.now end) by key kind ≡ true) }
{
    let looked = first_conflict(history, end, by, key, Kind::Look, kind);
    let stored = first_conflict(history, end, by, key, Kind::Store, kind);
    if looked.is_none() && stored.is_none() {
        return None;
    }
    Some(Earlier {
        looked,
        stored,
        removed: removes_at(history, stored),
    })
}

// The position of the transaction's first access of the key of kind `kind`, before the end, that conflicts with one
// of kind `later`.
fn first_conflict(
    history: &IndexedHistory,
    end: usize,
    by: Tid,
    key: Key,
    kind: Kind,
    later: Kind,
) -> Option<usize>
    requires { end ≤ length history.now }
    ensures { FirstOrNone (ConflictsAt history.now by key kind later) end result }
{
    if !does_conflict(kind, later) {
        return None;
    }
    let mut first = None;
    let mut rest = history.accesses_end(by);
    while 0 < rest {
        let place = rest - 1;
        if place < end {
            if has_access(history, place, by, key, kind) {
                first = Some(place);
            }
        }
        rest = accesses_before(history, place, by);
    }
    first
}

// Whether two accesses of these kinds to the same key conflict.
fn does_conflict(earlier: Kind, later: Kind) -> bool
    ensures { result ≡ one_stores earlier later }
{
    earlier == Kind::Store || later == Kind::Store
}

// Whether the entry at a position is the transaction's access of that kind of the key.
fn has_access(history: &IndexedHistory, place: usize, by: Tid, key: Key, kind: Kind) -> bool
    requires { place < length history.now }
    ensures { IsTrue result ↔ IsAccessBy (placed_access history.now place) by key kind }
{
    match made_at(history, place) {
        Some(made) => made.by == by && made.key == key && made.kind == kind,
        None => false,
    }
}
