//! The edges of the cycle that aborts a transaction, each with the accesses that make it.
ghost use Rattle.std.specs.Prelude.{◌≡◌, ◌≤◌, ◌<◌, ◌+◌, ◌↔◌, true, length, reverse, IfSome, IfNone, IsSome, []};
ghost use Rattle.sgt_model.specs.Configurations.{Configuration};
ghost use Rattle.sgt_model.specs.Legality.{Legal};
ghost use Rattle.sgt_model.specs.Pairs.{has_conflicting, Precedes};
ghost use Rattle.sgt_explain.specs.Places.{entries_before, placed_cycle};
ghost use Rattle.sgt_explain.specs.Edges.{FollowsAt, ReportsAccess, ReportsPair, ReportsPending};
ghost use Rattle.sgt_explain.specs.CycleEdges.{ReportsEdge, HasEdge, WasAbout, IsPairAt};

use crate::explanation::Pending;
use crate::indexed_history::IndexedHistory;
use crate::made::{accesses_before, made_at};
use crate::search::earlier;
use sgt_model::{Cause, Key, Kind, Reply, Tid, Tids};

/// A transaction's first accesses of a key that conflict with a later one, by their positions. At least one of them
/// exists.
#[derive(Clone, Copy)]
pub struct Earlier {
    /// Its first read of the key. None if the later access is a read: reads do not conflict.
    pub looked: Option<usize>,
    /// Its first write of the key.
    pub stored: Option<usize>,
    /// Whether that write is a removal.
    pub removed: bool,
}

/// An edge of a cycle, with the accesses of its two transactions that conflict.
#[derive(Clone, Copy)]
pub struct CycleEdge {
    /// The transaction that comes first.
    pub from: Tid,
    /// The transaction that comes second.
    pub to: Tid,
    /// The key that both accessed.
    pub key: Key,
    /// The kind of the later access, which is that of `to`.
    pub kind: Kind,
    /// Whether the later access is a removal: a write of no value.
    pub removes: bool,
    /// The position of the later access. None if it was about to be made, and was rejected.
    pub place: Option<usize>,
    /// The accesses of `from` before it.
    pub earlier: Earlier,
}

/// Returns edge number `number`, from 0, of the cycle by which the entry at this position aborts a transaction. That
/// transaction was about to make this access. The edges go from each transaction of the cycle to the next. The last
/// edge leads back to the first transaction, the one that is aborted; the access that it was about to make causes that
/// edge.
///
/// None if the entry aborts no transaction by a cycle, the cycle has no such edge, or no such accesses exist. In a
/// legal history, with the access that the procedure was at, every edge of the cycle is returned.
pub fn cycle_edge(
    history: &IndexedHistory,
    place: usize,
    number: usize,
    pending: &Pending,
) -> Option<CycleEdge>
    ensures reported { IfSome result (ReportsEdge history.now place pending.now (placed_cycle history.now place) number) }
    ensures some { IsSome result
        ↔ HasEdge history.now place pending.now.key pending.now.kind (placed_cycle history.now place) number }
    ensures all { (s : Configuration) → Legal s (reverse history.now) → WasAbout s history.now place pending.now.key pending.now.kind
        → number < length (placed_cycle history.now place) → IsSome result }
    ensures pairs { IfSome result (λ edge. (s : Configuration) → Legal s (reverse history.now)
        → WasAbout s history.now place pending.now.key pending.now.kind → IsPairAt history.now place edge) }
{
    let cycle = cycle_at(history, place)?;
    path_edge(history, place, cycle.as_slice(), number, pending)
}

// The cycle of the abort at a position, if there is one.
fn cycle_at(history: &IndexedHistory, place: usize) -> Option<Tids>
    ensures some { IfSome result (λ cycle. cycle ≡ placed_cycle history.now place) }
    ensures within { IsSome result → place < length history.now }
    ensures none { IfNone result (placed_cycle history.now place ≡ []) }
{
    let entry = history.get_entry(place)?;
    if !entry.is_by_cycle() {
        return None;
    }
    match entry.reply() {
        Reply::Aborted {
            cause: Cause::Cycle(cycle),
            ..
        } => Some(cycle),
        _ => None,
    }
}

// An edge of a cycle that starts with the transaction aborted there.
fn path_edge(
    history: &IndexedHistory,
    end: usize,
    cycle: &[Tid],
    number: usize,
    pending: &Pending,
) -> Option<CycleEdge>
    requires { end ≤ length history.now }
    ensures reported { IfSome result (ReportsEdge history.now end pending.now cycle.now number) }
    ensures some { IsSome result ↔ HasEdge history.now end pending.now.key pending.now.kind cycle.now number }
{
    if number >= cycle.len() {
        return None;
    }
    if number == cycle.len() - 1 {
        return pending_edge(history, end, cycle[number], cycle[0], pending);
    }
    pair_edge(history, end, cycle[number], cycle[number + 1])
}

// Why one would come before another, because of an access that the other was about to make.
fn pending_edge(
    history: &IndexedHistory,
    end: usize,
    from: Tid,
    to: Tid,
    pending: &Pending,
) -> Option<CycleEdge>
    requires { end ≤ length history.now }
    ensures reported { IfSome result (ReportsPending history.now end from to pending.now) }
    ensures some { IsSome result ↔ (has_conflicting (entries_before history.now end) from pending.now.key pending.now.kind ≡ true) }
{
    let earlier = earlier(history, end, from, pending.key, pending.kind)?;
    Some(CycleEdge {
        from,
        to,
        key: pending.key,
        kind: pending.kind,
        removes: pending.removes,
        place: None,
        earlier,
    })
}

/// Why one comes before another in the entries before `end`, if it does.
pub(crate) fn pair_edge(
    history: &IndexedHistory,
    end: usize,
    from: Tid,
    to: Tid,
) -> Option<CycleEdge>
    requires { end ≤ length history.now }
    ensures reported { IfSome result (ReportsPair history.now end from to) }
    ensures some { IsSome result ↔ Precedes (entries_before history.now end) from to }
{
    let mut first = None;
    let mut rest = history.accesses_end(to);
    while 0 < rest {
        let place = rest - 1;
        if place < end {
            if let Some(edge) = access_edge(history, place, from, to) {
                first = Some(edge);
            }
        }
        rest = accesses_before(history, place, to);
    }
    first
}

// The access of the second at this position, and the conflicting ones of the first before it, if there are any.
fn access_edge(history: &IndexedHistory, place: usize, from: Tid, to: Tid) -> Option<CycleEdge>
    requires { place < length history.now }
    ensures reported { IfSome result (ReportsAccess history.now from to place) }
    ensures some { IsSome result ↔ FollowsAt history.now from to place }
{
    let made = made_at(history, place)?;
    if made.by != to {
        return None;
    }
    let earlier = earlier(history, place, from, made.key, made.kind)?;
    Some(CycleEdge {
        from,
        to,
        key: made.key,
        kind: made.kind,
        removes: made.is_removal(),
        place: Some(place),
        earlier,
    })
}
