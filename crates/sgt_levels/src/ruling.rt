//! The weakest level that a cycle rules out.
ghost use Rattle.std.specs.Prelude.{◌≡◌, IsTrue, Bool, false};
ghost use Rattle.sgt_levels.specs.Rounds.{is_miss, AreSpaced, ends_with_miss, IsSpacedCycle, HasNoMiss};
ghost use Rattle.sgt_levels.specs.Ruled.{RulesOut, IsWeakest};

use sgt_appends::{Edge, Reason};

/// A level of isolation.
#[derive(Clone, Copy)]
pub enum Level {
    /// Each read sees what had been committed.
    ReadCommitted,
    /// Each transaction reads from a snapshot, and two that append to one key do not overlap.
    Snapshot,
    /// As if the transactions ran one after another.
    Serializable,
}

/// The weakest of the levels that a cycle rules out.
pub fn ruled_out(edges: &[Edge]) -> Level
    ensures rules_out { RulesOut edges.now result }
    ensures weakest { IsWeakest edges.now result }
{
    if has_no_miss(edges) {
        return Level::ReadCommitted;
    }
    if are_spaced(last_missed(edges), edges) {
        return Level::Snapshot;
    }
    Level::Serializable
}

/// Whether the one missed a value of the other.
fn missed(reason: Reason) -> bool
    ensures { result ≡ is_miss reason }
{
    match reason {
        Reason::Seen { .. } => false,
        Reason::Missed { .. } => true,
        Reason::InOrder { .. } => false,
    }
}

/// Whether no edge is a miss.
fn has_no_miss(edges: &[Edge]) -> bool
    ensures yes { IsTrue result → HasNoMiss edges.now }
    ensures no { result ≡ false → ¬ HasNoMiss edges.now }
{
    for edge in edges {
        if missed(edge.reason) {
            return false;
        }
    }
    true
}

/// Whether the last edge is a miss.
fn last_missed(edges: &[Edge]) -> bool
    ensures { result ≡ ends_with_miss false edges.now }
{
    let mut before = false;
    for edge in edges {
        before = missed(edge.reason);
    }
    before
}

/// Whether no two misses are next to one another, after an edge that is one or not.
fn are_spaced(first: bool, edges: &[Edge]) -> bool
    ensures yes { IsTrue result → AreSpaced first edges.now }
    ensures no { result ≡ false → ¬ AreSpaced first edges.now }
{
    let mut before = first;
    for edge in edges {
        let miss = missed(edge.reason);
        if before && miss {
            return false;
        }
        before = miss;
    }
    true
}
