//! Ties: why in each run of a level one transaction comes before another.
ghost use Rattle.std.specs.Prelude.{◌≡◌, ◌≢◌, ◌+◌, ◌⊎◌, ℕ, List, IsTrue, IfSome};
ghost use Rattle.sgt_appends.specs.Precedences.{AppendsOnce, WereSeen};
ghost use Rattle.sgt_appends.specs.Witnesses.{IsShown};
ghost use Rattle.sgt_levels.specs.Levels.{WasLate, MustWait, Follows, Depends, Misses};
ghost use Rattle.sgt_levels.specs.Snapshots.{IsSnapshotIsolated};
ghost use Rattle.sgt_levels.specs.Commits.{IsReadCommitted};
ghost use Rattle.sgt_levels.specs.Steps.{PathBy};
ghost use Rattle.sgt_levels.specs.Ties.{IsPending, StepOf};

use crate::survey::Partial;
use crate::writes::overwrites;
use sgt_appends::{Edge, Reason, Transaction, append_at, has, is_shown, read_of_two};

/// Why one transaction comes before another. Operations are named by their positions in their transactions.
#[derive(Clone, Copy)]
pub enum Ground {
    /// By what was observed, for which it also comes before in a serial run.
    Observed(Reason),
    /// A reader saw a value of the earlier one, and none yet of the later one at the same key.
    Late {
        first: usize,
        second: usize,
        reader: usize,
        read: usize,
    },
    /// The earlier one read a list without a value of the later one, and both append to one key.
    Wait {
        first: usize,
        second: usize,
        read: usize,
        append: usize,
    },
}

/// A tie: one transaction comes before another.
#[derive(Clone, Copy)]
pub struct Tie {
    pub from: usize,
    pub to: usize,
    pub ground: Ground,
}

/// A step of a cycle: a tie, or without a ground that the one comes before the other in an order that a run keeps.
#[derive(Clone, Copy)]
pub struct Passage {
    pub from: usize,
    pub to: usize,
    pub why: Option<Ground>,
}

/// Whether the passages are a cycle without two misses next to one another, and each holds that has a ground. It begins
/// with one that is no miss.
pub fn is_round(history: &[Transaction], passages: &[Passage]) -> bool {
    let Some(first) = passages.first() else {
        return false;
    };
    let start = first.from;
    let mut at = start;
    let mut waits = false;
    for passage in passages {
        if passage.from != at {
            return false;
        }
        let Some(next) = pass(history, passage, waits) else {
            return false;
        };
        waits = next;
        at = passage.to;
    }
    at == start
}

/// Whether a miss may come after the passage, if it may come next. `waits` says whether the passage itself may be a miss.
fn pass(history: &[Transaction], passage: &Passage, waits: bool) -> Option<bool> {
    match tie_of(passage) {
        Some(tie) => step(history, &tie, waits),
        None => Some(true),
    }
}

/// The tie of the passage, if it has a ground.
pub fn tie_of(passage: &Passage) -> Option<Tie> {
    Some(Tie {
        from: passage.from,
        to: passage.to,
        ground: passage.why?,
    })
}

/// What each tie of a cycle shows.
#[derive(Clone, Copy)]
pub(crate) enum Kind {
    /// The later one follows the earlier one.
    Follows,
    /// The later one overwrites the earlier one.
    Overwrites,
}

/// Whether the ties are a cycle that leaves no run of committed reads.
pub fn rules_out_committed(history: &[Transaction], ties: &[Tie]) -> bool
    requires { AppendsOnce history.now }
    ensures { IsTrue result → ¬ IsReadCommitted history.now }
{
    is_cycle(history, ties, Kind::Follows)
}

/// Whether the ties are a cycle of the kind.
pub(crate) fn is_cycle(history: &[Transaction], ties: &[Tie], kind: Kind) -> bool
    ensures { IsTrue result → (t : ℕ) × (others : List ℕ) × PathBy (StepOf history.now kind) t others t }
{
    if ties.is_empty() {
        return false;
    }
    let start = ties[0].from;
    let mut at = start;
    for tie in ties {
        if tie.from != at || !is_step(history, tie, kind) {
            return false;
        }
        at = tie.to;
    }
    at == start
}

/// Whether the tie is one of the kind.
fn is_step(history: &[Transaction], tie: &Tie, kind: Kind) -> bool
    ensures { IsTrue result → StepOf history.now kind tie.now.from tie.now.to }
{
    match kind {
        Kind::Follows => follows(history, tie),
        Kind::Overwrites => overwrites(history, tie),
    }
}

/// Whether the ties are a cycle that leaves no snapshot run: it begins with a tie that is no miss, and no two misses
/// are next to one another.
pub fn rules_out_snapshot(history: &[Transaction], ties: &[Tie]) -> bool
    requires { AppendsOnce history.now }
    ensures { IsTrue result → ¬ IsSnapshotIsolated history.now }
{
    if ties.is_empty() {
        return false;
    }
    let start = ties[0].from;
    let mut at = start;
    let mut waits = false;
    for tie in ties {
        if tie.from != at {
            return false;
        }
        let Some(next) = step(history, tie, waits) else {
            return false;
        };
        waits = next;
        at = tie.to;
    }
    at == start
}

/// Whether a miss may come after the tie, if it may come next. `waits` says whether the tie itself may be a miss.
fn step(history: &[Transaction], tie: &Tie, waits: bool) -> Option<bool>
    ensures { IfSome result (λ next. (i t : ℕ) → IsPending history.now i t tie.now.from waits → IsPending history.now (i + 1) t tie.now.to next) }
{
    if depends(history, tie) {
        return Some(true);
    }
    if waits {
        if misses(history, tie) {
            return Some(false);
        }
    }
    None
}

/// Whether the read saw one append of another transaction and missed another one at the same key: this leaves no run of
/// committed reads.
pub fn rules_out_partial(history: &[Transaction], partial: &Partial) -> bool
    requires { AppendsOnce history.now }
    ensures { IsTrue result → ¬ IsReadCommitted history.now }
{
    if partial.by == partial.reader {
        return false;
    }
    saw_one(
        history,
        partial.by,
        partial.seen,
        partial.by,
        partial.missed,
        partial.reader,
        partial.read,
    )
}

/// Whether the later one of the tie follows the earlier one.
fn follows(history: &[Transaction], tie: &Tie) -> bool
    ensures { IsTrue result → Follows history.now tie.now.from tie.now.to }
{
    match tie.ground {
        Ground::Observed(Reason::Seen { append, read }) => {
            shows(history, tie.from, tie.to, Reason::Seen { append, read })
        }
        _ => came_first(history, tie),
    }
}

/// Whether a reader saw a value of the earlier one of the tie before one of the later one, or without it.
pub(crate) fn came_first(history: &[Transaction], tie: &Tie) -> bool
    ensures { IsTrue result → (tie.now.from ≢ tie.now.to)
        × (WereSeen history.now tie.now.from tie.now.to ⊎ WasLate history.now tie.now.from tie.now.to) }
{
    if tie.from == tie.to {
        return false;
    }
    match tie.ground {
        Ground::Observed(
            Reason::InOrder {
                first,
                second,
                reader,
                read,
            },
        ) => {
            let reason = Reason::InOrder {
                first,
                second,
                reader,
                read,
            };
            shows(history, tie.from, tie.to, reason)
        }
        Ground::Late {
            first,
            second,
            reader,
            read,
        } => saw_one(history, tie.from, first, tie.to, second, reader, read),
        _ => false,
    }
}

/// Whether the later one of the tie begins after the earlier one has committed.
fn depends(history: &[Transaction], tie: &Tie) -> bool
    ensures { IsTrue result → Depends history.now tie.now.from tie.now.to }
{
    match tie.ground {
        Ground::Wait {
            first,
            second,
            read,
            append,
        } => must_wait(history, tie.from, tie.to, first, second, read, append),
        _ => follows(history, tie),
    }
}

/// Whether the earlier one of the tie missed a value of the later one.
fn misses(history: &[Transaction], tie: &Tie) -> bool
    ensures { IsTrue result → Misses history.now tie.now.from tie.now.to }
{
    match tie.ground {
        Ground::Observed(Reason::Missed { read, append }) => {
            was_missed(history, tie.from, tie.to, read, append)
        }
        _ => false,
    }
}

/// Whether the operations of the reason show that the one transaction precedes the other.
fn shows(history: &[Transaction], from: usize, to: usize, reason: Reason) -> bool
    ensures { IsTrue result → (from ≢ to) × IsShown history.now from to reason }
{
    is_shown(history, &Edge { from, to, reason })
}

fn was_missed(history: &[Transaction], from: usize, to: usize, read: usize, append: usize) -> bool
    ensures { IsTrue result → Misses history.now from to }
{
    shows(history, from, to, Reason::Missed { read, append })
}

/// Whether the read saw the value of the first append, and not that of the second one to the same key.
fn saw_one(
    history: &[Transaction],
    from: usize,
    first: usize,
    to: usize,
    second: usize,
    reader: usize,
    read: usize,
) -> bool
    ensures { IsTrue result → (w : WasLate history.now from to) × (w.reader ≡ reader) }
{
    match read_of_two(history, from, first, to, second, reader, read) {
        Some(it) => has(it.seen, it.first) && !has(it.seen, it.second),
        None => false,
    }
}

fn must_wait(
    history: &[Transaction],
    from: usize,
    to: usize,
    first: usize,
    second: usize,
    read: usize,
    append: usize,
) -> bool
    ensures { IsTrue result → (from ≢ to) × MustWait history.now from to }
{
    let Some((key, _)) = append_at(history, from, first) else {
        return false;
    };
    let Some((other_key, _)) = append_at(history, to, second) else {
        return false;
    };
    key == other_key && was_missed(history, from, to, read, append)
}
