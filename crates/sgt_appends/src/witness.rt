//! Witnesses that a history is not serializable.
ghost use Rattle.std.specs.Prelude.{◌↔◌, IsTrue, IfSome};
ghost use Rattle.sgt_appends.specs.declared.witness.Reason.TheVariants.{Seen, Missed, InOrder};
ghost use Rattle.sgt_appends.specs.Indexes.{AppendAt};
ghost use Rattle.sgt_appends.specs.Lists.{Has, StandsBefore};
ghost use Rattle.sgt_appends.specs.Paths.{ReadAt};
ghost use Rattle.sgt_appends.specs.Precedences.{Appends, HasSeen, AppendsOnce};
ghost use Rattle.sgt_appends.specs.Runs.{IsSerializable};
ghost use Rattle.sgt_appends.specs.Witnesses.{AllPrecede, IsSeenAt, IsShown, EdgeIsShown, IsEdgeCycle};

use crate::reads::read_of;
use crate::transaction::{Operation, Transaction};

/// Why one transaction precedes another. Operations are named by their positions in their transactions.
#[derive(Clone, Copy)]
pub enum Reason {
    /// The later one read a value that the earlier one appends.
    Seen {
        append: usize,
        read: usize,
    },
    /// The earlier one read a list without a value that the later one appends.
    Missed {
        read: usize,
        append: usize,
    },
    /// A reader saw a value of the earlier one before one of the later one.
    InOrder {
        first: usize,
        second: usize,
        reader: usize,
        read: usize,
    },
}

/// An edge: one transaction precedes another.
#[derive(Clone, Copy)]
pub struct Edge {
    pub from: usize,
    pub to: usize,
    pub reason: Reason,
}

/// Whether the edges are a cycle, and the operations that each names show it.
pub fn is_shown_cycle(history: &[Transaction], edges: &[Edge]) -> bool
    ensures shown { IsTrue result → IsEdgeCycle history.now edges.now }
    ensures refutes { IsTrue result → AppendsOnce history.now → ¬ IsSerializable history.now }
{
    if edges.is_empty() {
        return false;
    }
    let start = edges[0].from;
    let mut at = start;
    for edge in edges {
        if edge.from != at || !is_shown(history, edge) {
            return false;
        }
        at = edge.to;
    }
    at == start
}

/// Whether each edge follows from what was observed.
pub fn all_hold(history: &[Transaction], edges: &[Edge]) -> bool
    ensures { IsTrue result → AllPrecede history.now edges.now }
{
    for edge in edges {
        if !is_shown(history, edge) {
            return false;
        }
    }
    true
}

/// Whether the operations that the edge names show that one transaction precedes the other.
pub fn is_shown(history: &[Transaction], edge: &Edge) -> bool
    ensures { IsTrue result → EdgeIsShown history.now edge.now }
{
    if edge.from == edge.to {
        return false;
    }
    match edge.reason {
        Reason::Seen { append, read } => is_seen(history, edge.from, edge.to, append, read),
        Reason::Missed { read, append } => is_missed(history, edge.from, edge.to, read, append),
        Reason::InOrder {
            first,
            second,
            reader,
            read,
        } => is_in_order(history, edge.from, edge.to, first, second, reader, read),
    }
}

/// Whether the read saw what the append wrote.
fn is_seen(history: &[Transaction], from: usize, to: usize, append: usize, read: usize) -> bool
    ensures { IsTrue result → IsShown history.now from to (Seen append read) }
{
    let Some((key, value)) = append_at(history, from, append) else {
        return false;
    };
    match read_at(history, to, read, key) {
        Some(seen) => has(seen, value),
        None => false,
    }
}

/// Whether the read did not see what the append writes.
fn is_missed(history: &[Transaction], from: usize, to: usize, read: usize, append: usize) -> bool
    ensures { IsTrue result → IsShown history.now from to (Missed read append) }
{
    let Some((key, value)) = append_at(history, to, append) else {
        return false;
    };
    match read_at(history, from, read, key) {
        Some(seen) => !has(seen, value),
        None => false,
    }
}

/// Whether the read saw what the one append wrote before what the other wrote.
fn is_in_order(
    history: &[Transaction],
    from: usize,
    to: usize,
    first: usize,
    second: usize,
    reader: usize,
    read: usize,
) -> bool
    ensures { IsTrue result → IsShown history.now from to (InOrder first second reader read) }
{
    match read_of_two(history, from, first, to, second, reader, read) {
        Some(it) => stands_before(it.seen, it.first, it.second),
        None => false,
    }
}

/// The values of two appends, and what a read of their key saw.
#[derive(Clone, Copy)]
pub struct ReadOfTwo<'a> {
    pub key: u32,
    pub first: u64,
    pub second: u64,
    pub seen: &'a [u64],
}

/// The values of the two appends and what the read saw, if all three are at one key and the reader committed.
pub fn read_of_two<'a>(
    history: &'a [Transaction],
    from: usize,
    first: usize,
    to: usize,
    second: usize,
    reader: usize,
    read: usize,
) -> Option<ReadOfTwo<'a>>
    ensures first { IfSome result (λ it. AppendAt history.now from first it.key it.first) }
    ensures second { IfSome result (λ it. AppendAt history.now to second it.key it.second) }
    ensures seen { IfSome result (λ it. IsSeenAt history.now reader read it.key it.seen.now) }
{
    let (key, value) = append_at(history, from, first)?;
    let (other_key, other) = append_at(history, to, second)?;
    if key != other_key {
        return None;
    }
    let seen = read_at(history, reader, read, key)?;
    Some(ReadOfTwo {
        key,
        first: value,
        second: other,
        seen,
    })
}

/// The key and the value of the transaction's append at the position.
pub fn append_at(history: &[Transaction], transaction: usize, place: usize) -> Option<(u32, u64)>
    ensures appends { IfSome result (λ appended. Appends history.now transaction appended.0 appended.1) }
    ensures at { IfSome result (λ appended. AppendAt history.now transaction place appended.0 appended.1) }
{
    let transaction = history.get(transaction)?;
    match transaction.operations.get(place)? {
        Operation::Append { key, value } => Some((*key, *value)),
        Operation::Read { .. } => None,
    }
}

/// What the transaction, which committed, read at the position from the key.
pub fn read_at<'a>(
    history: &'a [Transaction],
    transaction: usize,
    place: usize,
    of: u32,
) -> Option<&'a [u64]>
    ensures seen { IfSome result (λ seen. HasSeen history.now transaction of seen.now) }
    ensures own { IfSome result (λ seen. ReadAt history.now transaction place of seen.now) }
    ensures at { IfSome result (λ seen. IsSeenAt history.now transaction place of seen.now) }
{
    let read = read_of(history, transaction, place)?;
    if read.key != of {
        return None;
    }
    Some(read.seen)
}

/// Whether the value is in the list.
pub fn has(values: &[u64], value: u64) -> bool
    ensures { IsTrue result ↔ Has values.now value }
{
    for x in values {
        if *x == value {
            return true;
        }
    }
    false
}

/// Whether the first stands before the second in the list.
pub fn stands_before(values: &[u64], first: u64, second: u64) -> bool
    ensures { IsTrue result → StandsBefore values.now first second }
{
    for (at, x) in values.iter().enumerate() {
        if *x == first {
            return has(&values[at + 1..], second);
        }
    }
    false
}
