//! Steps of a cycle that one read shows together.
//!
//! Values of a key that follow one another in a read lead along it in many steps. Any two of them make one step.

use crate::transaction::{Operation, Transaction};
use crate::witness::{Edge, Reason, is_shown};
use sgt_model::NoMemory;
use std::alloc::Global;

/// How many values of reads are looked at.
const MOST_LOOKED_AT: usize = 1_000_000;

/// The cycle, with the steps merged that one read shows together.
pub(crate) fn merged(
    alloc: Global,
    history: &[Transaction],
    cycle: &[Edge],
) -> Result<Vec<Edge>, NoMemory> {
    let mut short: Vec<Edge> = Vec::new(alloc);
    let mut left = MOST_LOOKED_AT;
    for edge in cycle {
        let one = match short.last() {
            Some(last) => joined(history, &mut left, last, edge),
            None => None,
        };
        match (one, short.last_mut()) {
            (Some(one), Some(last)) => *last = one,
            _ => short.push(*edge)?,
        }
    }
    let Some(last) = short.pop() else {
        return Ok(short);
    };
    let one = match short.first() {
        Some(first) => joined(history, &mut left, &last, first),
        None => None,
    };
    match (one, short.first_mut()) {
        (Some(one), Some(first)) => *first = one,
        _ => short.push(last)?,
    }
    Ok(short)
}

/// The edge from where the first begins to where the second ends, if one read shows it.
fn joined(history: &[Transaction], left: &mut usize, first: &Edge, second: &Edge) -> Option<Edge> {
    let edge = Edge {
        from: first.from,
        to: second.to,
        reason: joined_reason(history, first, second)?,
    };
    *left = left.checked_sub(read_length(history, &edge))?;
    is_shown(history, &edge).then_some(edge)
}

/// The reason for both edges, if they may be of one key.
fn joined_reason(history: &[Transaction], first: &Edge, second: &Edge) -> Option<Reason> {
    match (first.reason, second.reason) {
        (
            Reason::InOrder { first, .. },
            Reason::InOrder {
                second,
                reader,
                read,
                ..
            },
        ) => {
            Some(Reason::InOrder {
                first,
                second,
                reader,
                read,
            })
        }
        (Reason::InOrder { first, .. }, Reason::Seen { read, .. }) => Some(Reason::Seen {
            append: first,
            read,
        }),
        (Reason::Missed { read, .. }, Reason::InOrder { second, .. }) => Some(Reason::Missed {
            read,
            append: second,
        }),
        (Reason::Missed { read, .. }, Reason::Seen { .. }) => {
            let key = key_in(history, first.from, read)?;
            Some(Reason::Missed {
                read,
                append: append_to(history, second.to, key)?,
            })
        }
        _ => None,
    }
}

/// The key of the operation at the position.
pub(crate) fn key_in(history: &[Transaction], transaction: usize, position: usize) -> Option<u32> {
    match history.get(transaction)?.operations.get(position)? {
        Operation::Append { key, .. } | Operation::Read { key, .. } => Some(*key),
    }
}

/// The position of the transaction's first append to the key.
pub(crate) fn append_to(history: &[Transaction], transaction: usize, of: u32) -> Option<usize> {
    let mut operations = history.get(transaction)?.operations.iter();
    operations.position(|it| matches!(it, Operation::Append { key, .. } if *key == of))
}

/// How many values the read of the edge has.
fn read_length(history: &[Transaction], edge: &Edge) -> usize {
    let (reader, read) = match edge.reason {
        Reason::Seen { read, .. } => (edge.to, read),
        Reason::Missed { read, .. } => (edge.from, read),
        Reason::InOrder { reader, read, .. } => (reader, read),
    };
    let transaction = history.get(reader);
    match transaction.and_then(|it| it.operations.get(read)) {
        Some(Operation::Read { values, .. }) => values.len(),
        _ => 0,
    }
}
