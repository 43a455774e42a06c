//! The operations that a picture draws, and which pairs of them stand out.

use crate::clients::Clients;
use crate::evidence::{put_at, seen_at};
use sgt_appends::Status;
use sgt_model::NoMemory;
use std::alloc::Global;
use std::collections::BTreeMap;

/// An operation that is drawn: its transaction, and its position there. The end of a transaction comes after all positions.
#[derive(Clone, Copy, PartialEq)]
pub(crate) struct Stroke {
    pub transaction: usize,
    pub position: usize,
}

impl Stroke {
    /// The end of the transaction.
    pub fn end_of(transaction: usize) -> Self {
        Stroke {
            transaction,
            position: usize::MAX,
        }
    }

    /// Whether it is the end of its transaction.
    fn is_end(self) -> bool {
        self.position == usize::MAX
    }

    /// Whether it comes before the other in their transaction.
    fn is_before(self, other: Stroke) -> bool {
        self.transaction == other.transaction && self.position < other.position
    }
}

/// Two operations that stand out, the earlier one first.
#[derive(Clone, Copy)]
pub(crate) struct Pair {
    pub earlier: Stroke,
    pub later: Stroke,
}

/// What is drawn.
#[derive(Drop)]
pub(crate) struct Scene {
    pub strokes: Vec<Stroke>,
    pub pairs: Vec<Pair>,
}

impl Scene {
    /// Nothing is drawn.
    pub fn new(alloc: Global) -> Self {
        Scene {
            strokes: Vec::new(alloc),
            pairs: Vec::new(alloc),
        }
    }

    /// Adds the operation, unless it is there.
    pub fn add(&mut self, stroke: Stroke) -> Result<(), NoMemory> {
        if place_of(self.strokes.as_slice(), stroke).is_none() {
            self.strokes.push(stroke)?;
        }
        Ok(())
    }

    /// Adds the pair and its operations.
    pub fn add_pair(&mut self, earlier: Stroke, later: Stroke) -> Result<(), NoMemory> {
        self.add(earlier)?;
        self.add(later)?;
        self.pairs.push(Pair { earlier, later })?;
        Ok(())
    }

    /// Adds the known ends of the transactions that are drawn.
    pub fn add_ends(&mut self, alloc: Global, clients: &Clients) -> Result<(), NoMemory> {
        let strokes = copy_of(alloc, self.strokes.as_slice())?;
        for stroke in &strokes {
            self.add_end(clients, stroke.transaction)?;
        }
        Ok(())
    }

    /// Adds the end of the transaction, unless it is unknown.
    pub fn add_end(&mut self, clients: &Clients, transaction: usize) -> Result<(), NoMemory> {
        match clients.transactions.get(transaction) {
            Some(one) if one.status != Status::Unknown => self.add(Stroke::end_of(transaction)),
            _ => Ok(()),
        }
    }

    /// The appends and the reads that are drawn of which the read saw the append of another transaction.
    fn seen_pairs(&self, alloc: Global, clients: &Clients) -> Result<Vec<Pair>, NoMemory> {
        let mut appends = BTreeMap::new(alloc);
        for stroke in &self.strokes {
            if let Some(put) = put_at(clients, stroke.transaction, stroke.position) {
                appends.insert((put.key, put.value), *stroke)?;
            }
        }
        let mut pairs = Vec::new(alloc);
        for stroke in &self.strokes {
            add_seen(&mut pairs, clients, &appends, *stroke)?;
        }
        Ok(pairs)
    }

    /// Puts the operations in order: an append before those that saw it, the earlier one of each pair first, and those of
    /// a transaction as they came, if that can be. An end comes after all other operations, unless a pair begins there.
    pub fn sort(&mut self, alloc: Global, clients: &Clients) -> Result<(), NoMemory> {
        let seen = self.seen_pairs(alloc, clients)?;
        let mut left = copy_of(alloc, self.strokes.as_slice())?;
        let mut sorted = Vec::with_capacity(alloc, left.len())?;
        for _ in 0..self.strokes.len() {
            let next = first_free(left.as_slice(), self.pairs.as_slice(), seen.as_slice());
            if next < left.len() {
                sorted.push(left.remove(next))?;
            }
        }
        self.strokes = sorted;
        Ok(())
    }
}

/// The same operations.
fn copy_of(alloc: Global, strokes: &[Stroke]) -> Result<Vec<Stroke>, NoMemory> {
    Ok(Vec::from_slice(alloc, strokes)?)
}

/// The position of the operation among these.
pub(crate) fn place_of(strokes: &[Stroke], stroke: Stroke) -> Option<usize> {
    for (place, other) in strokes.iter().enumerate() {
        if *other == stroke {
            return Some(place);
        }
    }
    None
}

/// Adds the pairs of the read and the appends of others that it saw.
fn add_seen(
    pairs: &mut Vec<Pair>,
    clients: &Clients,
    appends: &BTreeMap<(u32, u64), Stroke>,
    read: Stroke,
) -> Result<(), NoMemory> {
    let Some(seen) = seen_at(clients, read.transaction, read.position) else {
        return Ok(());
    };
    for value in seen.values {
        match appends.get(&(seen.key, *value)).copied() {
            Some(earlier) if earlier.transaction != read.transaction => {
                pairs.push(Pair {
                    earlier,
                    later: read,
                })?;
            }
            _ => (),
        }
    }
    Ok(())
}

/// The position of the first operation that none of the others has to come before. A cycle may leave none: then of the
/// first whose appends stand, or else of the first that does not wait, or else of the first.
fn first_free(left: &[Stroke], pairs: &[Pair], seen: &[Pair]) -> usize {
    let mut first = left.len();
    let mut first_seen = left.len();
    for (place, stroke) in left.iter().enumerate() {
        if waits(pairs, *stroke) {
            continue;
        }
        first = first.min(place);
        if is_free(left, seen, *stroke) {
            if is_free(left, pairs, *stroke) {
                return place;
            }
            first_seen = first_seen.min(place);
        }
    }
    if first_seen < left.len() {
        first_seen
    } else if first < left.len() {
        first
    } else {
        0
    }
}

/// Whether it is an end that waits until all other operations stand: no pair begins there.
fn waits(pairs: &[Pair], stroke: Stroke) -> bool {
    if !stroke.is_end() {
        return false;
    }
    for pair in pairs {
        if pair.earlier == stroke {
            return false;
        }
    }
    true
}

/// Whether none of these has to come before the operation.
fn is_free(left: &[Stroke], pairs: &[Pair], stroke: Stroke) -> bool {
    for other in left {
        if other.is_before(stroke) {
            return false;
        }
    }
    for pair in pairs {
        if pair.later == stroke && place_of(left, pair.earlier).is_some() {
            return false;
        }
    }
    true
}
