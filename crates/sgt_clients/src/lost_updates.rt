//! Lost updates: two transactions read one version of a key, and then append to it.

use crate::anomalies::{Example, Seen};
use sgt_appends::{Operation, Status, Transaction, append_at, has, read_of};
use sgt_levels::{Ground, Tie};
use sgt_model::NoMemory;
use std::alloc::Global;
use std::collections::BTreeMap;

/// What the last transaction that used a key did first to it.
#[derive(Clone, Copy)]
struct First {
    transaction: Option<usize>,
    /// The position of its read, unless it appends to the key before it reads it, or has been counted.
    read: Option<usize>,
}

/// A transaction that read a version of a key, and then appends to it. Operations are named by their positions.
#[derive(Clone, Copy)]
struct Update {
    transaction: usize,
    read: usize,
    append: usize,
}

/// A version of a key, by its length and its last value.
type Version = (u32, usize, u64);

/// What the search has noted.
#[derive(Drop)]
struct Updates {
    /// Of each key.
    firsts: Vec<First>,
    /// For each version the first transaction that updated it.
    updated: BTreeMap<Version, Update>,
    count: usize,
    /// The first update that was lost, and the one before it.
    lost: Option<(Update, Update)>,
}

/// The updates of versions that an earlier transaction of the history has updated.
pub(crate) fn lost_updates(
    alloc: Global,
    history: &[Transaction],
    keys: usize,
) -> Result<Option<Seen>, NoMemory> {
    let unused = First {
        transaction: None,
        read: None,
    };
    let mut updates = Updates {
        firsts: Vec::new(alloc),
        updated: BTreeMap::new(alloc),
        count: 0,
        lost: None,
    };
    updates.firsts.resize(keys, unused)?;
    for (number, transaction) in history.iter().enumerate() {
        if transaction.status == Status::Committed {
            updates.add(history, transaction.operations.as_slice(), number)?;
        }
    }
    Ok(
        updates.lost.map(|(one, other)| Seen {
            name: "lost-update",
            count: updates.count,
            first: Example::Update {
                one: tie_of(one, other),
                other: tie_of(other, one),
            },
        }),
    )
}

/// Whether the read of the one has what the other appends.
fn sees(history: &[Transaction], one: Update, other: Update) -> bool {
    let read = read_of(history, one.transaction, one.read);
    match (read, append_at(history, other.transaction, other.append)) {
        (Some(read), Some((_, value))) => has(read.seen, value),
        _ => false,
    }
}

/// The tie from the one to the other: it missed what the other appends, and both append to the key.
fn tie_of(one: Update, other: Update) -> Tie {
    Tie {
        from: one.transaction,
        to: other.transaction,
        ground: Ground::Wait {
            first: one.append,
            second: other.append,
            read: one.read,
            append: other.append,
        },
    }
}

impl Updates {
    /// Adds the updates of the transaction.
    fn add(
        &mut self,
        history: &[Transaction],
        operations: &[Operation],
        number: usize,
    ) -> Result<(), NoMemory> {
        for (position, operation) in operations.iter().enumerate() {
            match operation {
                Operation::Read { key, .. } => {
                    self.first(*key, number, Some(position));
                }
                Operation::Append { key, .. } => {
                    let first = self.first(*key, number, None);
                    if let Some(read) = first.and_then(|first| first.read.take()) {
                        let update = Update {
                            transaction: number,
                            read,
                            append: position,
                        };
                        self.update(history, update)?;
                    }
                }
            }
        }
        Ok(())
    }

    /// What the transaction does first to the key. If this is the first time that it uses the key, it is by this read, or by
    /// an append.
    fn first(&mut self, key: u32, number: usize, read: Option<usize>) -> Option<&mut First> {
        let first = self.firsts.get_mut(key as usize)?;
        if first.transaction != Some(number) {
            *first = First {
                transaction: Some(number),
                read,
            };
        }
        Some(first)
    }

    /// Counts the update, if an earlier transaction has updated the version, and neither read has what one of the two appends.
    fn update(&mut self, history: &[Transaction], update: Update) -> Result<(), NoMemory> {
        let Some(read) = read_of(history, update.transaction, update.read) else {
            return Ok(());
        };
        if sees(history, update, update) {
            return Ok(());
        }
        let last = read.seen.last().copied().unwrap_or(0);
        let version = (read.key, read.seen.len(), last);
        let Some(before) = self.updated.get(&version).copied() else {
            self.updated.insert(version, update)?;
            return Ok(());
        };
        if sees(history, before, update) || sees(history, update, before) {
            return Ok(());
        }
        self.count = self.count.saturating_add(1);
        self.lost = self.lost.or(Some((before, update)));
        Ok(())
    }
}
