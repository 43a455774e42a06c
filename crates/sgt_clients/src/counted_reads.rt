//! Reads that show an anomaly.

use crate::anomalies::{Example, Seen};
use sgt_appends::{
    AppendIndex, Fault, Operation, Read, Status, Transaction, append_at, ends_with, has, read_of,
    starts_with,
};
use sgt_levels::Partial;
use sgt_model::NoMemory;
use std::alloc::Global;
use std::collections::{BTreeMap, BTreeSet};

/// How many reads show an anomaly, and the first one.
#[derive(Clone, Copy)]
struct Tally {
    count: usize,
    first: Option<Example>,
}

/// The names of the anomalies of reads.
const NAMES: [&str; 6] = [
    "unwritten",
    "G1a",
    "G1b",
    "internal",
    "duplicate-elements",
    "incompatible-order",
];

/// What is known before the reads are looked at.
#[derive(Drop)]
struct Known<'a> {
    history: &'a [Transaction],
    appends: AppendIndex,
    /// The first of the longest reads of each key.
    longest: BTreeMap<u32, Read<'a>>,
    /// For an append of a transaction, the position of its next one to the same key.
    next: BTreeMap<(usize, usize), usize>,
}

/// Adds the anomalies of reads of committed transactions. A read is counted once for each anomaly that it shows.
pub(crate) fn count_reads(
    alloc: Global,
    history: &[Transaction],
    all: &mut Vec<Seen>,
) -> Result<(), NoMemory> {
    let Some(appends) = AppendIndex::of_history(alloc, history)? else {
        return Ok(());
    };
    let known = Known {
        history,
        appends,
        longest: longest_reads(alloc, history)?,
        next: next_appends(alloc, history)?,
    };
    let mut tallies = [Tally {
        count: 0,
        first: None,
    }; 6];
    for (number, transaction) in history.iter().enumerate() {
        known.count_transaction(alloc, &mut tallies, number, transaction)?;
    }
    for (name, tally) in NAMES.iter().zip(&tallies) {
        if let Some(first) = tally.first {
            all.push(Seen {
                name,
                count: tally.count,
                first,
            })?;
        }
    }
    Ok(())
}

/// The first of the longest reads of each key.
fn longest_reads(
    alloc: Global,
    history: &[Transaction],
) -> Result<BTreeMap<u32, Read<'_>>, NoMemory> {
    let mut longest: BTreeMap<u32, Read<'_>> = BTreeMap::new(alloc);
    for (number, transaction) in history.iter().enumerate() {
        for position in 0..transaction.operations.len() {
            if let Some(read) = read_of(history, number, position) {
                let before = longest.get(&read.key);
                if before.is_none_or(|other| read.seen.len() > other.seen.len()) {
                    longest.insert(read.key, read)?;
                }
            }
        }
    }
    Ok(longest)
}

/// For each append of a transaction to a key to which it appends again: the position of the next one.
fn next_appends(
    alloc: Global,
    history: &[Transaction],
) -> Result<BTreeMap<(usize, usize), usize>, NoMemory> {
    let mut next = BTreeMap::new(alloc);
    let mut last = BTreeMap::new(alloc);
    for (number, transaction) in history.iter().enumerate() {
        for (position, operation) in transaction.operations.iter().enumerate() {
            if let Operation::Append { key, .. } = operation {
                if let Some((by, before)) = last.insert(*key, (number, position))? {
                    if by == number {
                        next.insert((number, before), position)?;
                    }
                }
            }
        }
    }
    Ok(next)
}

impl Known<'_> {
    /// Counts the reads of the transaction, if it committed.
    fn count_transaction(
        &self,
        alloc: Global,
        tallies: &mut [Tally; 6],
        number: usize,
        transaction: &Transaction,
    ) -> Result<(), NoMemory> {
        let mut own: BTreeMap<u32, Vec<u64>> = BTreeMap::new(alloc);
        for (position, operation) in transaction.operations.iter().enumerate() {
            if let Some(read) = read_of(self.history, number, position) {
                self.count_read(alloc, tallies, &own, read)?;
            }
            if let Operation::Append { key, value } = operation {
                own.entry(*key)?
                    .or_insert_with(|| Vec::new(alloc))
                    .push(*value)?;
            }
        }
        Ok(())
    }

    /// Counts the read for each anomaly that it shows. `own` has what its transaction appends before.
    fn count_read(
        &self,
        alloc: Global,
        tallies: &mut [Tally; 6],
        own: &BTreeMap<u32, Vec<u64>>,
        read: Read<'_>,
    ) -> Result<(), NoMemory> {
        let repeated = twice(alloc, read)?;
        let fault = |fault| Example::Read {
            reader: read.reader,
            read: read.position,
            fault,
        };
        let examples = [
            self.unwritten(read).map(fault),
            self.aborted(read).map(fault),
            self.intermediate(read)
                .map(|partial| Example::Partial(partial)),
            self.internal(own, read).map(fault),
            repeated.map(fault),
            self.incompatible(alloc, read, repeated.is_none())?
                .map(fault),
        ];
        for (tally, example) in tallies.iter_mut().zip(&examples) {
            if example.is_some() {
                tally.count = tally.count.saturating_add(1);
                tally.first = tally.first.or(*example);
            }
        }
        Ok(())
    }

    /// A value that no transaction appends.
    fn unwritten(&self, read: Read<'_>) -> Option<Fault> {
        let mut seen = read.seen.iter().copied();
        Some(Fault::Unwritten(seen.find(|value| self.appends.find(read.key, *value).is_none())?))
    }

    /// A value of a transaction that aborted.
    fn aborted(&self, read: Read<'_>) -> Option<Fault> {
        read.seen.iter().find_map(|value| {
            let (by, append) = self.appends.find(read.key, *value)?;
            self.has_aborted(by)
                .then_some(Fault::Aborted { by, append })
        })
    }

    /// Whether the transaction aborted.
    fn has_aborted(&self, number: usize) -> bool {
        self.history
            .get(number)
            .is_some_and(|transaction| transaction.status == Status::Aborted)
    }

    /// What contradicts the appends of the reader itself: those before the read are the end of the list, and none after it is
    /// in it.
    fn internal(&self, own: &BTreeMap<u32, Vec<u64>>, read: Read<'_>) -> Option<Fault> {
        if own
            .get(&read.key)
            .is_some_and(|values| !ends_with(read.seen, values.as_slice()))
        {
            return Some(Fault::EndsOtherwise);
        }
        read.seen.iter().find_map(|value| {
            let (by, append) = self.appends.find(read.key, *value)?;
            (by == read.reader && append >= read.position).then_some(Fault::Ahead { append })
        })
    }

    /// What contradicts the order of the longest read of the key, or, if no value stands in the list twice, of the appends of
    /// one transaction.
    fn incompatible(
        &self,
        alloc: Global,
        read: Read<'_>,
        is_order: bool,
    ) -> Result<Option<Fault>, NoMemory> {
        match self.longest.get(&read.key) {
            Some(whole) if !starts_with(whole.seen, read.seen) => Ok(Some(Fault::Incompatible {
                other: whole.reader,
                read: whole.position,
            })),
            _ if is_order => self.swapped(alloc, read),
            _ => Ok(None),
        }
    }

    /// Two values of one transaction in the opposite order.
    fn swapped(&self, alloc: Global, read: Read<'_>) -> Result<Option<Fault>, NoMemory> {
        let mut last = BTreeMap::new(alloc);
        for value in read.seen {
            if let Some((by, append)) = self.appends.find(read.key, *value) {
                match last.insert(by, append)? {
                    Some(before) if before > append => {
                        return Ok(Some(Fault::Swapped {
                            by,
                            first: append,
                            second: before,
                        }));
                    }
                    _ => (),
                }
            }
        }
        Ok(None)
    }

    /// The last value of another transaction that may have committed, if that appends to the key again, and the read did not
    /// see it.
    fn intermediate(&self, read: Read<'_>) -> Option<Partial> {
        let (by, seen) = read.seen.iter().rev().find_map(|value| {
            let (by, seen) = self.appends.find(read.key, *value)?;
            (by != read.reader && !self.has_aborted(by)).then_some((by, seen))
        })?;
        Some(Partial {
            reader: read.reader,
            read: read.position,
            by,
            seen,
            missed: self.missed_after(read, by, seen)?,
        })
    }

    /// The next append of the transaction to the key that the read did not see.
    fn missed_after(&self, read: Read<'_>, by: usize, append: usize) -> Option<usize> {
        let mut at = append;
        for _ in 0..self.history.get(by)?.operations.len() {
            at = self.next.get(&(by, at)).copied()?;
            let (_, value) = append_at(self.history, by, at)?;
            if !has(read.seen, value) {
                return Some(at);
            }
        }
        None
    }
}

/// A value that stands in the list twice.
fn twice(alloc: Global, read: Read<'_>) -> Result<Option<Fault>, NoMemory> {
    let mut met = BTreeSet::new(alloc);
    for value in read.seen {
        if !met.insert(*value)? {
            return Ok(Some(Fault::Twice(*value)));
        }
    }
    Ok(None)
}
