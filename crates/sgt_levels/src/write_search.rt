//! The search for a write order, or for a cycle of ties that leaves none. What it finds is tested by `writes.rt`.

use crate::search::{Found, sort_ties};
use crate::survey::{Spot, each_read, tie_in_order, tie_late};
use crate::tie::Tie;
use sgt_appends::{AppendIndex, Operation, Read, Status, Transaction, has};
use sgt_model::NoMemory;
use std::alloc::Global;
use std::collections::{BTreeMap, BTreeSet};

/// A read of a key that saw the most values that committed transactions append.
#[derive(Clone, Copy)]
struct Longest<'a> {
    read: Read<'a>,
    /// How many of these values it saw.
    len: usize,
    /// The append of the last one.
    last: Option<Spot>,
}

/// A value that a committed transaction appends, and the append.
type Written = (u64, Spot);

/// What the search has noted.
#[derive(Drop)]
struct Notes<'a> {
    history: &'a [Transaction],
    appends: &'a AppendIndex,
    longest: BTreeMap<u32, Longest<'a>>,
    /// The values of these reads, with their keys.
    seen: BTreeSet<(u32, u64)>,
    ties: Vec<Tie>,
}

/// A write order, or ties that leave none.
pub fn search_writes(
    alloc: Global,
    history: &[Transaction],
    appends: &AppendIndex,
) -> Result<Found<Vec<usize>, Vec<Tie>>, NoMemory> {
    let mut notes = Notes {
        history,
        appends,
        longest: BTreeMap::new(alloc),
        seen: BTreeSet::new(alloc),
        ties: Vec::new(alloc),
    };
    each_read(history, |read| notes.offer(read))?;
    each_read(history, |read| notes.tie_read(read))?;
    let mut runs = Vec::new(alloc);
    for (number, transaction) in history.iter().enumerate() {
        let is_committed = transaction.status == Status::Committed;
        runs.push(is_committed)?;
        if is_committed {
            notes.tie_appends(number, transaction.operations.as_slice())?;
        }
    }
    sort_ties(alloc, notes.ties.as_slice(), runs.as_slice())
}

impl<'a> Notes<'a> {
    /// The append of the value to the key, with the value, if its transaction committed.
    fn written(&self, key: u32, value: u64) -> Option<Written> {
        let append = self.appends.find(key, value)?;
        let is_committed = self.history.get(append.0)?.status == Status::Committed;
        is_committed.then_some((value, append))
    }

    /// Makes the read the longest of its key, if it saw more.
    fn offer(&mut self, read: Read<'a>) -> Result<(), NoMemory> {
        let written = read
            .seen
            .iter()
            .filter_map(|value| self.written(read.key, *value));
        let len = written.count();
        let longest = Longest {
            read,
            len,
            last: None,
        };
        match self.longest.get(&read.key) {
            Some(before) if len <= before.len => (),
            _ => {
                self.longest.insert(read.key, longest)?;
            }
        }
        Ok(())
    }

    /// Adds the ties of the longest read of a key, or of one that is no prefix of it.
    fn tie_read(&mut self, read: Read<'a>) -> Result<(), NoMemory> {
        let Some(longest) = self.longest.get(&read.key).copied() else {
            return Ok(());
        };
        let whole = longest.read;
        if whole.reader == read.reader && whole.position == read.position {
            return self.tie_longest(read);
        }
        self.tie_others(whole, read)
    }

    /// Adds the ties between the values of the longest read, and notes the values.
    fn tie_longest(&mut self, read: Read<'a>) -> Result<(), NoMemory> {
        let mut last = None;
        for value in read.seen {
            self.seen.insert((read.key, *value))?;
            if let Some((_, next)) = self.written(read.key, *value) {
                if let Some(before) = last {
                    tie_in_order(&mut self.ties, before, next, read)?;
                }
                last = Some(next);
            }
        }
        if let Some(longest) = self.longest.get_mut(&read.key) {
            longest.last = last;
        }
        Ok(())
    }

    /// Adds two ties, if the values of neither read are the first ones of the other: where they first differ.
    fn tie_others(&mut self, whole: Read<'_>, read: Read<'_>) -> Result<(), NoMemory> {
        let ones = whole
            .seen
            .iter()
            .filter_map(|value| self.written(whole.key, *value));
        let others = read
            .seen
            .iter()
            .filter_map(|value| self.written(read.key, *value));
        if let Some((one, other)) = ones.zip(others).find(|(one, other)| one.0 != other.0) {
            self.tie_between(one, other, whole)?;
            self.tie_between(other, one, read)?;
        }
        Ok(())
    }

    /// Adds the tie that the read saw the first value, and the second one later or not at all.
    fn tie_between(
        &mut self,
        first: Written,
        second: Written,
        read: Read<'_>,
    ) -> Result<(), NoMemory> {
        if has(read.seen, second.0) {
            tie_in_order(&mut self.ties, first.1, second.1, read)
        } else {
            tie_late(&mut self.ties, first.1, second.1, read)
        }
    }

    /// Adds the ties to the transaction's appends from the last values of the longest reads, which did not see them.
    fn tie_appends(&mut self, number: usize, operations: &[Operation]) -> Result<(), NoMemory> {
        for (position, operation) in operations.iter().enumerate() {
            let Operation::Append { key, value } = operation else {
                continue;
            };
            if self.seen.contains(&(*key, *value)) {
                continue;
            }
            if let Some(longest) = self.longest.get(key).copied() {
                if let Some(last) = longest.last {
                    tie_late(&mut self.ties, last, (number, position), longest.read)?;
                }
            }
        }
        Ok(())
    }
}
