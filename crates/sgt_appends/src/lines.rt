//! The line of each key: its longest version.
//!
//! The version of a read is what it saw, followed by what its transaction appends to the key after it.
ghost use Rattle.std.specs.Prelude.{◌≡◌, ◌+◌, ◌≤◌, ◌↔◌, ◌⊎◌, ◌++◌, ℕ, Some, None, IfOk, OnOk, IfSome, IsNone, IsTrue, length};
ghost use Rattle.sgt_appends.specs.Runs.{operations_of};
ghost use Rattle.sgt_appends.specs.Tables.{stands};
ghost use Rattle.sgt_appends.specs.Reads.{own_at};
ghost use Rattle.sgt_appends.specs.Lists.{Has};
ghost use Rattle.sgt_appends.specs.Precedences.{appended, AppendsOnce};
ghost use Rattle.sgt_appends.specs.Orders.{AllClean};
ghost use Rattle.sgt_appends.specs.Lines.{line_in, keys_in, values_in, has_pair, IsWithLine, IsOffered, AreNumbered, AreLines, AreAllLines, KnowsNoMore, AreWritten};

use crate::contents::Contents;
use crate::reads::read_of;
use crate::transaction::Transaction;
use sgt_model::NoMemory;
use std::alloc::Global;
use std::collections::{BTreeMap, BTreeSet};

/// The longest version of a key.
#[derive(Drop)]
pub struct Line {
    /// The number of the line among those of all keys.
    pub number: usize,
    /// Its values.
    pub values: Vec<u64>,
}

/// The lines of the keys that committed transactions read.
#[derive(Drop)]
pub struct Lines {
    lines: BTreeMap<u32, Line>,
    /// The keys, by line number.
    keys: Vec<u32>,
}

impl Lines {
    /// The lines of the history.
    pub fn of_history(alloc: Global, history: &[Transaction]) -> Result<Self, NoMemory>
        requires once { AppendsOnce history.now }
        requires clean { AllClean history.now }
        ensures lines { IfOk result (λ lines. AreAllLines history.now (line_in lines) (keys_in lines)) }
        ensures longest { IfOk result (λ lines. KnowsNoMore history.now (line_in lines)) }
        ensures written { IfOk result (λ lines. AreWritten history.now (line_in lines)) }
    {
        let mut lines = Lines {
            lines: BTreeMap::new(alloc),
            keys: Vec::new(alloc),
        };
        for number in 0..history.len() {
            lines.add_transaction(alloc, history, number)?;
        }
        Ok(lines)
    }

    /// The line of the key.
    pub fn find(&self, key: u32) -> Option<&Line>
        ensures some { IfSome result (λ line. line_in self.now key ≡ Some line.now) }
        ensures none { IsNone result → line_in self.now key ≡ None }
    {
        self.lines.get(&key)
    }

    /// How many lines there are.
    pub fn len(&self) -> usize
        ensures { result ≡ length (keys_in self.now) }
    {
        self.keys.len()
    }

    /// Adds the versions of the transaction's reads.
    fn add_transaction(
        &mut self,
        alloc: Global,
        history: &[Transaction],
        number: usize,
    ) -> Result<(), NoMemory>
        requires { AreLines history.now number 0 (line_in self.old) (keys_in self.old) }
        ensures { OnOk result (AreLines history.now (number + 1) 0 (line_in self.new) (keys_in self.new)) }
    {
        let Some(transaction) = history.get(number) else {
            return Ok(());
        };
        let all = Contents::of(alloc, transaction.operations.as_slice())?;
        let mut own = Contents::new(alloc);
        for (position, operation) in transaction.operations.iter().enumerate() {
            self.add_position(alloc, history, &all, &own, number, position)?;
            own.note(alloc, operation)?;
        }
        Ok(())
    }

    /// Adds the version of the read at the position of the transaction, if it committed. `all` has what the transaction
    /// appends, and `own` what it appends before the position.
    fn add_position(
        &mut self,
        alloc: Global,
        history: &[Transaction],
        all: &Contents,
        own: &Contents,
        number: usize,
        position: usize,
    ) -> Result<(), NoMemory>
        requires lines { AreLines history.now number position (line_in self.old) (keys_in self.old) }
        requires all { (k : ℕ) → stands all.now k ≡ appended k (operations_of history.now number) }
        requires own { (k : ℕ) → stands own.now k ≡ own_at history.now number position k }
        ensures { OnOk result (AreLines history.now number (position + 1) (line_in self.new) (keys_in self.new)) }
    {
        match read_of(history, number, position) {
            Some(read) => {
                self.offer(alloc, read.key, read.seen, all.beyond(own, read.key))?;
                Ok(())
            }
            None => Ok(()),
        }
    }

    /// Makes the version the line of its key, if it is longer: what a read saw, and what came after it.
    fn offer(
        &mut self,
        alloc: Global,
        key: u32,
        seen: &[u64],
        later: &[u64],
    ) -> Result<(), NoMemory>
        ensures { OnOk result (IsOffered (line_in self.old) (line_in self.new) (keys_in self.old) (keys_in self.new) key
            (seen.now ++ later.now)) }
    {
        let Some(line) = self.find(key) else {
            let number = self.len();
            self.keys.push(key)?;
            self.put(key, number, joined(alloc, seen, later)?)?;
            return Ok(());
        };
        if fit(line.values.len(), seen, later) {
            return Ok(());
        }
        let number = line.number;
        self.put(key, number, joined(alloc, seen, later)?)?;
        Ok(())
    }

    /// Makes the values the line of the key, with this number.
    fn put(&mut self, key: u32, number: usize, values: Vec<u64>) -> Result<(), NoMemory>
        ensures line { OnOk result (IsWithLine (line_in self.old) (line_in self.new) key number values.items) }
        ensures keys { OnOk result (keys_in self.new ≡ keys_in self.old) }
    {
        self.lines.insert(key, Line { number, values })?;
        Ok(())
    }
}

/// The values of both lists.
fn joined(alloc: Global, seen: &[u64], later: &[u64]) -> Result<Vec<u64>, NoMemory>
    ensures { IfOk result (λ values. values.items ≡ seen.now ++ later.now) }
{
    let mut values = Vec::from_slice(alloc, seen)?;
    values.extend_from_slice(later)?;
    Ok(values)
}

/// Whether the two lists together have at most this many values.
fn fit(most: usize, seen: &[u64], later: &[u64]) -> bool
    ensures { IsTrue result ↔ (length (seen.now ++ later.now) ≤ most) }
{
    seen.len() <= most && later.len() <= most - seen.len()
}

/// The values of all lines, by key.
pub fn all_values(alloc: Global, lines: &Lines) -> Result<BTreeSet<(u32, u64)>, NoMemory>
    requires { AreNumbered (line_in lines.now) (keys_in lines.now) }
    ensures { IfOk result (λ set. (k v : ℕ) → has_pair set k v ↔ Has (values_in (line_in lines.now) k) v) }
{
    let mut set = BTreeSet::new(alloc);
    for key in lines.keys.as_slice() {
        note_line(&mut set, lines, *key)?;
    }
    Ok(set)
}

/// Adds the values of the key's line.
fn note_line(set: &mut BTreeSet<(u32, u64)>, lines: &Lines, key: u32) -> Result<(), NoMemory>
    ensures { OnOk result ((k v : ℕ) → has_pair set.new k v
        ↔ (has_pair set.old k v ⊎ ((key ≡ k) × Has (values_in (line_in lines.now) key) v))) }
{
    match lines.find(key) {
        Some(line) => note_values(set, key, line.values.as_slice()),
        None => Ok(()),
    }
}

/// Adds the values of the key.
fn note_values(set: &mut BTreeSet<(u32, u64)>, key: u32, values: &[u64]) -> Result<(), NoMemory>
    ensures { OnOk result ((k v : ℕ) → has_pair set.new k v ↔ (has_pair set.old k v ⊎ ((key ≡ k) × Has values.now v))) }
{
    for value in values {
        set.insert((key, *value))?;
    }
    Ok(())
}
