//! Strictness.
ghost use Rattle.std.specs.Prelude.{◌≡◌, ◌≢◌, ◌<◌, ◌+◌, ℕ, List, Some, length, is_some, IfSome, IfOk, OnOk, IsNone};
ghost use Rattle.sgt_classes.specs.declared.operation.Operation.{Operation};
ghost use Rattle.sgt_classes.specs.Classes.{BreaksStrictness, IsFirstViolation};
ghost use Rattle.sgt_classes.specs.Tables.{entry_of};
ghost use Rattle.sgt_classes.specs.Seen.{AreLastWrites, AreEnded, KnowsWrites, NoneBreaksBefore};

use crate::checker::{Checker, first_violation};
use crate::operation::{Action, Operation, Violation};
use crate::table::Table;
use sgt_model::NoMemory;
use std::alloc::Global;

/// The first operation that reads or writes an item that another transaction has written that has not ended, with
/// such a write. `None` if the history is strict.
///
/// Bernstein, Hadzilacos and Goodman (1987), chapter 2: strict.
///
/// An operation costs two lookups in a table, of the items and of the transactions seen.
pub fn strict_violation(alloc: Global, history: &[Operation]) -> Result<Option<Violation>, NoMemory>
    ensures { IfOk result (IsFirstViolation (BreaksStrictness history.now)) }
{
    let mut seen = Writes::new(alloc, history.len());
    first_violation(&mut seen, history)
}

/// The last write of each item and which transactions have ended, before a position.
#[derive(Drop)]
pub struct Writes {
    /// The position of an item's last write.
    writers: Table,
    /// The position at which a transaction has ended.
    ended: Table,
}

impl Writes {
    /// The state before the first operation. Numbers of items and transactions below the bound are found by index.
    pub fn new(alloc: Global, bound: usize) -> Self
        ensures last { (h : List Operation) → AreLastWrites h 0 (entry_of result.writers) }
        ensures ends { (h : List Operation) → AreEnded h 0 (entry_of result.ended) }
    {
        Writes {
            writers: Table::new(alloc, bound),
            ended: Table::new(alloc, bound),
        }
    }

    /// Whether the transaction has ended.
    pub fn has_ended(&self, transaction: u32) -> bool
        ensures { result ≡ is_some (entry_of self.now.ended transaction) }
    {
        self.ended.contains_key(transaction)
    }

    /// The last write of the item.
    pub fn last_write(&self, item: u32) -> Option<usize>
        ensures { result ≡ entry_of self.now.writers item }
    {
        self.writers.find(item)
    }

    /// The last write of the operation's item, if another transaction wrote it that has not ended.
    pub fn unended(&self, history: &[Operation], place: usize) -> Option<usize>
        requires within { place < length history.now }
        requires last { AreLastWrites history.now place (entry_of self.now.writers) }
        requires ends { AreEnded history.now place (entry_of self.now.ended) }
        requires strict { NoneBreaksBefore (BreaksStrictness history.now) place }
        ensures some { IfSome result (λ i. BreaksStrictness history.now i place) }
        ensures none { IsNone result → (i : ℕ) → ¬ BreaksStrictness history.now i place }
    {
        let operation = history[place];
        let item = operation.action.item()?;
        let earlier = self.writers.find(item)?;
        let writer = history[earlier].transaction;
        if writer == operation.transaction || self.has_ended(writer) {
            return None;
        }
        Some(earlier)
    }

    /// Records the operation: its write, or the end of its transaction.
    pub fn note(&mut self, history: &[Operation], place: usize) -> Result<(), NoMemory>
        requires within { place < length history.now }
        requires last { AreLastWrites history.now place (entry_of self.old.writers) }
        requires ends { AreEnded history.now place (entry_of self.old.ended) }
        ensures last { OnOk result (AreLastWrites history.now (place + 1) (entry_of self.new.writers)) }
        ensures ends { OnOk result (AreEnded history.now (place + 1) (entry_of self.new.ended)) }
    {
        let operation = history[place];
        match operation.action {
            Action::Read(_) => (),
            Action::Write(item) => self.writers.set_place(item, place)?,
            Action::Commit | Action::Abort => self.ended.set_place(operation.transaction, place)?,
        }
        Ok(())
    }
}

impl Checker for Writes {
    ghost breaks = { BreaksStrictness };

    ghost knows = { KnowsWrites };

    fn broken(&mut self, history: &[Operation], place: usize) -> Result<Option<usize>, NoMemory> {
        Ok(self.unended(history, place))
    }

    fn record(&mut self, history: &[Operation], place: usize) -> Result<(), NoMemory> {
        self.note(history, place)
    }
}
