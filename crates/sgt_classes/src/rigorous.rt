//! Rigorousness.
ghost use Rattle.std.specs.Prelude.{◌≡◌, ◌<◌, ◌+◌, ℕ, List, length, IfSome, IfOk, OnOk, IsNone};
ghost use Rattle.sgt_classes.specs.declared.operation.Operation.{Operation};
ghost use Rattle.sgt_classes.specs.Classes.{BreaksStrictness, OverwritesReader, BreaksRigorousness, IsFirstViolation};
ghost use Rattle.sgt_classes.specs.Links.{link_of};
ghost use Rattle.sgt_classes.specs.Tables.{entry_of};
ghost use Rattle.sgt_classes.specs.Seen.{KnowsAccesses, AreReads, NoneBreaksBefore};

use crate::avoiding::put_on_top;
use crate::checker::{Checker, first_violation};
use crate::links::Links;
use crate::operation::{Action, Operation, Violation};
use crate::strict::Writes;
use crate::table::Table;
use sgt_model::NoMemory;
use std::alloc::Global;

/// The first operation that breaks strictness, or overwrites an item that another transaction has read that has not
/// ended. It comes with the write or read that it breaks rigorousness with. `None` if the history is rigorous.
///
/// Breitbart and others (1991): rigorous.
///
/// Each read is visited once more in total, at the next write of its item. Apart from that, an operation costs at
/// most four lookups in a table.
pub fn rigorous_violation(
    alloc: Global,
    history: &[Operation],
) -> Result<Option<Violation>, NoMemory>
    ensures { IfOk result (IsFirstViolation (BreaksRigorousness history.now)) }
{
    let mut seen = ItemAccesses::new(alloc, history.len());
    first_violation(&mut seen, history)
}

/// Which transactions have used each item and which have ended, before a position.
#[derive(Drop)]
pub struct ItemAccesses {
    /// The last writes, and which transactions have ended.
    writes: Writes,
    /// The position of an item's last read since its last write.
    lasts: Table,
    /// For the position of a read, that of the item's next earlier one since the write before.
    earlier: Links,
}

impl ItemAccesses {
    /// The state before the first operation. Numbers of items and transactions below the bound are found by index.
    pub fn new(alloc: Global, bound: usize) -> Self
        ensures { (h : List Operation) → KnowsAccesses h 0 result }
    {
        ItemAccesses {
            writes: Writes::new(alloc, bound),
            lasts: Table::new(alloc, bound),
            earlier: Links::new(alloc),
        }
    }

    /// The last write of the item.
    pub fn last_write(&self, item: u32) -> Option<usize>
        ensures { result ≡ entry_of self.now.writes.writers item }
    {
        self.writes.last_write(item)
    }

    /// The last read of the item since its last write.
    pub fn last_read(&self, item: u32) -> Option<usize>
        ensures { result ≡ entry_of self.now.lasts item }
    {
        self.lasts.find(item)
    }

    /// The next earlier one since the write before.
    pub fn read_before(&self, read: usize) -> Option<usize>
        ensures { result ≡ link_of self.now.earlier read }
    {
        self.earlier.get(read)
    }

    /// The conflicting use by another transaction that has not ended.
    fn unended(&self, history: &[Operation], place: usize) -> Option<usize>
        requires within { place < length history.now }
        requires uses { KnowsAccesses history.now place self.now }
        requires rigorous { NoneBreaksBefore (BreaksRigorousness history.now) place }
        ensures some { IfSome result (λ i. BreaksRigorousness history.now i place) }
        ensures none { IsNone result → (i : ℕ) → ¬ BreaksRigorousness history.now i place }
    {
        let write = self.writes.unended(history, place);
        if write.is_some() {
            return write;
        }
        self.unended_reader(history, place)
    }

    /// The read that the operation overwrites, by another transaction that has not ended.
    fn unended_reader(&self, history: &[Operation], place: usize) -> Option<usize>
        requires within { place < length history.now }
        requires uses { KnowsAccesses history.now place self.now }
        requires rigorous { NoneBreaksBefore (BreaksRigorousness history.now) place }
        requires strict { (i : ℕ) → ¬ BreaksStrictness history.now i place }
        ensures some { IfSome result (λ i. OverwritesReader history.now i place) }
        ensures none { IsNone result → (i : ℕ) → ¬ OverwritesReader history.now i place }
    {
        let operation = history[place];
        let Action::Write(item) = operation.action else {
            return None;
        };
        let mut read = self.lasts.find(item);
        while let Some(earlier) = read {
            let reader = history[earlier].transaction;
            if reader != operation.transaction && !self.writes.has_ended(reader) {
                return read;
            }
            read = self.earlier.get(earlier);
        }
        None
    }

    /// Records the operation if it is a read, and removes the reads of its item if it is a write.
    fn note_read(&mut self, history: &[Operation], place: usize) -> Result<(), NoMemory>
        requires within { place < length history.now }
        requires reads { AreReads history.now place (entry_of self.old.lasts) (link_of self.old.earlier) }
        ensures same { OnOk result (self.new.writes ≡ self.old.writes) }
        ensures reads { OnOk result (AreReads history.now (place + 1) (entry_of self.new.lasts) (link_of self.new.earlier)) }
    {
        let operation = history[place];
        match operation.action {
            Action::Read(item) => put_on_top(&mut self.lasts, &mut self.earlier, item, place)?,
            Action::Write(item) => {
                self.lasts.remove(item);
            }
            Action::Commit | Action::Abort => (),
        }
        Ok(())
    }
}

impl Checker for ItemAccesses {
    ghost breaks = { BreaksRigorousness };

    ghost knows = { KnowsAccesses };

    fn broken(&mut self, history: &[Operation], place: usize) -> Result<Option<usize>, NoMemory> {
        Ok(self.unended(history, place))
    }

    /// Records the operation: its read, its write, or the end of its transaction.
    fn record(&mut self, history: &[Operation], place: usize) -> Result<(), NoMemory> {
        self.note_read(history, place)?;
        self.writes.note(history, place)?;
        Ok(())
    }
}
