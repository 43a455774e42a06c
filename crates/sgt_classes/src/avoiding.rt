//! The avoidance of cascading aborts, and the write that an operation reads from.
ghost use Rattle.std.specs.Prelude.{◌≡◌, ◌≢◌, ◌<◌, ◌+◌, ℕ, List, Some, None, length, is_some, IfSome, IfOk, OnOk, IsNone};
ghost use Rattle.sgt_classes.specs.declared.operation.Operation.{Operation};
ghost use Rattle.sgt_classes.specs.declared.operation.Action.TheVariants.{Write};
ghost use Rattle.sgt_classes.specs.Histories.{Does, AbortedBefore};
ghost use Rattle.sgt_classes.specs.Links.{link_of};
ghost use Rattle.sgt_classes.specs.Tables.{entry_of};
ghost use Rattle.sgt_classes.specs.Classes.{ReadsFrom, BreaksAvoidance, IsFirstViolation};
ghost use Rattle.sgt_classes.specs.Seen.{KnowsSources, IsTopWrite};

use crate::checker::{Checker, first_violation};
use crate::links::Links;
use crate::operation::{Action, Operation, Violation};
use crate::table::Table;
use sgt_model::NoMemory;
use std::alloc::Global;

/// The first operation that reads from another transaction that has not committed, with the write that it reads.
/// `None` if the history avoids cascading aborts.
///
/// Bernstein, Hadzilacos and Goodman (1987), chapter 2: avoids cascading aborts. An operation reads from the last
/// write of its item before it whose transaction has not aborted by then.
///
/// Each write of an aborted transaction is visited once in total. Apart from that, an operation costs at most four
/// lookups in a table, of the items and the transactions seen.
pub fn avoidance_violation(
    alloc: Global,
    history: &[Operation],
) -> Result<Option<Violation>, NoMemory>
    ensures { IfOk result (IsFirstViolation (BreaksAvoidance history.now)) }
{
    let mut seen = Sources::new(alloc, history.len());
    first_violation(&mut seen, history)
}

/// The write that the read at the position reads from: the last one of its item before it whose transaction has not
/// aborted by then. `None` if there is none, or if the operation at the position is no read.
///
/// Each operation before the position costs at most one lookup in a table.
pub fn read_source(
    alloc: Global,
    history: &[Operation],
    place: usize,
) -> Result<Option<usize>, NoMemory>
    requires { place < length history.now }
    ensures some { IfOk result (λ source. IfSome source (λ i. (x : ℕ) × (w : ℕ) × (r : ℕ) × ReadsFrom history.now i place x w r)) }
    ensures none { IfOk result (λ source. IsNone source → (i x w r : ℕ) → ¬ ReadsFrom history.now i place x w r) }
{
    let Action::Read(item) = history[place].action else {
        return Ok(None);
    };
    let mut seen = Sources::new(alloc, history.len());
    seen.note_until(history, place)?;
    Ok(seen.standing(history, place, item))
}

/// The state of the operations before a position, to find the write that the next operation reads from.
#[derive(Drop)]
pub struct Sources {
    /// The position of an item's last write whose transaction is not known to have aborted.
    tops: Table,
    /// For the position of a write, that of an earlier write of its item. It is the newest one once the later writer
    /// has aborted.
    below: Links,
    /// The position at which a transaction has committed.
    commits: Table,
    /// The position at which a transaction has aborted.
    aborts: Table,
}

impl Sources {
    /// The state before the first operation. Numbers of items and transactions below the bound are found by index.
    pub fn new(alloc: Global, bound: usize) -> Self
        ensures { (h : List Operation) → KnowsSources h 0 result }
    {
        Sources {
            tops: Table::new(alloc, bound),
            below: Links::new(alloc),
            commits: Table::new(alloc, bound),
            aborts: Table::new(alloc, bound),
        }
    }

    /// Records the operations before the position. No operation may be recorded yet.
    fn note_until(&mut self, history: &[Operation], place: usize) -> Result<(), NoMemory>
        requires within { place < length history.now }
        requires sources { KnowsSources history.now 0 self.old }
        ensures { OnOk result (KnowsSources history.now place self.new) }
    {
        for earlier in 0..place {
            self.record(history, earlier)?;
        }
        Ok(())
    }

    /// Whether the transaction has committed.
    pub fn has_committed(&self, transaction: u32) -> bool
        ensures { result ≡ is_some (entry_of self.now.commits transaction) }
    {
        self.commits.contains_key(transaction)
    }

    /// The write that the operation reads, if another transaction wrote it that has not committed.
    pub fn uncommitted(
        &mut self,
        history: &[Operation],
        place: usize,
    ) -> Result<Option<usize>, NoMemory>
        requires within { place < length history.now }
        requires sources { KnowsSources history.now place self.old }
        ensures sources { OnOk result (KnowsSources history.now place self.new) }
        ensures some { IfOk result (λ found. IfSome found (λ i. BreaksAvoidance history.now i place)) }
        ensures none { IfOk result (λ found. IsNone found → (i : ℕ) → ¬ BreaksAvoidance history.now i place) }
    {
        let operation = history[place];
        let Action::Read(item) = operation.action else {
            return Ok(None);
        };
        let source = self.standing(history, place, item);
        set_top(&mut self.tops, item, source)?;
        let Some(earlier) = source else {
            return Ok(None);
        };
        let writer = history[earlier].transaction;
        if writer == operation.transaction || self.has_committed(writer) {
            return Ok(None);
        }
        Ok(Some(earlier))
    }

    /// The item's last write before the position whose transaction has not aborted by then.
    fn standing(&self, history: &[Operation], place: usize, item: u32) -> Option<usize>
        requires within { place < length history.now }
        requires sources { KnowsSources history.now place self.now }
        ensures top { IsTopWrite history.now place item result }
        ensures standing { IfSome result (λ i. (t : ℕ) → Does history.now i t (Write item) → ¬ AbortedBefore history.now t place) }
    {
        let mut top = self.tops.find(item);
        while let Some(write) = top {
            if !self.aborts.contains_key(history[write].transaction) {
                return top;
            }
            top = self.below.get(write);
        }
        None
    }
}

impl Checker for Sources {
    ghost breaks = { BreaksAvoidance };

    ghost knows = { KnowsSources };

    fn broken(&mut self, history: &[Operation], place: usize) -> Result<Option<usize>, NoMemory> {
        self.uncommitted(history, place)
    }

    /// Records the operation: its write, or the end of its transaction.
    fn record(&mut self, history: &[Operation], place: usize) -> Result<(), NoMemory> {
        let operation = history[place];
        match operation.action {
            Action::Read(_) => (),
            Action::Write(item) => put_on_top(&mut self.tops, &mut self.below, item, place)?,
            Action::Commit => self.commits.set_place(operation.transaction, place)?,
            Action::Abort => self.aborts.set_place(operation.transaction, place)?,
        }
        Ok(())
    }
}

/// Sets the newest position of an item.
pub fn set_top(tops: &mut Table, item: u32, top: Option<usize>) -> Result<(), NoMemory>
    ensures at { OnOk result (entry_of tops.new item ≡ top) }
    ensures others { OnOk result ((x : ℕ) → x ≢ item → entry_of tops.new x ≡ entry_of tops.old x) }
{
    match top {
        Some(place) => tops.set_place(item, place)?,
        None => {
            tops.remove(item);
        }
    }
    Ok(())
}

/// Makes a position the newest of a number, for example of the writes of an item.
pub fn put_on_top(
    tops: &mut Table,
    below: &mut Links,
    item: u32,
    place: usize,
) -> Result<(), NoMemory>
    requires fresh { link_of below.old place ≡ None }
    ensures top { OnOk result (entry_of tops.new item ≡ Some place) }
    ensures other_tops { OnOk result ((x : ℕ) → x ≢ item → entry_of tops.new x ≡ entry_of tops.old x) }
    ensures lower { OnOk result (link_of below.new place ≡ entry_of tops.old item) }
    ensures others_below { OnOk result ((i : ℕ) → i ≢ place → link_of below.new i ≡ link_of below.old i) }
{
    if let Some(lower) = tops.find(item) {
        below.set(place, lower)?;
    }
    tops.set_place(item, place)
}
