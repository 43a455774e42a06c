//! The commit order.
ghost use Rattle.std.specs.Prelude.{◌≡◌, ◌≢◌, ◌<◌, ◌+◌, ℕ, Some, None, length, IfSome, IfOk, OnOk, IsNone};
ghost use Rattle.sgt_classes.specs.Classes.{IsFirstViolation};
ghost use Rattle.sgt_classes.specs.Tables.{entry_of};
ghost use Rattle.sgt_classes.specs.SerialOrders.{TakesFirst};
ghost use Rattle.sgt_classes.specs.Serializability.{BreaksCommitOrder, IsCommitOrdered, IsSerialOrder};
ghost use Rattle.sgt_classes.specs.Equivalence.{IsSerialRun, serial_history};
ghost use Rattle.sgt_classes.specs.Seen.{AreFirstCommits, KnowsLatestUses, later_use, use_after, use_of};

use crate::checker::{Checker, first_violation};
use crate::operation::{Action, Operation, Violation};
use crate::table::Table;
use sgt_model::NoMemory;
use std::alloc::Global;

/// The first operation of a committed transaction that conflicts with an earlier one of another that commits later,
/// with that earlier one. `None` if the history is commit ordered.
///
/// Bernstein, Hadzilacos and Goodman (1987), chapter 2: conflict. The first commit of a transaction counts.
///
/// An operation costs at most six lookups in a table, of the items and of the committed transactions.
pub fn commit_order_violation(
    alloc: Global,
    history: &[Operation],
) -> Result<Option<Violation>, NoMemory>
    ensures { IfOk result (IsFirstViolation (BreaksCommitOrder history.now)) }
{
    let mut seen = LatestUses {
        commits: first_commits(alloc, history)?,
        reads: ItemUses::new(alloc, history.len()),
        writes: ItemUses::new(alloc, history.len()),
    };
    first_violation(&mut seen, history)
}

/// The committed transactions in the order of their first commits. For a commit ordered history this is a serial
/// order, in which the transaction that committed first always comes first of those that may come next. One after
/// another in this order, they are a serial history that is conflict equivalent to the committed projection.
///
/// Bernstein, Hadzilacos and Goodman (1987), chapter 2: serializability theorem.
///
/// A commit costs at most five lookups in a table, any other operation none.
pub fn serial_commit_order(alloc: Global, history: &[Operation]) -> Result<Vec<u32>, NoMemory>
    requires { IsCommitOrdered history.now }
    ensures serial { IfOk result (λ order. IsSerialOrder history.now order.items) }
    ensures first { IfOk result (λ order. TakesFirst history.now order.items) }
    ensures equivalent { IfOk result (λ order. IsSerialRun history.now (serial_history history.now order.items)) }
{
    let mut left = first_commits(alloc, history)?;
    let mut order = Vec::new(alloc);
    for place in 0..history.len() {
        let operation = history[place];
        if operation.action == Action::Commit && left.contains_key(operation.transaction) {
            left.remove(operation.transaction);
            order.push(operation.transaction)?;
        }
    }
    Ok(order)
}

/// The position of the first commit of each committed transaction.
pub fn first_commits(alloc: Global, history: &[Operation]) -> Result<Table, NoMemory>
    ensures { IfOk result (λ commits. AreFirstCommits history.now (length history.now) (entry_of commits)) }
{
    let mut commits = Table::new(alloc, history.len());
    for place in 0..history.len() {
        let operation = history[place];
        if operation.action == Action::Commit && !commits.contains_key(operation.transaction) {
            commits.set_place(operation.transaction, place)?;
        }
    }
    Ok(commits)
}

/// A read or a write of an item by a committed transaction.
#[derive(Clone, Copy)]
pub struct LatestUse {
    /// The position of its transaction's commit.
    pub commit: usize,
    /// Its position.
    pub place: usize,
}

/// One use for each of some items.
#[derive(Drop)]
pub struct ItemUses {
    /// The position of the commit of the use's transaction.
    commits: Table,
    /// Its position.
    places: Table,
}

impl ItemUses {
    /// No item has a use. Items with numbers below the bound are found by index.
    fn new(alloc: Global, bound: usize) -> Self
        ensures { (x : ℕ) → use_of result x ≡ None }
    {
        ItemUses {
            commits: Table::new(alloc, bound),
            places: Table::new(alloc, bound),
        }
    }

    /// The use of the item.
    fn find(&self, item: u32) -> Option<LatestUse>
        ensures { result ≡ use_of self.now item }
    {
        let commit = self.commits.find(item)?;
        let place = self.places.find(item)?;
        Some(LatestUse { commit, place })
    }

    /// Sets the use of the item.
    fn set_use(&mut self, item: u32, latest: LatestUse) -> Result<(), NoMemory>
        ensures at { OnOk result (use_of self.new item ≡ Some latest) }
        ensures others { OnOk result ((x : ℕ) → x ≢ item → use_of self.new x ≡ use_of self.old x) }
    {
        self.commits.set_place(item, latest.commit)?;
        self.places.set_place(item, latest.place)?;
        Ok(())
    }
}

/// For each item, the uses before a position by the transactions that commit last.
#[derive(Drop)]
struct LatestUses {
    /// The position of a transaction's commit.
    commits: Table,
    /// Of the reads of an item, the one whose transaction commits last.
    reads: ItemUses,
    /// Of the writes of an item, the one whose transaction commits last.
    writes: ItemUses,
}

impl LatestUses {
    /// The conflicting use by a transaction that commits later.
    fn inverted(&self, history: &[Operation], place: usize) -> Option<usize>
        requires within { place < length history.now }
        requires uses { KnowsLatestUses history.now place self.now }
        ensures some { IfSome result (λ i. BreaksCommitOrder history.now i place) }
        ensures none { IsNone result → (i : ℕ) → ¬ BreaksCommitOrder history.now i place }
    {
        let operation = history[place];
        let item = operation.action.item()?;
        let commit = self.commits.find(operation.transaction)?;
        let write = committing_after(&self.writes, item, commit);
        if write.is_some() {
            return write;
        }
        let Action::Write(_) = operation.action else {
            return None;
        };
        committing_after(&self.reads, item, commit)
    }
}

impl Checker for LatestUses {
    ghost breaks = { BreaksCommitOrder };

    ghost knows = { KnowsLatestUses };

    fn broken(&mut self, history: &[Operation], place: usize) -> Result<Option<usize>, NoMemory> {
        Ok(self.inverted(history, place))
    }

    /// Records the operation: its read or its write, if its transaction commits.
    fn record(&mut self, history: &[Operation], place: usize) -> Result<(), NoMemory> {
        let operation = history[place];
        let Some(commit) = self.commits.find(operation.transaction) else {
            return Ok(());
        };
        let latest = LatestUse { commit, place };
        match operation.action {
            Action::Read(item) => keep_later(&mut self.reads, item, latest)?,
            Action::Write(item) => keep_later(&mut self.writes, item, latest)?,
            Action::Commit | Action::Abort => (),
        }
        Ok(())
    }
}

/// Stores the use of the item if its transaction commits after that of the stored one.
fn keep_later(uses: &mut ItemUses, item: u32, latest: LatestUse) -> Result<(), NoMemory>
    ensures at { OnOk result (use_of uses.new item ≡ Some (later_use (use_of uses.old item) latest)) }
    ensures others { OnOk result ((x : ℕ) → x ≢ item → use_of uses.new x ≡ use_of uses.old x) }
{
    if let Some(known) = uses.find(item) {
        if known.commit >= latest.commit {
            return Ok(());
        }
    }
    uses.set_use(item, latest)
}

/// The position of the stored use of the item, if its transaction commits after the given position.
fn committing_after(uses: &ItemUses, item: u32, commit: usize) -> Option<usize>
    ensures { result ≡ use_after (use_of uses.now item) commit }
{
    let known = uses.find(item)?;
    if commit < known.commit {
        return Some(known.place);
    }
    None
}
