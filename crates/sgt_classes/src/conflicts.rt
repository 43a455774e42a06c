//! The serialization graph, each edge with the first two operations that make it.
ghost use Rattle.std.specs.Prelude.{◌≡◌, ◌≢◌, ◌<◌, ◌+◌, ℕ, List, length, IfOk, OnOk};
ghost use Rattle.sgt_classes.specs.declared.operation.Operation.{Operation};
ghost use Rattle.sgt_classes.specs.declared.operation.Action.{Action};
ghost use Rattle.sgt_classes.specs.declared.first_accesses.Counted.TheVariants as kind;
ghost use Rattle.sgt_classes.specs.Histories.{Does};
ghost use Rattle.sgt_classes.specs.Seen.{HasEdge};
ghost use Rattle.sgt_classes.specs.FirstConflicts.{AreFirstConflicts};
ghost use Rattle.sgt_classes.specs.FirstAccesses.{KnowsFirsts, KnowsConflicts, AreRivals, IsRepeated, IsFirstRival};

use crate::commit_order::first_commits;
use crate::first_accesses::{Counted, FirstAccesses, set_pair};
use crate::graph::{Edge, projection_in_place};
use crate::operation::{Action, Operation};
use sgt_model::NoMemory;
use std::alloc::Global;
use std::collections::BTreeMap;

/// All edges of the serialization graph, each with the first two operations that make it: the first possible later
/// operation, and for it the first possible earlier one. They are ordered by their later operations, and those of one
/// later operation from the last earlier one back.
///
/// Bernstein, Hadzilacos and Goodman (1987), chapter 2: serialization graph, of the committed projection.
///
/// An operation costs at most sixteen lookups in a map. Each edge costs five more for each item on which its two
/// transactions conflict, however often they conflict on it.
///
/// # Errors
///
/// `NoMemory` if an allocation failed.
pub fn first_conflicts(alloc: Global, history: &[Operation]) -> Result<Vec<Edge>, NoMemory>
    ensures { IfOk result (λ edges. AreFirstConflicts history.now edges.items) }
{
    let commits = first_commits(alloc, history)?;
    let projection = projection_in_place(alloc, history, &commits)?;
    let conflicts = Conflicts::of_projection(alloc, projection.as_slice())?;
    Ok(conflicts.edges)
}

/// The first conflicts of a committed projection before a position.
#[derive(Drop)]
pub struct Conflicts {
    /// The conflicts, as edges of the serialization graph, in the order in which they were found.
    edges: Vec<Edge>,
    /// For two transactions with an edge, the position of its later operation.
    reported: BTreeMap<(u32, u32), usize>,
}

impl Conflicts {
    /// The first conflicts of a committed projection.
    fn of_projection(alloc: Global, operations: &[Operation]) -> Result<Self, NoMemory>
        ensures { IfOk result (KnowsConflicts operations.now (length operations.now) (length operations.now)) }
    {
        let mut conflicts = Conflicts {
            edges: Vec::new(alloc),
            reported: BTreeMap::new(alloc),
        };
        let mut accesses = FirstAccesses::new(alloc, Counted::Any, operations.len());
        let mut writes = FirstAccesses::new(alloc, Counted::Writes, operations.len());
        conflicts.report_all(operations, &mut accesses, &mut writes)?;
        Ok(conflicts)
    }

    /// Adds the first conflicts of the committed projection. No conflict and no operation may be recorded yet.
    fn report_all(
        &mut self,
        operations: &[Operation],
        accesses: &mut FirstAccesses,
        writes: &mut FirstAccesses,
    ) -> Result<(), NoMemory>
        requires any { accesses.old.kind ≡ kind.Any }
        requires accesses { KnowsFirsts operations.now 0 accesses.old }
        requires writing { writes.old.kind ≡ kind.Writes }
        requires writes { KnowsFirsts operations.now 0 writes.old }
        requires conflicts { KnowsConflicts operations.now 0 0 self.old }
        ensures { OnOk result (KnowsConflicts operations.now (length operations.now) (length operations.now) self.new) }
    {
        for place in 0..operations.len() {
            self.report_at(operations, place, accesses, writes)?;
            accesses.note(operations, place)?;
            writes.note(operations, place)?;
        }
        Ok(())
    }

    /// Adds the first conflicts whose later operation is the one at the position.
    fn report_at(
        &mut self,
        operations: &[Operation],
        place: usize,
        accesses: &FirstAccesses,
        writes: &FirstAccesses,
    ) -> Result<(), NoMemory>
        requires within { place < length operations.now }
        requires any { accesses.now.kind ≡ kind.Any }
        requires accesses { KnowsFirsts operations.now place accesses.now }
        requires writing { writes.now.kind ≡ kind.Writes }
        requires writes { KnowsFirsts operations.now place writes.now }
        requires conflicts { KnowsConflicts operations.now place place self.old }
        ensures { OnOk result (KnowsConflicts operations.now (place + 1) (place + 1) self.new) }
    {
        let operation = operations[place];
        match operation.action {
            Action::Read(item) => {
                let reported = accesses.latest(operation.transaction, item).unwrap_or(0);
                self.report_back(operations, place, item, writes, reported)
            }
            Action::Write(item) => {
                let reported = writes.latest(operation.transaction, item).unwrap_or(0);
                self.report_back(operations, place, item, accesses, reported)
            }
            Action::Commit | Action::Abort => Ok(()),
        }
    }

    /// Adds the conflicts of the operation at the position with the first accesses to the item, from the last one
    /// back. Those before `reported` were added with an earlier operation of its transaction.
    fn report_back(
        &mut self,
        operations: &[Operation],
        place: usize,
        item: u32,
        rivals: &FirstAccesses,
        reported: usize,
    ) -> Result<(), NoMemory>
        requires within { place < length operations.now }
        requires firsts { KnowsFirsts operations.now place rivals.now }
        requires rivals { AreRivals operations.now place item rivals.now.kind }
        requires repeated { IsRepeated operations.now place item rivals.now.kind reported }
        requires conflicts { KnowsConflicts operations.now place place self.old }
        ensures { OnOk result (KnowsConflicts operations.now (place + 1) (place + 1) self.new) }
    {
        let mut rival = rivals.last(item);
        while let Some(earlier) = rival {
            if earlier < reported {
                return Ok(());
            }
            self.report(operations, earlier, place)?;
            rival = rivals.before(earlier);
        }
        Ok(())
    }

    /// Adds the conflict of two operations, if they belong to different transactions without an edge.
    fn report(
        &mut self,
        operations: &[Operation],
        earlier: usize,
        later: usize,
    ) -> Result<(), NoMemory>
        requires order { earlier < later }
        requires within { later < length operations.now }
        requires rival { IsFirstRival operations.now earlier later }
        requires conflicts { KnowsConflicts operations.now later (earlier + 1) self.old }
        ensures conflicts { OnOk result (KnowsConflicts operations.now later earlier self.new) }
        ensures kept { OnOk result ((t u : ℕ) → HasEdge self.old.edges.items t u → HasEdge self.new.edges.items t u) }
        ensures here { OnOk result ((t u : ℕ) (a b : Action) → Does operations.now earlier t a → Does operations.now later u b → t ≢ u
            → HasEdge self.new.edges.items t u) }
    {
        let from = operations[earlier].transaction;
        let to = operations[later].transaction;
        if from == to || self.reported.contains_key(&(from, to)) {
            return Ok(());
        }
        set_pair(&mut self.reported, (from, to), later)?;
        self.edges.push(Edge {
            from,
            to,
            earlier,
            later,
        })?;
        Ok(())
    }
}
