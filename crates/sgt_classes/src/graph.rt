//! The serialization graph, with few of its edges.
ghost use Rattle.std.specs.Prelude.{◌≡◌, ◌≢◌, ◌<◌, ◌+◌, ℕ, List, [], length, IfOk, OnOk};
ghost use Rattle.sgt_classes.specs.declared.operation.Operation.{Operation};
ghost use Rattle.sgt_classes.specs.declared.operation.Action.{Action};
ghost use Rattle.sgt_classes.specs.declared.operation.Action.TheVariants.{Write};
ghost use Rattle.sgt_classes.specs.Histories.{Does, Uses};
ghost use Rattle.sgt_classes.specs.Serializability.{Conflict, IsProjectionInPlace, ReachAll};
ghost use Rattle.sgt_classes.specs.Tables.{entry_of};
ghost use Rattle.sgt_classes.specs.Seen.{AreFirstCommits, KnowsAccesses, IsGraph, HasEdge, HasConflicts, HasWriteConflicts, HasReadConflicts};

use crate::checker::Checker;
use crate::commit_order::first_commits;
use crate::operation::{Action, Operation};
use crate::rigorous::ItemAccesses;
use crate::table::Table;
use sgt_model::NoMemory;
use std::alloc::Global;

/// An edge of the serialization graph, with two operations that conflict.
///
/// Bernstein, Hadzilacos and Goodman (1987), chapter 2: serialization graph.
#[derive(Clone, Copy)]
pub struct Edge {
    /// The transaction of the earlier operation.
    pub from: u32,
    /// The transaction of the later operation.
    pub to: u32,
    /// The position of the earlier operation.
    pub earlier: usize,
    /// The position of the later operation.
    pub later: usize,
}

/// Edges of the serialization graph that reach what all its edges reach. They lead from the last writer of an item to
/// each reader or writer of it, and from the readers since to the next writer. They are ordered by their later
/// operations.
///
/// Bernstein, Hadzilacos and Goodman (1987), chapter 2: serialization graph, of the committed projection.
///
/// There are at most two edges for each operation. An operation costs at most six lookups in a table.
pub fn serialization_edges(alloc: Global, history: &[Operation]) -> Result<Vec<Edge>, NoMemory>
    ensures { IfOk result (λ edges. ReachAll history.now edges.items) }
{
    let commits = first_commits(alloc, history)?;
    edges_of_committed(alloc, history, &commits)
}

/// The edges that `serialization_edges` returns, for a caller that knows the commits.
pub fn edges_of_committed(
    alloc: Global,
    history: &[Operation],
    commits: &Table,
) -> Result<Vec<Edge>, NoMemory>
    requires { AreFirstCommits history.now (length history.now) (entry_of commits.now) }
    ensures { IfOk result (λ edges. ReachAll history.now edges.items) }
{
    let projection = projection_in_place(alloc, history, commits)?;
    let graph = ProjectionGraph::of_projection(alloc, projection.as_slice())?;
    Ok(graph.edges)
}

/// Edges of the serialization graph of a committed projection.
#[derive(Drop)]
pub struct ProjectionGraph {
    /// The edges, in the order of their later operations.
    edges: Vec<Edge>,
}

impl ProjectionGraph {
    /// The edges of a committed projection that start at the last writer of an item, and at its readers since.
    pub fn of_projection(alloc: Global, operations: &[Operation]) -> Result<Self, NoMemory>
        ensures graph { IfOk result (λ g. IsGraph operations.now g) }
        ensures conflicts { IfOk result (λ g. HasConflicts operations.now g.edges.items (length operations.now)) }
    {
        let mut graph = ProjectionGraph {
            edges: Vec::new(alloc),
        };
        let mut seen = ItemAccesses::new(alloc, operations.len());
        graph.connect_all(operations, &mut seen)?;
        Ok(graph)
    }

    /// Adds the edges of the committed projection. No edge and no operation may be recorded yet.
    fn connect_all(
        &mut self,
        operations: &[Operation],
        seen: &mut ItemAccesses,
    ) -> Result<(), NoMemory>
        requires none { self.old.edges.items ≡ [] }
        requires uses { KnowsAccesses operations.now 0 seen.old }
        ensures graph { OnOk result (IsGraph operations.now self.new) }
        ensures conflicts { OnOk result (HasConflicts operations.now self.new.edges.items (length operations.now)) }
    {
        for place in 0..operations.len() {
            self.connect_write(operations, place, seen)?;
            self.connect_reads(operations, place, seen)?;
            seen.record(operations, place)?;
        }
        Ok(())
    }

    /// Adds the edge from the last writer of the item that the operation at the position reads or writes.
    fn connect_write(
        &mut self,
        operations: &[Operation],
        place: usize,
        seen: &ItemAccesses,
    ) -> Result<(), NoMemory>
        requires within { place < length operations.now }
        requires uses { KnowsAccesses operations.now place seen.now }
        requires graph { IsGraph operations.now self.old }
        ensures graph { OnOk result (IsGraph operations.now self.new) }
        ensures kept { OnOk result ((t u : ℕ) → HasEdge self.old.edges.items t u → HasEdge self.new.edges.items t u) }
        ensures conflicts { OnOk result (HasWriteConflicts operations.now self.new.edges.items place) }
    {
        let Some(item) = operations[place].action.item() else {
            return Ok(());
        };
        let Some(write) = seen.last_write(item) else {
            return Ok(());
        };
        self.connect(operations, write, place)?;
        Ok(())
    }

    /// Adds the edges from the readers of the item since its last write, which the operation at the position
    /// overwrites.
    fn connect_reads(
        &mut self,
        operations: &[Operation],
        place: usize,
        seen: &ItemAccesses,
    ) -> Result<(), NoMemory>
        requires within { place < length operations.now }
        requires uses { KnowsAccesses operations.now place seen.now }
        requires graph { IsGraph operations.now self.old }
        ensures graph { OnOk result (IsGraph operations.now self.new) }
        ensures kept { OnOk result ((t u : ℕ) → HasEdge self.old.edges.items t u → HasEdge self.new.edges.items t u) }
        ensures conflicts { OnOk result (HasReadConflicts operations.now self.new.edges.items place) }
    {
        let Action::Write(item) = operations[place].action else {
            return Ok(());
        };
        let mut read = seen.last_read(item);
        while let Some(earlier) = read {
            self.connect(operations, earlier, place)?;
            read = seen.read_before(earlier);
        }
        Ok(())
    }

    /// Adds the edge of two operations, if they belong to different transactions.
    fn connect(
        &mut self,
        operations: &[Operation],
        earlier: usize,
        later: usize,
    ) -> Result<(), NoMemory>
        requires order { earlier < later }
        requires within { later < length operations.now }
        requires conflict { (t u : ℕ) (a b : Action) → Does operations.now earlier t a → Does operations.now later u b → Conflict operations.now earlier t later u }
        requires graph { IsGraph operations.now self.old }
        ensures graph { OnOk result (IsGraph operations.now self.new) }
        ensures kept { OnOk result ((t u : ℕ) → HasEdge self.old.edges.items t u → HasEdge self.new.edges.items t u) }
        ensures connected { OnOk result ((t u : ℕ) (a b : Action) → Does operations.now earlier t a → Does operations.now later u b → t ≢ u → HasEdge self.new.edges.items t u) }
    {
        let from = operations[earlier].transaction;
        let to = operations[later].transaction;
        if from == to {
            return Ok(());
        }
        self.edges.push(Edge {
            from,
            to,
            earlier,
            later,
        })?;
        Ok(())
    }
}

/// The committed projection in place: the history in which an abort replaces each operation of a transaction that
/// does not commit.
///
/// Bernstein, Hadzilacos and Goodman (1987), chapter 2: committed projection; here each operation keeps its position.
pub fn projection_in_place(
    alloc: Global,
    history: &[Operation],
    commits: &Table,
) -> Result<Vec<Operation>, NoMemory>
    requires { AreFirstCommits history.now (length history.now) (entry_of commits.now) }
    ensures same_length { IfOk result (λ q. length q.items ≡ length history.now) }
    ensures projection { IfOk result (λ q. IsProjectionInPlace history.now q.items) }
{
    let mut projection = Vec::new(alloc);
    for place in 0..history.len() {
        let mut operation = history[place];
        if !commits.contains_key(operation.transaction) {
            operation.action = Action::Abort;
        }
        projection.push(operation)?;
    }
    Ok(projection)
}
