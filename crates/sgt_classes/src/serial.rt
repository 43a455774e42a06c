//! Whether a history is serializable, with a serial order or a cycle that shows it.
ghost use Rattle.std.specs.Prelude.{◌≡◌, ◌<◌, ◌+◌, ◌↔◌, ℕ, List, Some, None, slice_get, length, IsSome, IfSome, IfOk, OnOk, IsNone};
ghost use Rattle.std.specs.BTreeMap.{get};
ghost use Rattle.std.specs.Ordering.{nat_cmp};
ghost use Rattle.sgt_classes.specs.declared.graph.Edge.{Edge};
ghost use Rattle.sgt_classes.specs.declared.operation.Action.TheVariants.{Commit};
ghost use Rattle.sgt_classes.specs.Histories.{Does, IsWellFormed};
ghost use Rattle.sgt_classes.specs.Serializability.{IsAcyclic, IsEdgeBy, ReachAll};
ghost use Rattle.sgt_classes.specs.Equivalence.{IsSerializable};
ghost use Rattle.sgt_classes.specs.Seen.{AreFirstCommits};
ghost use Rattle.sgt_classes.specs.SerialOrders.{IsShown, IsSerial};
ghost use Rattle.sgt_classes.specs.Tables.{entry_of, table_len};
ghost use Rattle.sgt_classes.specs.Sorting.{KnowsWaits, AllReady, AllWatched, AllWait, AllWaitBut, AllLeftWait, IsReady, IsWatched, WaitsForLeft, LeadsFromLeft, IsTopEdge, IsFirstFree, AreSameBut, IsCycleOf};

use crate::chains::{EdgeChains, EdgeEnd};
use crate::commit_order::first_commits;
use crate::cycles::cycle_back;
use crate::graph::{Edge, edges_of_committed};
use crate::operation::{Action, Operation};
use crate::table::Table;
use crate::watched::Watched;
use sgt_model::NoMemory;
use std::alloc::Global;
use std::collections::BTreeMap;

/// Whether a history is serializable, and what shows it.
///
/// Bernstein, Hadzilacos and Goodman (1987), chapter 2: serializability theorem.
#[derive(Drop)]
pub enum Serializability {
    /// It is serializable: a serial order of the committed transactions. Of those that may come next, the one that
    /// committed first always does. So it is the commit order if that is a serial order.
    Serial(Vec<u32>),
    /// It is not serializable: a cycle of the serialization graph that names no transaction twice.
    Cycle(Vec<Edge>),
}

/// Whether the history is serializable.
///
/// - If so: a serial order of its committed transactions. One after another in this order, they are a serial history
///   that is conflict equivalent to the committed projection.
/// - If not: a cycle of the serialization graph. Then no serial history is conflict equivalent to the committed
///   projection.
///
/// An answer about the graph holds for every list of operations. A cycle excludes every serial history if no
/// transaction does anything after its end.
///
/// Bernstein, Hadzilacos and Goodman (1987), chapter 2: serializability theorem.
///
/// It costs what `serialization_edges` costs, and at most fifteen lookups in a table for each of those edges and each
/// commit.
pub fn serial_order_or_cycle(
    alloc: Global,
    history: &[Operation],
) -> Result<Serializability, NoMemory>
    ensures shown { IfOk result (IsShown history.now) }
    ensures acyclic { IfOk result (λ shown. IsSerial shown ↔ IsAcyclic history.now) }
    ensures serializable { IfOk result (λ shown. IsWellFormed history.now → IsSerial shown ↔ IsSerializable history.now) }
{
    let mut waits = Waits::of_history(alloc, history)?;
    waits.sort(alloc, history)
}

/// The committed transactions that are not in the order yet, and what they wait for.
#[derive(Drop)]
pub struct Waits {
    /// Edges of the serialization graph.
    edges: Vec<Edge>,
    /// The positions of the commits of transactions that are not in the order yet.
    left: Table,
    /// The edges by the transaction that they lead to. For a transaction not in the order yet, the last edge is the
    /// last one from another such transaction, which it waits for.
    incoming: EdgeChains,
    /// The edges because of which they wait or have waited.
    watched: Watched,
    /// The transactions that wait for none, by the positions of their commits.
    ready: BTreeMap<usize, u32>,
}

impl Waits {
    /// What the committed transactions of the history wait for before any is in the order.
    fn of_history(alloc: Global, history: &[Operation]) -> Result<Self, NoMemory>
        ensures waits { IfOk result KnowsWaits }
        ensures ready { IfOk result AllReady }
        ensures watched { IfOk result AllWatched }
        ensures wait { IfOk result AllWait }
        ensures edges { IfOk result (λ w. ReachAll history.now w.edges.items) }
        ensures left { IfOk result (λ w. AreFirstCommits history.now (length history.now) (entry_of w.left)) }
    {
        let commits = first_commits(alloc, history)?;
        let edges = edges_of_committed(alloc, history, &commits)?;
        Waits::new(alloc, history, edges, commits)
    }

    /// What they wait for before any is in the order.
    fn new(
        alloc: Global,
        history: &[Operation],
        edges: Vec<Edge>,
        commits: Table,
    ) -> Result<Self, NoMemory>
        requires commits { AreFirstCommits history.now (length history.now) (entry_of commits) }
        requires edges { (k : ℕ) (e : Edge) → slice_get edges.items k ≡ Some e → IsEdgeBy history.now e }
        ensures waits { IfOk result KnowsWaits }
        ensures ready { IfOk result AllReady }
        ensures watched { IfOk result AllWatched }
        ensures wait { IfOk result AllWait }
        ensures edges { IfOk result (λ w. w.edges ≡ edges) }
        ensures left { IfOk result (λ w. w.left ≡ commits) }
    {
        let incoming = EdgeChains::by_end(alloc, edges.as_slice(), EdgeEnd::To, history.len())?;
        let mut waits = Waits {
            edges,
            left: commits,
            incoming,
            watched: Watched::new(alloc, history.len()),
            ready: BTreeMap::new(alloc),
        };
        for place in 0..history.len() {
            let operation = history[place];
            if operation.action == Action::Commit {
                waits.update(operation.transaction)?;
            }
        }
        Ok(waits)
    }

    /// A serial order of the transactions of the history, or a cycle if some of them wait for ever.
    fn sort(&mut self, alloc: Global, history: &[Operation]) -> Result<Serializability, NoMemory>
        requires waits { KnowsWaits self.old }
        requires ready { AllReady self.old }
        requires watched { AllWatched self.old }
        requires wait { AllWait self.old }
        requires edges { ReachAll history.now self.old.edges.items }
        requires left { AreFirstCommits history.now (length history.now) (entry_of self.old.left) }
        ensures shown { IfOk result (IsShown history.now) }
        ensures acyclic { IfOk result (λ shown. IsSerial shown ↔ IsAcyclic history.now) }
    {
        let mut order = Vec::new(alloc);
        while let Some(transaction) = self.take_first()? {
            order.push(transaction)?;
        }
        match self.first_left(history) {
            Some(transaction) => Ok(Serializability::Cycle(self.cycle(alloc, transaction)?)),
            None => Ok(Serializability::Serial(order)),
        }
    }

    /// Removes the transaction that committed first of those that wait for none.
    fn take_first(&mut self) -> Result<Option<u32>, NoMemory>
        requires waits { KnowsWaits self.old }
        requires ready { AllReady self.old }
        requires watched { AllWatched self.old }
        requires wait { AllWait self.old }
        ensures waits { OnOk result (KnowsWaits self.new) }
        ensures ready { OnOk result (AllReady self.new) }
        ensures watched { OnOk result (AllWatched self.new) }
        ensures wait { OnOk result (AllWait self.new) }
        ensures edges { OnOk result (self.new.edges ≡ self.old.edges) }
        ensures first { IfOk result (λ taken. IfSome taken (IsFirstFree self.old.edges.items (entry_of self.old.left))) }
        ensures taken { IfOk result (λ taken. IfSome taken (λ t. entry_of self.new.left t ≡ None)) }
        ensures others { IfOk result (λ taken. IfSome taken (λ t. AreSameBut t (entry_of self.old.left) (entry_of self.new.left))) }
        ensures fewer { IfOk result (λ taken. IfSome taken (λ _. table_len self.new.left < table_len self.old.left)) }
        ensures none { IfOk result (λ taken. IsNone taken → self.new.left ≡ self.old.left) }
        ensures all_wait { IfOk result (λ taken. IsNone taken → AllLeftWait self.new) }
    {
        let Some((_, transaction)) = self.ready.pop_first() else {
            return Ok(None);
        };
        self.left.remove(transaction);
        self.release(transaction)?;
        Ok(Some(transaction))
    }

    /// Makes those that have waited for the transaction wait for another.
    fn release(&mut self, transaction: u32) -> Result<(), NoMemory>
        requires waits { KnowsWaits self.old }
        requires ready { AllReady self.old }
        requires watched { AllWatched self.old }
        requires wait { AllWaitBut self.old transaction (length self.old.watched.edges.items) }
        ensures waits { OnOk result (KnowsWaits self.new) }
        ensures ready { OnOk result (AllReady self.new) }
        ensures watched { OnOk result (AllWatched self.new) }
        ensures wait { OnOk result (AllWait self.new) }
        ensures edges { OnOk result (self.new.edges ≡ self.old.edges) }
        ensures left { OnOk result (self.new.left ≡ self.old.left) }
    {
        let mut next = self.watched.last_edge(transaction);
        while let Some(edge) = next {
            let to = self.watched.edges[edge].to;
            self.update(to)?;
            next = self.watched.edge_before(edge);
        }
        Ok(())
    }

    /// Finds what the transaction waits for now, if it is not in the order.
    fn update(&mut self, transaction: u32) -> Result<(), NoMemory>
        requires { KnowsWaits self.old }
        ensures waits { OnOk result (KnowsWaits self.new) }
        ensures edges { OnOk result (self.new.edges ≡ self.old.edges) }
        ensures left { OnOk result (self.new.left ≡ self.old.left) }
        ensures others { OnOk result (AreSameBut transaction (entry_of self.old.incoming.tops) (entry_of self.new.incoming.tops)) }
        ensures others_ready { OnOk result ((c u : ℕ) → get nat_cmp self.old.ready c ≡ Some u → get nat_cmp self.new.ready c ≡ Some u) }
        ensures kept { OnOk result ((k : ℕ) (e : Edge) → slice_get self.old.watched.edges.items k ≡ Some e
            → slice_get self.new.watched.edges.items k ≡ Some e) }
        ensures ready { OnOk result (IsReady self.new transaction) }
        ensures watched { OnOk result (IsWatched self.new transaction) }
        ensures wait { OnOk result (WaitsForLeft self.new transaction) }
    {
        let Some(commit) = self.left.find(transaction) else {
            return Ok(());
        };
        let top = self.awaited(transaction);
        self.incoming.begin_with(transaction, top)?;
        match top {
            Some(edge) => self.watched.add(self.edges[edge])?,
            None => {
                self.ready.insert(commit, transaction)?;
            }
        }
        Ok(())
    }

    /// The last edge to the transaction from one that is not in the order yet.
    fn awaited(&self, transaction: u32) -> Option<usize>
        requires { KnowsWaits self.now }
        ensures top { IsTopEdge self.now.edges.items (entry_of self.now.left) transaction result }
        ensures left { IfSome result (LeadsFromLeft self.now) }
        ensures stays { entry_of self.now.incoming.tops transaction ≡ None → result ≡ None }
    {
        let mut top = self.incoming.last_edge(transaction);
        while let Some(edge) = top {
            if self.left.contains_key(self.edges[edge].from) {
                return top;
            }
            top = self.incoming.edge_before(edge);
        }
        None
    }

    /// A transaction that is not in the order yet.
    fn first_left(&self, history: &[Operation]) -> Option<u32>
        requires { (t c : ℕ) → entry_of self.now.left t ≡ Some c → Does history.now c t Commit }
        ensures some { IfSome result (λ t. IsSome (entry_of self.now.left t)) }
        ensures none { IsNone result → (t : ℕ) → entry_of self.now.left t ≡ None }
    {
        for place in 0..history.len() {
            let transaction = history[place].transaction;
            if self.left.contains_key(transaction) {
                return Some(transaction);
            }
        }
        None
    }

    /// A cycle, if all transactions that are not in the order wait for another. It is searched from the given one.
    fn cycle(&mut self, alloc: Global, start: u32) -> Result<Vec<Edge>, NoMemory>
        requires waits { KnowsWaits self.old }
        requires wait { AllWait self.old }
        requires all_wait { AllLeftWait self.old }
        requires start { IsSome (entry_of self.old.left start) }
        ensures { IfOk result (λ cycle. IsCycleOf self.old.edges.items cycle.items) }
    {
        cycle_back(alloc, self.edges.as_slice(), &mut self.incoming, start)
    }
}
