//! Edges by their ends.
ghost use Rattle.std.specs.Prelude.{◌≡◌, ◌≢◌, ◌<◌, ◌+◌, ℕ, List, None, length, IfOk, OnOk, IfSome};
ghost use Rattle.sgt_classes.specs.declared.graph.Edge.{Edge};
ghost use Rattle.sgt_classes.specs.Links.{link_of};
ghost use Rattle.sgt_classes.specs.Tables.{entry_of, table_len};
ghost use Rattle.sgt_classes.specs.Sorting.{end_of, AreChains};

use crate::avoiding::{put_on_top, set_top};
use crate::graph::Edge;
use crate::links::Links;
use crate::table::Table;
use sgt_model::NoMemory;
use std::alloc::Global;

/// An end of an edge.
#[derive(Clone, Copy)]
pub enum EdgeEnd {
    /// The transaction that it leads from.
    From,
    /// The transaction that it leads to.
    To,
}

impl EdgeEnd {
    /// The transaction at this end of the edge.
    fn of(&self, edge: Edge) -> u32
        ensures { result ≡ end_of self.now edge }
    {
        match self {
            EdgeEnd::From => edge.from,
            EdgeEnd::To => edge.to,
        }
    }
}

/// Edges by the transaction at one of their ends, for each transaction from last to first. An edge is its position in
/// a list.
#[derive(Drop)]
pub struct EdgeChains {
    /// The last edge of a transaction.
    tops: Table,
    /// For an edge, the next earlier one of the same transaction.
    below: Links,
}

impl EdgeChains {
    /// No edges. Those of transactions below the bound are found by index.
    pub fn new(alloc: Global, bound: usize) -> Self
        ensures { (end : EdgeEnd) (edges : List Edge) → AreChains end edges 0 (entry_of result.tops) (link_of result.below) }
    {
        EdgeChains {
            tops: Table::new(alloc, bound),
            below: Links::new(alloc),
        }
    }

    /// All edges, by one of their ends. Those of transactions below the bound are found by index.
    pub fn by_end(
        alloc: Global,
        edges: &[Edge],
        end: EdgeEnd,
        bound: usize,
    ) -> Result<Self, NoMemory>
        ensures { IfOk result (λ c. AreChains end edges.now (length edges.now) (entry_of c.tops) (link_of c.below)) }
    {
        let mut chains = EdgeChains::new(alloc, bound);
        for place in 0..edges.len() {
            chains.add(edges, place, end)?;
        }
        Ok(chains)
    }

    /// Adds the edge at the position after those before it.
    pub fn add(&mut self, edges: &[Edge], place: usize, end: EdgeEnd) -> Result<(), NoMemory>
        requires within { place < length edges.now }
        requires before { AreChains end edges.now place (entry_of self.old.tops) (link_of self.old.below) }
        ensures { OnOk result (AreChains end edges.now (place + 1) (entry_of self.new.tops) (link_of self.new.below)) }
    {
        let transaction = end.of(edges[place]);
        put_on_top(&mut self.tops, &mut self.below, transaction, place)?;
        Ok(())
    }

    /// The last edge of the transaction.
    pub fn last_edge(&self, transaction: u32) -> Option<usize>
        ensures { result ≡ entry_of self.now.tops transaction }
    {
        self.tops.find(transaction)
    }

    /// The next earlier edge of the same transaction.
    pub fn edge_before(&self, edge: usize) -> Option<usize>
        ensures { result ≡ link_of self.now.below edge }
    {
        self.below.get(edge)
    }

    /// Sets the last edge of the transaction.
    pub fn begin_with(&mut self, transaction: u32, edge: Option<usize>) -> Result<(), NoMemory>
        ensures at { OnOk result (entry_of self.new.tops transaction ≡ edge) }
        ensures others { OnOk result ((u : ℕ) → u ≢ transaction → entry_of self.new.tops u ≡ entry_of self.old.tops u) }
        ensures below { OnOk result (self.new.below ≡ self.old.below) }
    {
        set_top(&mut self.tops, transaction, edge)
    }

    /// Removes the transaction's edges, and returns the last one.
    pub fn take(&mut self, transaction: u32) -> Option<usize>
        ensures edge { result ≡ entry_of self.old.tops transaction }
        ensures at { entry_of self.new.tops transaction ≡ None }
        ensures others { (u : ℕ) → u ≢ transaction → entry_of self.new.tops u ≡ entry_of self.old.tops u }
        ensures fewer { IfSome result (λ _. table_len self.new.tops < table_len self.old.tops) }
    {
        self.tops.remove(transaction)
    }
}
