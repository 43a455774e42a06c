//! The edges because of which transactions wait.
ghost use Rattle.std.specs.Prelude.{◌≡◌, ◌++◌, ◌∷◌, [], OnOk};
ghost use Rattle.sgt_classes.specs.Links.{link_of};
ghost use Rattle.sgt_classes.specs.Tables.{entry_of};
ghost use Rattle.sgt_classes.specs.Sorting.{KnowsWatched};

use crate::chains::{EdgeChains, EdgeEnd};
use crate::graph::Edge;
use sgt_model::NoMemory;
use std::alloc::Global;

/// The edges because of which a transaction waits or has waited, in the order found, and by the transaction that they
/// lead from.
#[derive(Drop)]
pub struct Watched {
    /// The edges.
    pub edges: Vec<Edge>,
    /// The edges by the transaction that they lead from.
    outgoing: EdgeChains,
}

impl Watched {
    /// No edges. Those from transactions below the bound are found by index.
    pub fn new(alloc: Global, bound: usize) -> Self
        ensures knows { KnowsWatched result }
        ensures none { result.edges.items ≡ [] }
    {
        Watched {
            edges: Vec::new(alloc),
            outgoing: EdgeChains::new(alloc, bound),
        }
    }

    /// The last edge from the transaction.
    pub fn last_edge(&self, transaction: u32) -> Option<usize>
        ensures { result ≡ entry_of self.now.outgoing.tops transaction }
    {
        self.outgoing.last_edge(transaction)
    }

    /// The next earlier edge from the same transaction.
    pub fn edge_before(&self, edge: usize) -> Option<usize>
        ensures { result ≡ link_of self.now.outgoing.below edge }
    {
        self.outgoing.edge_before(edge)
    }

    /// Adds an edge.
    pub fn add(&mut self, edge: Edge) -> Result<(), NoMemory>
        requires { KnowsWatched self.old }
        ensures knows { OnOk result (KnowsWatched self.new) }
        ensures edges { OnOk result (self.new.edges.items ≡ self.old.edges.items ++ edge ∷ []) }
    {
        let place = self.edges.len();
        self.edges.push(edge)?;
        self.outgoing
            .add(self.edges.as_slice(), place, EdgeEnd::From)?;
        Ok(())
    }
}
