//! The answers of a graph about new edges.
use sgt_model::Tids;

/// What the graph says of new edges to a transaction.
#[derive(Drop, PartialEq)]
pub enum Verdict {
    /// They would close no cycle.
    Accepted,
    /// They would close a cycle: these, from the transaction to one of its new predecessors, and back by the new edge.
    Closes(Tids),
}

/// The positions of a transaction and its new predecessors in a graph, as a plan found them, so that linking needs no search.
/// Its content is for the graph that made it; a graph of lists needs none.
#[derive(Clone, Copy, Default)]
pub struct Link {
    pub to: u8,
    pub from: u32,
}

/// A verdict which, if it accepts, has the link that adds the edges.
#[derive(Drop)]
pub enum Plan {
    /// They would close no cycle.
    Free(Link),
    /// They would close a cycle: these, as in [`Verdict::Closes`].
    Closes(Tids),
}
