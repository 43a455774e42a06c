//! The edges between transactions that a cycle of links implies.
ghost use Rattle.std.specs.Prelude.{◌≡◌, ◌<◌, ◌++◌, IfOk, length};
ghost use Rattle.std.proofs.Common.{take, drop};
ghost use Rattle.sgt_appends.specs.Witnesses.{IsEdgeCycle};
ghost use Rattle.sgt_appends.specs.Turns.{edge_after, read_in, append_in, MakeEdges, IsLoop, IsLoopBelow, IsEdgeAdded};

use crate::sorting::Link;
use crate::transaction::Transaction;
use crate::witness::{Edge, Reason};
use sgt_model::NoMemory;
use std::alloc::Global;

/// The edges of the cycle. Two links through the end of a line make one edge.
pub fn edges_of(
    alloc: Global,
    history: &[Transaction],
    cycle: &[Link],
) -> Result<Vec<Edge>, NoMemory>
    requires round { IsLoop cycle.now }
    requires edges { MakeEdges history.now cycle.now }
    ensures { IfOk result (λ edges. IsEdgeCycle history.now edges.items) }
{
    if cycle[0].from < history.len() {
        return edges_along(alloc, history, cycle);
    }
    let turned = turned(alloc, cycle)?;
    edges_along(alloc, history, turned.as_slice())
}

/// The same cycle, from its second link on.
fn turned(alloc: Global, cycle: &[Link]) -> Result<Vec<Link>, NoMemory>
    requires { 0 < length cycle.now }
    ensures { IfOk result (λ turned. turned.items ≡ drop 1 cycle.now ++ take 1 cycle.now) }
{
    let mut turned = Vec::from_slice(alloc, &cycle[1..])?;
    turned.extend_from_slice(&cycle[..1])?;
    Ok(turned)
}

/// The edges of a cycle that begins at a transaction.
fn edges_along(
    alloc: Global,
    history: &[Transaction],
    cycle: &[Link],
) -> Result<Vec<Edge>, NoMemory>
    requires round { IsLoopBelow (length history.now) cycle.now }
    requires edges { MakeEdges history.now cycle.now }
    ensures { IfOk result (λ edges. IsEdgeCycle history.now edges.items) }
{
    let mut edges = Vec::new(alloc);
    let mut before = None;
    for link in cycle {
        before = add_edge(&mut edges, history.len(), before, *link)?;
    }
    Ok(edges)
}

/// Adds the edge of the link and of the one that waits. A link that leads to the end of a line waits for the next one.
pub(crate) fn add_edge(
    edges: &mut Vec<Edge>,
    transactions: usize,
    before: Option<Link>,
    link: Link,
) -> Result<Option<Link>, NoMemory>
    ensures { IfOk result (IsEdgeAdded transactions edges.old.items edges.new.items before link) }
{
    if link.to >= transactions {
        return Ok(Some(link));
    }
    edges.push(edge_of(before, link))?;
    Ok(None)
}

/// The edge of the link, from where the one that waits begins.
fn edge_of(before: Option<Link>, link: Link) -> Edge
    ensures { result ≡ edge_after before link }
{
    match before {
        Some(first) => Edge {
            from: first.from,
            to: link.to,
            reason: Reason::Missed {
                read: read_of_reason(first.reason),
                append: append_of_reason(link.reason),
            },
        },
        None => Edge {
            from: link.from,
            to: link.to,
            reason: link.reason,
        },
    }
}

/// The position of the reason's read.
fn read_of_reason(reason: Reason) -> usize
    ensures { result ≡ read_in reason }
{
    match reason {
        Reason::Seen { read, .. } => read,
        Reason::Missed { read, .. } => read,
        Reason::InOrder { read, .. } => read,
    }
}

/// The position of the reason's later append.
fn append_of_reason(reason: Reason) -> usize
    ensures { result ≡ append_in reason }
{
    match reason {
        Reason::Seen { append, .. } => append,
        Reason::Missed { append, .. } => append,
        Reason::InOrder { second, .. } => second,
    }
}
