//! A cycle of the serialization graph.
ghost use Rattle.std.specs.Prelude.{◌≡◌, ℕ, List, Some, slice_get, IsSome, IfOk};
ghost use Rattle.sgt_classes.specs.declared.operation.Operation.{Operation};
ghost use Rattle.sgt_classes.specs.declared.graph.Edge.{Edge};
ghost use Rattle.sgt_classes.specs.Serializability.{IsCycle, IsEdgeBy};
ghost use Rattle.sgt_classes.specs.Tables.{entry_of};
ghost use Rattle.sgt_classes.specs.Sorting.{LeadBack, IsPathBack, Passes, AreAmong, IsCycleOf};

use crate::chains::EdgeChains;
use crate::graph::Edge;
use sgt_model::NoMemory;
use std::alloc::Global;

/// A cycle of edges, searched backward from the given edge. Each transaction that a chosen edge leads from must have
/// a chosen edge that leads to it.
///
/// Each edge is visited at most twice.
pub fn cycle_back(
    alloc: Global,
    edges: &[Edge],
    incoming: &mut EdgeChains,
    start: u32,
) -> Result<Vec<Edge>, NoMemory>
    requires back { LeadBack edges.now (entry_of incoming.old.tops) }
    requires start { IsSome (entry_of incoming.old.tops start) }
    ensures { IfOk result (λ cycle. IsCycleOf edges.now cycle.items) }
{
    let (path, met) = path_back(alloc, edges, incoming, start)?;
    closed_path(alloc, path.as_slice(), met)
}

/// The edges on the backward path from the transaction until one is met again, and that one.
fn path_back(
    alloc: Global,
    edges: &[Edge],
    incoming: &mut EdgeChains,
    start: u32,
) -> Result<(Vec<Edge>, u32), NoMemory>
    requires back { LeadBack edges.now (entry_of incoming.old.tops) }
    requires start { IsSome (entry_of incoming.old.tops start) }
    ensures among { IfOk result (λ r. AreAmong r.0.items edges.now) }
    ensures path { IfOk result (λ r. IsPathBack r.0.items r.1) }
    ensures met { IfOk result (λ r. Passes r.0.items r.1) }
{
    let mut path = Vec::new(alloc);
    let mut transaction = start;
    while let Some(place) = incoming.take(transaction) {
        let edge = edges[place];
        path.push(edge)?;
        transaction = edge.from;
    }
    Ok((path, transaction))
}

/// The edges of the path from its end until the transaction that it has met again.
fn closed_path(alloc: Global, path: &[Edge], met: u32) -> Result<Vec<Edge>, NoMemory>
    requires path { IsPathBack path.now met }
    requires met { Passes path.now met }
    ensures { IfOk result (λ cycle. IsCycleOf path.now cycle.items) }
{
    let mut cycle = Vec::new(alloc);
    for passed in 0..path.len() {
        let edge = path[path.len() - 1 - passed];
        cycle.push(edge)?;
        if edge.to == met {
            return Ok(cycle);
        }
    }
    unreachable!()
}
