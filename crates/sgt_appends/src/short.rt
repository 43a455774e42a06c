//! Short cycles.
//!
//! The search promises nothing: it tries cycles within a bound of work. What it finds is tested, and stands in place of
//! the cycle that is known only if it is shorter and holds.
ghost use Rattle.std.specs.Prelude.{◌≤◌, length, IfOk};
ghost use Rattle.sgt_appends.specs.Witnesses.{IsEdgeCycle};

use crate::merge::merged;
use crate::search::{Graph, short_cycle};
use crate::transaction::Transaction;
use crate::witness::{Edge, is_shown_cycle};
use sgt_model::NoMemory;
use std::alloc::Global;

/// A cycle that is no longer than this one, and often shorter.
pub(crate) fn shorten(
    alloc: Global,
    history: &[Transaction],
    graph: &Graph,
    cycle: Vec<Edge>,
) -> Result<Vec<Edge>, NoMemory>
    requires { IsEdgeCycle history.now cycle.items }
    ensures cycle { IfOk result (λ short. IsEdgeCycle history.now short.items) }
    ensures no_longer { IfOk result (λ short. length short.items ≤ length cycle.items) }
{
    let known = merged(alloc, history, cycle.as_slice())?;
    let known = shorter_of(history, cycle, known);
    let found = short_cycle(alloc, history, graph, known.as_slice())?;
    Ok(shorter_of(history, known, found))
}

/// The other cycle, if it is shorter and holds, or else this one.
fn shorter_of(history: &[Transaction], cycle: Vec<Edge>, other: Vec<Edge>) -> Vec<Edge>
    requires { IsEdgeCycle history.now cycle.items }
    ensures cycle { IsEdgeCycle history.now result.items }
    ensures no_longer { length result.items ≤ length cycle.items }
{
    if other.len() < cycle.len() && is_shown_cycle(history, other.as_slice()) {
        other
    } else {
        cycle
    }
}
