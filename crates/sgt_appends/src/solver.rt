//! A serial order of a history whose reads have no fault, or a cycle, in time about linear in its size: n log n.
ghost use Rattle.std.specs.Prelude.{IfOk, IfErr, OnOk};
ghost use Rattle.sgt_appends.specs.Runs.{IsSerialRun};
ghost use Rattle.sgt_appends.specs.Precedences.{AppendsOnce};
ghost use Rattle.sgt_appends.specs.Orders.{AllClean, UnknownOnlyAppend};
ghost use Rattle.sgt_appends.specs.Indexes.{position_of, IsIndex};
ghost use Rattle.sgt_appends.specs.Tables.{AreNotAborted, IsNodeAdded};
ghost use Rattle.sgt_appends.specs.Witnesses.{IsEdgeCycle};

use crate::append_index::AppendIndex;
use crate::edges::edges_of;
use crate::graph::links_of;
use crate::lines::Lines;
use crate::search::Graph;
use crate::short::shorten;
use crate::sorting::sort;
use crate::transaction::{Status, Transaction};
use crate::witness::Edge;
use sgt_model::NoMemory;
use std::alloc::Global;

/// An order that is a serial run, or a cycle of precedences.
pub fn solve(
    alloc: Global,
    history: &[Transaction],
    appends: &AppendIndex,
) -> Result<Result<Vec<usize>, Vec<Edge>>, NoMemory>
    requires index { IsIndex history.now (position_of appends.now) }
    requires once { AppendsOnce history.now }
    requires unknown { UnknownOnlyAppend history.now }
    requires clean { AllClean history.now }
    ensures order { IfOk result (λ found. IfOk found (λ order. IsSerialRun history.now order.items)) }
    ensures cycle { IfOk result (λ found. IfErr found (λ edges. IsEdgeCycle history.now edges.items)) }
{
    let lines = Lines::of_history(alloc, history)?;
    let Some(nodes) = history.len().checked_add(lines.len()) else {
        return Err(NoMemory);
    };
    let links = links_of(alloc, history, appends, &lines)?;
    match sort(alloc, links.as_slice(), nodes)? {
        Ok(sorted) => Ok(Ok(not_aborted(alloc, history, sorted.order.as_slice())?)),
        Err(cycle) => {
            let edges = edges_of(alloc, history, cycle.as_slice())?;
            let ends = history.len();
            let graph = Graph { links, ends, nodes };
            let short = shorten(alloc, history, &graph, edges)?;
            Ok(Err(short))
        }
    }
}

/// The transactions among the nodes, without the aborted ones.
pub(crate) fn not_aborted(
    alloc: Global,
    history: &[Transaction],
    nodes: &[usize],
) -> Result<Vec<usize>, NoMemory>
    ensures { IfOk result (λ order. AreNotAborted history.now nodes.now order.items) }
{
    let mut order = Vec::new(alloc);
    for node in nodes {
        add_node(&mut order, history, *node)?;
    }
    Ok(order)
}

/// Adds the node, if it is a transaction that is not aborted.
fn add_node(order: &mut Vec<usize>, history: &[Transaction], node: usize) -> Result<(), NoMemory>
    ensures { OnOk result (IsNodeAdded history.now order.old.items order.new.items node) }
{
    let Some(transaction) = history.get(node) else {
        return Ok(());
    };
    if transaction.status == Status::Aborted {
        return Ok(());
    }
    order.push(node)?;
    Ok(())
}
