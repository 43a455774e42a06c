//! A search for a serial order in which some transactions come after others, as real time asks.
//!
//! It promises nothing: what it finds is to be tested. Barriers are nodes of the graph, after the transactions and before
//! the ends of the lines. Each comes after some transactions and before others, so few links order many pairs.
ghost use Rattle.sgt_appends.specs.Precedences.{AppendsOnce};
ghost use Rattle.sgt_appends.specs.Orders.{AllClean};
ghost use Rattle.sgt_appends.specs.Indexes.{position_of, IsIndex};

use crate::append_index::AppendIndex;
use crate::compatible::first_incompatible;
use crate::graph::links_of;
use crate::lines::Lines;
use crate::merge::merged;
use crate::premises::unknown_read;
use crate::reads::first_fault;
use crate::search::{Graph, edges_along, short_cycle};
use crate::solver::not_aborted;
use crate::sorting::{Link, sort_within};
use crate::transaction::Transaction;
use crate::witness::{Edge, Reason, is_shown};
use sgt_model::NoMemory;
use std::alloc::Global;

/// Which transactions come before others. A number after those of the transactions is that of a barrier, which comes
/// after some and before others.
#[derive(Clone, Copy)]
pub struct Before<'a> {
    /// The first of each pair comes before the second.
    pub pairs: &'a [(usize, usize)],
    /// How many barriers there are.
    pub barriers: usize,
}

/// What the search found. It is to be tested.
#[derive(Drop)]
pub enum Proposal {
    /// A serial order that keeps the pairs.
    Order(Vec<usize>),
    /// A cycle of what was observed and of the pairs. An edge from or to a barrier is of the pairs.
    Cycle(Vec<Edge>),
    /// Neither: `check_appends` says what is wrong with the history.
    Nothing,
}

/// A serial order that keeps the pairs, or a cycle that leaves none.
pub fn propose(
    alloc: Global,
    history: &[Transaction],
    before: Before<'_>,
) -> Result<Proposal, NoMemory> {
    let Some(graph) = graph_of(alloc, history, before)? else {
        return Ok(Proposal::Nothing);
    };
    match sort_within(alloc, graph.links.as_slice(), graph.nodes)? {
        Some(Ok(sorted)) => Ok(Proposal::Order(not_aborted(
            alloc,
            history,
            sorted.order.as_slice(),
        )?)),
        Some(Err(cycle)) => cycle_proposal(alloc, history, &graph, cycle.as_slice()),
        None => Ok(Proposal::Nothing),
    }
}

/// The graph of the history and the pairs, unless a read has a fault by itself or the history cannot be judged.
fn graph_of(
    alloc: Global,
    history: &[Transaction],
    before: Before<'_>,
) -> Result<Option<Graph>, NoMemory> {
    let Some(appends) = AppendIndex::of_history(alloc, history)? else {
        return Ok(None);
    };
    if unknown_read(history).is_some() {
        return Ok(None);
    }
    match first_fault(alloc, history, &appends)? {
        Some(_) => Ok(None),
        None => ordered_graph(alloc, history, &appends, before),
    }
}

/// The graph of the history, whose reads have no fault, and of the pairs, unless it has too many nodes.
fn ordered_graph(
    alloc: Global,
    history: &[Transaction],
    appends: &AppendIndex,
    before: Before<'_>,
) -> Result<Option<Graph>, NoMemory>
    requires index { IsIndex history.now (position_of appends.now) }
    requires once { AppendsOnce history.now }
    requires clean { AllClean history.now }
{
    let lines = Lines::of_history(alloc, history)?;
    let Some(nodes) = history.len().checked_add(lines.len()) else {
        return Ok(None);
    };
    let mut links = links_of(alloc, history, appends, &lines)?;
    for link in links.iter_mut() {
        link.from = shifted(link.from, history.len(), before.barriers);
        link.to = shifted(link.to, history.len(), before.barriers);
    }
    for (from, to) in before.pairs {
        links.push(Link {
            from: *from,
            to: *to,
            reason: paired(),
        })?;
    }
    Ok(Some(Graph {
        links,
        ends: history.len().saturating_add(before.barriers),
        nodes: nodes.saturating_add(before.barriers),
    }))
}

/// The node, or if it is the end of a line, that after this many barriers.
fn shifted(node: usize, transactions: usize, barriers: usize) -> usize {
    if node < transactions {
        node
    } else {
        node.saturating_add(barriers)
    }
}

/// The reason of a link of a pair: it names no operation.
fn paired() -> Reason {
    Reason::Seen {
        append: usize::MAX,
        read: usize::MAX,
    }
}

/// The cycle as edges, from its first link on that begins at no end of a line, or a shorter one. Nothing, if two reads
/// contradict one another.
fn cycle_proposal(
    alloc: Global,
    history: &[Transaction],
    graph: &Graph,
    cycle: &[Link],
) -> Result<Proposal, NoMemory> {
    if first_incompatible(alloc, history)?.is_some() {
        return Ok(Proposal::Nothing);
    }
    let edges = match cycle {
        [first, rest @ ..] if first.from >= graph.ends => {
            let mut turned = Vec::from_slice(alloc, rest)?;
            turned.push(*first)?;
            edges_along(alloc, graph.ends, turned.as_slice())?
        }
        _ => edges_along(alloc, graph.ends, cycle)?,
    };
    let known = merged(alloc, history, edges.as_slice())?;
    let known = shorter_of(history, edges, known);
    let found = short_cycle(alloc, history, graph, known.as_slice())?;
    Ok(Proposal::Cycle(shorter_of(history, known, found)))
}

/// The other cycle, if it is shorter and what was observed shows it, or else this one.
fn shorter_of(history: &[Transaction], cycle: Vec<Edge>, other: Vec<Edge>) -> Vec<Edge> {
    if !other.is_empty() && other.len() < cycle.len() && are_shown(history, other.as_slice()) {
        other
    } else {
        cycle
    }
}

/// Whether what was observed shows each edge between transactions.
fn are_shown(history: &[Transaction], edges: &[Edge]) -> bool {
    edges.iter().all(|edge| {
        edge.from >= history.len() || edge.to >= history.len() || is_shown(history, edge)
    })
}
