//! The check that keeps real time: who ended before another began has to come first.
//!
//! What the search between barriers finds is tested on what clients saw, and on when they saw it.
ghost use Rattle.std.specs.Prelude.{◌≡◌, ◌≢◌, ◌<◌, ◌≤◌, ℕ, List, true, false, IsTrue, IfOk, IfSome, Some};
ghost use Rattle.sgt_appends.specs.declared.transaction.Transaction.{Transaction};
ghost use Rattle.sgt_appends.specs.declared.transaction.Status.TheVariants.{Committed};
ghost use Rattle.sgt_appends.specs.Precedences.{AppendsOnce};
ghost use Rattle.sgt_appends.specs.Runs.{Ended};
ghost use Rattle.sgt_clients.specs.declared.clients.Span.{Span};
ghost use Rattle.sgt_clients.specs.Findings.{EndedBefore, KeepsTime, HasOrder, Shows, IsFound};
ghost use Rattle.sgt_clients.specs.Times.{ComesAfter};

use crate::barriers::pairs_in_time;
use crate::clients::{Clients, Span};
use crate::fault::ClientsFault;
use crate::finding::{Finding, check_clients};
use crate::names::cycle_name;
use sgt_appends::{
    Edge, Proposal, Status, Transaction, Witness, all_hold, appends_once, is_serial_run, name_of,
    propose,
};
use sgt_levels::{Ground, Passage};
use sgt_model::NoMemory;
use std::alloc::Global;

/// Checks what clients saw, and keeps real time.
///
/// # Errors
///
/// As `check_clients`.
pub fn check_strictly(alloc: Global, clients: &Clients) -> Result<Finding, ClientsFault>
    ensures { IfOk result (IsFound true clients.now.transactions.items clients.now.spans.items) }
{
    match proposal_of(alloc, clients)? {
        Proposal::Order(order) => serial_finding(alloc, clients, order),
        Proposal::Cycle(edges) if has_barrier(clients, edges.as_slice()) => {
            cycle_finding(
                alloc,
                clients.transactions.as_slice(),
                clients.spans.as_slice(),
                edges.as_slice(),
            )
        }
        _ => violated(check_clients(alloc, clients)?),
    }
}

/// A serial order that keeps real time, or a cycle that leaves none. It is to be tested.
fn proposal_of(alloc: Global, clients: &Clients) -> Result<Proposal, NoMemory> {
    let pairs = pairs_in_time(alloc, clients)?;
    propose(alloc, clients.transactions.as_slice(), pairs.all())
}

/// The finding, unless it is an order.
#[tactic(auto, using(crate::proofs::RealTime::not_strictly))]
fn violated(finding: Finding) -> Result<Finding, ClientsFault>
    ensures { (h : List Transaction) (spans : List Span) → IsFound false h spans finding → IfOk result (IsFound true h spans) }
{
    match finding {
        Finding::Serial(_) => Err(ClientsFault::Undecided),
        other => Ok(other),
    }
}

/// Whether an edge leads to a barrier.
fn has_barrier(clients: &Clients, edges: &[Edge]) -> bool {
    let number = clients.transactions.len();
    edges.iter().any(|edge| edge.to >= number)
}

/// The finding of a serial order.
fn serial_finding(
    alloc: Global,
    clients: &Clients,
    order: Vec<usize>,
) -> Result<Finding, ClientsFault>
    ensures { IfOk result (IsFound true clients.now.transactions.items clients.now.spans.items) }
{
    if keeps_time(clients.spans.as_slice(), order.as_slice())
        && is_serial_run(alloc, clients.transactions.as_slice(), order.as_slice())?
    {
        Ok(Finding::Serial(order))
    } else {
        Err(ClientsFault::Undecided)
    }
}

/// Whether each transaction of the order ends after all that stand before it, and itself, began.
fn keeps_time(spans: &[Span], order: &[usize]) -> bool
    ensures { IsTrue result → KeepsTime spans.now order.now }
{
    let mut latest = 0;
    for number in order {
        let Some(later) = latest_after(spans, *number, latest) else {
            return false;
        };
        latest = later;
    }
    true
}

/// When the last of those before and of the transaction began, if it did not end before.
fn latest_after(spans: &[Span], number: usize, latest: usize) -> Option<usize>
    ensures { IfSome result (ComesAfter spans.now number latest) }
{
    let span = spans.get(number)?;
    let later = latest.max(span.began);
    match span.ended {
        Some(ended) if ended < later => None,
        _ => Some(later),
    }
}

/// The finding of a cycle. What leads through barriers is a step of real time.
fn cycle_finding(
    alloc: Global,
    history: &[Transaction],
    spans: &[Span],
    edges: &[Edge],
) -> Result<Finding, ClientsFault>
    ensures { IfOk result (IsFound true history.now spans.now) }
{
    let steps = steps_of(alloc, edges, history.len())?;
    if !appends_once(alloc, history)? {
        return Err(ClientsFault::Undecided);
    }
    if !leads_back(history, spans, steps.as_slice()) {
        return Err(ClientsFault::Undecided);
    }
    let witness = Witness::Cycle(observed_of(alloc, edges, history.len())?);
    let name = cycle_name(name_of(&witness), steps.as_slice());
    Ok(Finding::Cycle(steps, name))
}

/// The edges between transactions of the clients.
fn observed_of(alloc: Global, edges: &[Edge], number: usize) -> Result<Vec<Edge>, NoMemory> {
    let observed = edges
        .iter()
        .copied()
        .filter(|edge| edge.from < number && edge.to < number);
    Ok(observed.collect(alloc)?)
}

/// The steps between transactions of the clients, each from the one that was left last. One from a barrier has no ground.
fn steps_of(alloc: Global, edges: &[Edge], number: usize) -> Result<Vec<Passage>, NoMemory> {
    let mut steps = Vec::with_capacity(alloc, edges.len())?;
    let mut left = edges
        .iter()
        .rev()
        .find(|edge| edge.from < number)
        .map_or(0, |edge| edge.from);
    for edge in edges {
        let is_observed = edge.from < number;
        if is_observed {
            left = edge.from;
        }
        if edge.to < number {
            steps.push(Passage {
                from: left,
                to: edge.to,
                why: is_observed.then_some(Ground::Observed(edge.reason)),
            })?;
        }
    }
    Ok(steps)
}

/// Whether the steps are a cycle, and each holds.
fn leads_back(history: &[Transaction], spans: &[Span], steps: &[Passage]) -> bool
    ensures { IsTrue result → AppendsOnce history.now → ¬ HasOrder true history.now spans.now }
{
    if steps.is_empty() {
        return false;
    }
    let start = steps[0].from;
    let mut at = start;
    for step in steps {
        if step.from != at || !holds(history, spans, step) {
            return false;
        }
        at = step.to;
    }
    at == start
}

/// Whether what was observed, or real time, shows the step.
fn holds(history: &[Transaction], spans: &[Span], step: &Passage) -> bool
    ensures { IsTrue result → Shows history.now spans.now step.now.from step.now.to step.now.why }
{
    match step.why {
        Some(Ground::Observed(reason)) => all_hold(
            history,
            &[Edge {
                from: step.from,
                to: step.to,
                reason,
            }],
        ),
        Some(_) => false,
        None => {
            step.from != step.to
                && is_committed(history, step.from)
                && ended_before(spans, step.from, step.to)
        }
    }
}

/// Whether the transaction committed.
pub(crate) fn is_committed(history: &[Transaction], number: usize) -> bool
    ensures { IsTrue result → Ended history.now number Committed }
{
    match history.get(number) {
        Some(transaction) => transaction.status == Status::Committed,
        None => false,
    }
}

/// Whether the first transaction ended before the second began.
pub(crate) fn ended_before(spans: &[Span], first: usize, second: usize) -> bool
    ensures { IsTrue result → EndedBefore spans.now first second }
{
    let (Some(first), Some(second)) = (spans.get(first), spans.get(second)) else {
        return false;
    };
    match first.ended {
        Some(ended) => ended < second.began,
        None => false,
    }
}
