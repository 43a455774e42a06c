//! Strong and session snapshot isolation: snapshot runs that keep real time, or the order of each process.
//!
//! That a run is one of snapshots is proved. That it keeps the order, and that a cycle leaves none, is tested.

use crate::barriers::{pairs_in_time, pairs_of_processes, process_of};
use crate::clients::{Clients, Event, Span};
use crate::finding::{Finding, is_serial};
use crate::level_findings::Weaker;
use crate::names::breaks_strong;
use crate::strict::{ended_before, is_committed};
use sgt_levels::{Ordered, Passage, Snapshot, Snapshots, ordered_run};
use sgt_model::NoMemory;
use std::alloc::Global;
use std::collections::BTreeMap;

/// Whether there is a snapshot run that keeps an order, with the evidence.
#[derive(Drop)]
pub enum Kept {
    /// There is, since a stronger level holds.
    Implied,
    /// There is: an order of commits, and the start of each.
    Run(Snapshots),
    /// There is none, since there is no snapshot run.
    NotSnapshot,
    /// There is none: a cycle without two misses next to one another.
    Cycle(Vec<Passage>),
    /// Not decided.
    Open,
}

/// The answers for strong and session snapshot isolation.
#[derive(Drop)]
pub struct KeptOrders {
    /// A transaction begins after all have committed that had ended.
    pub strong: Kept,
    /// Whether there is no such run by the finding of strict serializability, which has no more steps.
    pub strong_above: bool,
    /// The same among the transactions of one process.
    pub session: Kept,
}

/// Which order a run keeps.
#[derive(Clone, Copy)]
enum Kind {
    RealTime,
    Process,
}

/// Which orders a snapshot run keeps, after what was found of strict serializability and of the weaker levels.
pub(crate) fn kept_orders(
    alloc: Global,
    clients: &Clients,
    finding: &Finding,
    weaker: &Option<Weaker>,
) -> Result<KeptOrders, NoMemory> {
    if is_serial(finding) {
        return Ok(KeptOrders {
            strong: Kept::Implied,
            strong_above: false,
            session: Kept::Implied,
        });
    }
    if weaker.as_ref().is_some_and(has_no_snapshots) {
        return Ok(KeptOrders {
            strong: Kept::NotSnapshot,
            strong_above: false,
            session: Kept::NotSnapshot,
        });
    }
    let strong = answer_for(alloc, clients, Kind::RealTime)?;
    let session = match &strong {
        Kept::Run(_) => Kept::Implied,
        _ => answer_for(alloc, clients, Kind::Process)?,
    };
    Ok(KeptOrders {
        strong_above: weaker.is_none() && breaks_strong(finding, &strong),
        strong,
        session,
    })
}

/// Whether there is certainly no snapshot run.
fn has_no_snapshots(weaker: &Weaker) -> bool {
    matches!(
        &weaker.levels.snapshot,
        Snapshot::NotCommitted | Snapshot::Cycle(_)
    )
}

/// Whether there is a snapshot run that keeps the order.
fn answer_for(alloc: Global, clients: &Clients, kind: Kind) -> Result<Kept, NoMemory> {
    let pairs = match kind {
        Kind::RealTime => pairs_in_time(alloc, clients)?,
        Kind::Process => pairs_of_processes(alloc, clients)?,
    };
    match ordered_run(alloc, clients.transactions.as_slice(), pairs.all())? {
        Ordered::Run(run) => {
            let is_kept = match kind {
                Kind::RealTime => keeps_time(alloc, clients.spans.as_slice(), &run)?,
                Kind::Process => keeps_processes(alloc, clients, &run)?,
            };
            Ok(if is_kept { Kept::Run(run) } else { Kept::Open })
        }
        Ordered::Cycle(passages) => {
            let merged = merged(alloc, passages.as_slice())?;
            Ok(if all_hold(clients, merged.as_slice(), kind) {
                Kept::Cycle(merged)
            } else {
                Kept::Open
            })
        }
        Ordered::Open => Ok(Kept::Open),
    }
}

/// The passages of a cycle, with those as one that follow one another without a ground.
fn merged(alloc: Global, passages: &[Passage]) -> Result<Vec<Passage>, NoMemory> {
    let mut merged: Vec<Passage> = Vec::with_capacity(alloc, passages.len())?;
    for passage in passages {
        match merged.last_mut() {
            Some(before) if before.why.is_none() && passage.why.is_none() => before.to = passage.to,
            _ => merged.push(*passage)?,
        }
    }
    Ok(merged)
}

/// Whether none that commits after the start of a transaction had ended when that began.
fn keeps_time(alloc: Global, spans: &[Span], run: &Snapshots) -> Result<bool, NoMemory> {
    let soonest = soonest_ends(alloc, spans, run.order.as_slice())?;
    for (place, number) in run.order.iter().enumerate() {
        let (Some(start), Some(span)) = (run.starts.get(place), spans.get(*number)) else {
            return Ok(false);
        };
        let from_there = soonest.len().saturating_sub(*start).saturating_sub(1);
        if !soonest
            .get(from_there)
            .is_some_and(|ended| *ended >= span.began)
        {
            return Ok(false);
        }
    }
    Ok(true)
}

/// For each place of the order, the last first, the soonest end of the transactions from there on.
fn soonest_ends(alloc: Global, spans: &[Span], order: &[usize]) -> Result<Vec<usize>, NoMemory> {
    let mut soonest = Vec::with_capacity(alloc, order.len())?;
    let mut least = usize::MAX;
    for number in order.iter().rev() {
        if let Some(span) = spans.get(*number) {
            least = least.min(span.ended.unwrap_or(usize::MAX));
        }
        soonest.push(least)?;
    }
    Ok(soonest)
}

/// Whether each transaction begins after those of its process have committed that had ended.
fn keeps_processes(alloc: Global, clients: &Clients, run: &Snapshots) -> Result<bool, NoMemory> {
    let mut places: BTreeMap<usize, usize> = BTreeMap::new(alloc);
    for (place, number) in run.order.iter().enumerate() {
        places.insert(*number, place)?;
    }
    let mut last: BTreeMap<u32, usize> = BTreeMap::new(alloc);
    for event in &clients.events {
        match *event {
            Event::Ended(number) => if let Some(place) = places.get(&number).copied() {
                last.insert(process_of(clients, number), place)?;
            },
            Event::Began(number) => {
                let before = last.get(&process_of(clients, number)).copied();
                if let (Some(place), Some(before)) = (places.get(&number).copied(), before) {
                    if !run.starts.get(place).is_some_and(|start| before < *start) {
                        return Ok(false);
                    }
                }
            }
        }
    }
    Ok(true)
}

/// Whether each passage without a ground leads from a transaction that committed to one that comes after it in the order.
fn all_hold(clients: &Clients, passages: &[Passage], kind: Kind) -> bool {
    passages.iter().all(|passage| {
        passage.why.is_some() || comes_before(clients, passage.from, passage.to, kind)
    })
}

/// Whether the one committed and had ended when the other one began; in the order of processes, of the same process.
fn comes_before(clients: &Clients, from: usize, to: usize, kind: Kind) -> bool {
    let is_ordered = kind == Kind::RealTime || process_of(clients, from) == process_of(clients, to);
    is_ordered
        && ended_before(clients.spans.as_slice(), from, to)
        && is_committed(clients.transactions.as_slice(), from)
}
