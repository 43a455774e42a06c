//! Real time, and the order of each process, as pairs of transactions and barriers.
//!
//! Where transactions begin after others have ended, a *barrier* stands between them: it comes after those that have
//! ended and after the barrier before it, and before those that begin until the next one.

use crate::clients::{Clients, Event};
use crate::strict::is_committed;
use sgt_appends::Before;
use sgt_model::NoMemory;
use std::alloc::Global;
use std::collections::BTreeMap;

/// Transactions and barriers of which the first of a pair comes before the second.
#[derive(Drop)]
pub(crate) struct Pairs {
    before: Vec<(usize, usize)>,
    barriers: usize,
}

impl Pairs {
    /// The pairs, borrowed.
    pub(crate) fn all(&self) -> Before<'_> {
        Before {
            pairs: self.before.as_slice(),
            barriers: self.barriers,
        }
    }
}

/// The pairs of real time.
pub(crate) fn pairs_in_time(alloc: Global, clients: &Clients) -> Result<Pairs, NoMemory> {
    let mut pairs = Pairs {
        before: Vec::new(alloc),
        barriers: 0,
    };
    let mut ended = Vec::new(alloc);
    for event in &clients.events {
        match *event {
            Event::Ended(number) => if is_committed(clients.transactions.as_slice(), number) {
                ended.push(number)?;
            },
            Event::Began(number) => {
                add_barrier(&mut pairs, clients, &mut ended)?;
                if let Some(last) = last_barrier(&pairs, clients) {
                    pairs.before.push((last, number))?;
                }
            }
        }
    }
    Ok(pairs)
}

/// The number of the last barrier, if there is one.
fn last_barrier(pairs: &Pairs, clients: &Clients) -> Option<usize> {
    let barrier = pairs.barriers.checked_sub(1)?;
    clients.transactions.len().checked_add(barrier)
}

/// Adds a barrier after those that have ended, and after the last barrier.
fn add_barrier(
    pairs: &mut Pairs,
    clients: &Clients,
    ended: &mut Vec<usize>,
) -> Result<(), NoMemory> {
    if ended.is_empty() {
        return Ok(());
    }
    let last = last_barrier(pairs, clients);
    pairs.barriers = pairs.barriers.saturating_add(1);
    let Some(barrier) = last_barrier(pairs, clients) else {
        return Ok(());
    };
    for number in ended.as_slice() {
        pairs.before.push((*number, barrier))?;
    }
    if let Some(last) = last {
        pairs.before.push((last, barrier))?;
    }
    ended.clear();
    Ok(())
}

/// The pairs of each process: the last transaction of it that committed comes before the next one.
pub(crate) fn pairs_of_processes(alloc: Global, clients: &Clients) -> Result<Pairs, NoMemory> {
    let mut before = Vec::new(alloc);
    let mut last = BTreeMap::new(alloc);
    for event in &clients.events {
        match *event {
            Event::Ended(number) => if is_committed(clients.transactions.as_slice(), number) {
                last.insert(process_of(clients, number), number)?;
            },
            Event::Began(number) => {
                if let Some(earlier) = last.get(&process_of(clients, number)).copied() {
                    before.push((earlier, number))?;
                }
            }
        }
    }
    Ok(Pairs {
        before,
        barriers: 0,
    })
}

/// The process of the transaction.
pub(crate) fn process_of(clients: &Clients, number: usize) -> u32 {
    clients.processes.get(number).copied().unwrap_or(0)
}
