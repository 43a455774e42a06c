//! How often each anomaly was seen, with its first example. What is counted is tested, not proved.

use crate::clients::Clients;
use crate::counted_reads::count_reads;
use crate::finding::Finding;
use crate::level_findings::Weaker;
use crate::lost_updates::lost_updates;
use sgt_appends::Fault;
use sgt_levels::{Committed, Partial, Tie};
use sgt_model::NoMemory;
use std::alloc::Global;

/// An example of an anomaly.
#[derive(Clone, Copy)]
pub enum Example {
    /// The read at this position of the reader has the fault.
    Read {
        reader: usize,
        read: usize,
        fault: Fault,
    },
    /// A read saw the last value of a transaction before it appends to the key again.
    Partial(Partial),
    /// Each of two transactions missed what the other appends to the key that both read.
    Update {
        one: Tie,
        other: Tie,
    },
}

/// An anomaly that was seen.
#[derive(Clone, Copy)]
pub struct Seen {
    pub name: &'static str,
    /// How often it was seen.
    pub count: usize,
    /// The first time.
    pub first: Example,
}

/// The anomalies that are counted, unless there is a serial order. If the finding is a cycle, no read has a fault. A run of
/// committed reads then leaves none to reads.
///
/// - `unwritten`, `G1a`, `G1b`, `internal`, `duplicate-elements`, `incompatible-order`: reads that show it
/// - `lost-update`: transactions that append to a key after they read a version of it that an earlier one of the history
///   read before it appended to it, if neither read has what one of the two appends
pub(crate) fn anomalies_of(
    alloc: Global,
    clients: &Clients,
    finding: &Finding,
    weaker: &Option<Weaker>,
) -> Result<Vec<Seen>, NoMemory> {
    let mut all = Vec::new(alloc);
    let Some(weaker) = weaker else {
        return Ok(all);
    };
    let history = clients.transactions.as_slice();
    let is_clean = matches!(finding, Finding::Cycle(..));
    if !is_clean || !matches!(weaker.levels.committed, Committed::Run(_)) {
        count_reads(alloc, history, &mut all)?;
    }
    if let Some(lost) = lost_updates(alloc, history, clients.keys.len())? {
        all.push(lost)?;
    }
    Ok(all)
}
