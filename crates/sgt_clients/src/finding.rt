//! What a check finds of what clients saw.
ghost use Rattle.std.specs.Prelude.{◌≡◌, List, false, IfOk};
ghost use Rattle.sgt_appends.specs.declared.transaction.Transaction.{Transaction};
ghost use Rattle.sgt_appends.specs.Runs.{IsSerializable};
ghost use Rattle.sgt_clients.specs.declared.clients.Span.{Span};
ghost use Rattle.sgt_clients.specs.Findings.{IsFound, is_order};

use crate::clients::Clients;
use crate::fault::ClientsFault;
use crate::names::{cycle_name, name_text};
use crate::twice::twice_fault;
use sgt_appends::{Anomaly, Edge, Fault, Verdict, Witness, check_appends, name_of};
use sgt_levels::{Ground, Passage};
use sgt_model::NoMemory;
use std::alloc::Global;

/// What a check finds.
#[derive(Drop)]
pub enum Finding {
    /// A serial order.
    Serial(Vec<usize>),
    /// A cycle of transactions, each of which comes before the next, and the name of the anomaly. A step without a ground is
    /// of real time: the one ended before the other began.
    Cycle(Vec<Passage>, &'static str),
    /// A read that no order explains: its transaction, its position there, and the name of the anomaly.
    Fault {
        reader: usize,
        read: usize,
        fault: Fault,
        name: &'static str,
    },
}

/// Whether an order was found.
pub(crate) fn is_serial(finding: &Finding) -> bool
    ensures { result ≡ is_order finding.now }
{
    matches!(finding, Finding::Serial(_))
}

/// Checks what clients saw.
///
/// # Errors
///
/// `Twice` if a value is appended twice to a key, and `Check` if an allocation failed.
pub fn check_clients(alloc: Global, clients: &Clients) -> Result<Finding, ClientsFault>
    ensures { IfOk result (IsFound false clients.now.transactions.items clients.now.spans.items) }
{
    let history = clients.transactions.as_slice();
    match check_appends(alloc, history)? {
        Verdict::Serial(order) => Ok(Finding::Serial(order)),
        Verdict::Violated(witness) => {
            let anomaly = name_of(&witness);
            Ok(finding_of(alloc, witness, anomaly)?)
        }
        Verdict::AppendedTwice => Err(twice_fault(alloc, clients)?),
        Verdict::UnknownReads { .. } => Err(ClientsFault::Undecided),
    }
}

/// The finding of the witness, which shows the anomaly.
fn finding_of(alloc: Global, witness: Witness, anomaly: Anomaly) -> Result<Finding, NoMemory>
    ensures { IfOk result (λ found. (h : List Transaction) (spans : List Span) → ¬ IsSerializable h → IsFound false h spans found) }
{
    match witness {
        Witness::Cycle(edges) => {
            let steps = steps_of(alloc, edges.as_slice())?;
            let name = cycle_name(anomaly, steps.as_slice());
            Ok(Finding::Cycle(steps, name))
        }
        Witness::Fault {
            reader,
            read,
            fault,
        } => Ok(Finding::Fault {
            reader,
            read,
            fault,
            name: name_text(anomaly),
        }),
    }
}

/// The edges as steps.
fn steps_of(alloc: Global, edges: &[Edge]) -> Result<Vec<Passage>, NoMemory> {
    let mut steps = Vec::with_capacity(alloc, edges.len())?;
    for edge in edges {
        steps.push(Passage {
            from: edge.from,
            to: edge.to,
            why: Some(Ground::Observed(edge.reason)),
        })?;
    }
    Ok(steps)
}
