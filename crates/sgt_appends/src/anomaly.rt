//! The names of witnesses in the literature. They are tested, not proved.

use crate::check::Witness;
use crate::fault::Fault;
use crate::witness::{Edge, Reason};

/// The name of a witness.
///
/// Adya (1999), chapter 3: phenomena G0 to G2; Kingsbury and Alvaro, Elle (VLDB 2020): the others.
#[derive(Clone, Copy)]
pub enum Anomaly {
    /// A cycle of appends alone.
    G0,
    /// A read of a value that only an aborted transaction appends.
    G1a,
    /// A read of some of the values that a transaction appends.
    G1b,
    /// A cycle of appends, and of reads that saw them.
    G1c,
    /// A cycle with one read that missed an append.
    GSingle,
    /// A cycle with more reads that missed an append.
    G2Item,
    /// Two values of a transaction were seen in the opposite order, or two reads saw lists of which neither is a prefix
    /// of the other.
    IncompatibleOrder,
    /// A read contradicts what its own transaction appends.
    Internal,
    /// A read of a value that no transaction appends.
    Unwritten,
    /// A value was seen twice in one list.
    Duplicate,
}

/// The name of the witness.
pub fn name_of(witness: &Witness) -> Anomaly {
    match witness {
        Witness::Cycle(edges) => of_cycle(edges.as_slice()),
        Witness::Fault { fault, .. } => of_fault(fault),
    }
}

/// The name of the cycle.
fn of_cycle(edges: &[Edge]) -> Anomaly {
    let mut sees = false;
    let mut misses = false;
    let mut misses_more = false;
    for edge in edges {
        match edge.reason {
            Reason::Seen { .. } => sees = true,
            Reason::Missed { .. } => {
                misses_more = misses_more || misses;
                misses = true;
            }
            Reason::InOrder { .. } => (),
        }
    }
    if misses_more {
        Anomaly::G2Item
    } else if is_intermediate(edges) {
        Anomaly::G1b
    } else if misses {
        Anomaly::GSingle
    } else if sees {
        Anomaly::G1c
    } else {
        Anomaly::G0
    }
}

/// Whether one read saw a value of a transaction and missed another of the same one.
fn is_intermediate(edges: &[Edge]) -> bool {
    match edges {
        [first, second] => {
            first.from == second.to && first.to == second.from && is_one_read(first, second)
        }
        _ => false,
    }
}

/// Whether one edge is by what a read saw, and the other by what the read at the same position missed.
fn is_one_read(first: &Edge, second: &Edge) -> bool {
    match (first.reason, second.reason) {
        (Reason::Seen { read, .. }, Reason::Missed { read: other, .. }) => read == other,
        (Reason::Missed { read, .. }, Reason::Seen { read: other, .. }) => read == other,
        _ => false,
    }
}

/// The name of a read's fault.
fn of_fault(fault: &Fault) -> Anomaly {
    match fault {
        Fault::Unwritten(_) => Anomaly::Unwritten,
        Fault::Aborted { .. } => Anomaly::G1a,
        Fault::Twice(_) => Anomaly::Duplicate,
        Fault::Swapped { .. } | Fault::Incompatible { .. } => Anomaly::IncompatibleOrder,
        Fault::EndsOtherwise | Fault::Ahead { .. } => Anomaly::Internal,
    }
}
