//! The names of anomalies, as Adya (1999) and Elle (2020) spell them.

use crate::finding::Finding;
use crate::orders::Kept;
use sgt_appends::{Anomaly, Reason, Transaction, Witness, append_at, name_of};
use sgt_levels::{Committed, Ground, Passage, Snapshot, Tie, Writes};

/// The name of the anomaly.
pub(crate) fn name_text(anomaly: Anomaly) -> &'static str {
    match anomaly {
        Anomaly::G0 => "G0",
        Anomaly::G1a => "G1a",
        Anomaly::G1b => "G1b",
        Anomaly::G1c => "G1c",
        Anomaly::GSingle => "G-single",
        Anomaly::G2Item => "G2-item",
        Anomaly::IncompatibleOrder => "incompatible-order",
        Anomaly::Internal => "internal",
        Anomaly::Unwritten => "unwritten",
        Anomaly::Duplicate => "duplicate-elements",
    }
}

/// The name of a cycle of these steps, of which two or more may be by a missed append, and some of real time.
pub(crate) fn cycle_name(anomaly: Anomaly, steps: &[Passage]) -> &'static str {
    let is_apart = anomaly == Anomaly::G2Item && !misses_in_a_row(steps);
    match (anomaly, has_times(steps)) {
        (_, true) if is_apart => "G-nonadjacent-realtime",
        (_, false) if is_apart => "G-nonadjacent",
        (Anomaly::G0, true) => "G0-realtime",
        (Anomaly::G1c, true) => "G1c-realtime",
        (Anomaly::GSingle, true) => "G-single-realtime",
        (Anomaly::G2Item, true) => "G2-item-realtime",
        _ => name_text(anomaly),
    }
}

/// Whether two steps in a row are by a missed append. The first step comes after the last.
fn misses_in_a_row(steps: &[Passage]) -> bool {
    let mut before = steps.last().is_some_and(|step| is_miss(step));
    for step in steps {
        let miss = is_miss(step);
        if before && miss {
            return true;
        }
        before = miss;
    }
    false
}

/// Whether the step is by a missed append.
fn is_miss(step: &Passage) -> bool {
    matches!(step.why, Some(Ground::Observed(Reason::Missed { .. })))
}

/// The name of what leaves no write order.
pub(crate) fn writes_name(writes: &Writes) -> &'static str {
    match writes {
        Writes::Cycle(_) => "G0",
        Writes::Implied | Writes::Order(_) | Writes::Open => "",
    }
}

/// The name of what leaves no run of committed reads.
pub(crate) fn committed_name(committed: &Committed) -> &'static str {
    match committed {
        Committed::Fault {
            reader,
            read,
            fault,
        } => name_text(name_of(&Witness::Fault {
            reader: *reader,
            read: *read,
            fault: *fault,
        })),
        Committed::Partial(_) => "G1b",
        Committed::Cycle(ties) if any_seen(ties.as_slice()) => "G1c",
        Committed::Cycle(_) => "G0",
        Committed::Run(_) | Committed::Open => "",
    }
}

/// Whether the finding shows that the answer for read committed is no, by no more steps than the answer has.
pub(crate) fn breaks_committed(finding: &Finding, committed: &Committed) -> bool {
    match (finding, committed) {
        (
            Finding::Fault { reader, read, .. },
            Committed::Fault {
                reader: other,
                read: place,
                ..
            },
        ) => { *reader == *other && *read == *place }
        (Finding::Cycle(steps, _), Committed::Cycle(ties)) => {
            steps.len() <= ties.len()
                && !steps.iter().any(|step| is_miss(step) || step.why.is_none())
        }
        _ => false,
    }
}

/// Whether the finding shows that the answer for snapshot isolation is no, by no more steps than the answer has. A lost
/// update says more.
pub(crate) fn breaks_snapshot(
    history: &[Transaction],
    finding: &Finding,
    snapshot: &Snapshot,
) -> bool {
    match (finding, snapshot) {
        (Finding::Cycle(steps, _), Snapshot::Cycle(ties)) => {
            steps.len() <= ties.len()
                && !is_lost_update(history, ties.as_slice())
                && !misses_in_a_row(steps.as_slice())
                && !has_times(steps.as_slice())
        }
        _ => false,
    }
}

/// Whether the finding with real time shows that the answer for serializable is no, by no more steps than the one without.
pub(crate) fn breaks_serial(finding: &Finding, untimed: &Option<Finding>) -> bool {
    match (finding, untimed) {
        (Finding::Cycle(steps, _), Some(Finding::Cycle(others, _))) => {
            steps.len() <= others.len() && !has_times(steps.as_slice())
        }
        _ => false,
    }
}

/// Whether the finding shows that no snapshot run keeps real time, by no more steps than the answer has.
pub(crate) fn breaks_strong(finding: &Finding, strong: &Kept) -> bool {
    match (finding, strong) {
        (Finding::Cycle(steps, _), Kept::Cycle(passages)) => {
            steps.len() <= passages.len() && !misses_in_a_row(steps.as_slice())
        }
        _ => false,
    }
}

/// Whether a step is of real time.
fn has_times(steps: &[Passage]) -> bool {
    steps.iter().any(|step| step.why.is_none())
}

/// Whether a tie is by a value that was read.
fn any_seen(ties: &[Tie]) -> bool {
    ties.iter().any(|tie| matches!(tie.ground, Ground::Observed(Reason::Seen { .. })))
}

/// The name of what leaves no snapshot run, but a run of committed reads.
pub(crate) fn snapshot_name(history: &[Transaction], snapshot: &Snapshot) -> &'static str {
    match snapshot {
        Snapshot::Cycle(ties) if is_lost_update(history, ties.as_slice()) => "lost-update",
        Snapshot::Cycle(ties) if ties.iter().filter(|tie| misses(tie)).count() < 2 => "G-single",
        Snapshot::Cycle(_) => "G-nonadjacent",
        Snapshot::Run(_) | Snapshot::NotCommitted | Snapshot::Open => "",
    }
}

/// Whether the tie is by a value that was missed.
fn misses(tie: &Tie) -> bool {
    matches!(tie.ground, Ground::Observed(Reason::Missed { .. }))
}

/// Whether two transactions append to one key, and one of them missed what the other appended there.
fn is_lost_update(history: &[Transaction], ties: &[Tie]) -> bool {
    match ties {
        [one, other] => loses(history, one, other) || loses(history, other, one),
        _ => false,
    }
}

/// Whether the reader of the second tie missed a value at a key to which it appends, by the ties.
fn loses(history: &[Transaction], one: &Tie, other: &Tie) -> bool {
    match (one.ground, other.ground) {
        (Ground::Wait { .. }, _) => true,
        (
            Ground::Observed(Reason::InOrder { first, .. }) | Ground::Late { first, .. },
            Ground::Observed(Reason::Missed { append, .. }),
        ) => {
            let one = append_at(history, one.from, first).map(|(key, _)| key);
            let other = append_at(history, other.to, append).map(|(key, _)| key);
            one.is_some() && one == other
        }
        _ => false,
    }
}
